// Readings worked by hand from the grammar.
use dl_words::{Setting, Word, WordList, Words, WordsErr, is_built, read_words};
use std::alloc::{AllocError, Global};
use std::process::Abort;
use std::test::Fail;

// A list of words, with `^` between them, and its reading: the options with their names, a value or an operand with the
// index of its word behind an `@`.
const OF_PLACES: [(&str, &str); 30] = [
    ("", "usage 0"),
    ("statu", "usage 0"),
    ("create^x", "create x@1"),
    ("create", "usage 1"),
    ("create^-d^a^x", "create d=a@2 x@3"),
    ("create^-da^x", "create d=a@1 x@2"),
    ("create^--dataset=a^x", "create d=a@1 x@2"),
    ("create^x^y", "usage 2"),
    ("create^x^-d^a", "create d=a@3 x@1"),
    ("create^-", "create -@1"),
    ("create^--^-d", "create -d@2"),
    ("create^--^--", "create --@2"),
    ("create^--^a^--", "usage 3"),
    ("create^-x", "usage 1"),
    ("create^-m^a", "usage 1"),
    ("create^", "create @1"),
    ("status", "status"),
    ("status^-r^-d^x", "status d=x@3 r"),
    ("status^a", "usage 1"),
    ("status^--", "status"),
    ("log", "log"),
    ("log^a", "log a@1"),
    ("log^a^b", "usage 2"),
    ("clone^a", "usage 2"),
    ("clone^a^b", "clone a@1 b@2"),
    ("clone^-d^x^a^b^c", "usage 5"),
    ("get", "usage 1"),
    ("get^-n^a^b", "get n a@2 b@3"),
    ("drop^-r^a", "drop r a@2"),
    ("drop^-n^a", "usage 1"),
];

const OF_SAVES: [(&str, &str); 27] = [
    ("save", "save"),
    ("save^-m^a^--to-git", "save m=a@2 to-git"),
    ("save^-mtext", "save m=text@1"),
    ("save^--message=", "save m=@1"),
    ("save^--message=a=b", "save m=a=b@1"),
    ("save^--message", "usage 2"),
    ("save^--message^", "save m=@2"),
    ("save^-m^a^-m^b", "usage 3"),
    ("save^-ma^--message=b", "usage 2"),
    ("save^-m^a^-F^b", "usage 3"),
    ("save^-F^b^-m", "usage 3"),
    ("save^-m", "usage 2"),
    ("save^-m^-r", "save m=-r@2"),
    ("save^-m^--", "save m=--@2"),
    ("save^-m=x", "save m==x@1"),
    ("save^-r=x", "usage 1"),
    ("save^-rx", "usage 1"),
    ("save^--recursive=1", "usage 1"),
    ("save^-r^--recursive", "usage 2"),
    ("save^a^-r^b", "save r a@1 b@3"),
    ("save^--^-r^a", "save -r@2 a@3"),
    ("save^--message-file^f^p", "save F=f@2 p@3"),
    ("save^--message-file=f", "save F=f@1"),
    ("save^--mess^a", "usage 1"),
    ("save^-n", "usage 1"),
    ("save^--to-git^--to-git", "usage 2"),
    ("save^--help", "usage 1"),
];

const OF_RUNS_AND_SETTINGS: [(&str, &str); 38] = [
    ("run", "usage 1"),
    ("run^-i^a^--^-x^--y", "run i=a@2 -x@4 --y@5"),
    ("run^-i^a^cmd^-x", "run i=a@2 cmd@3 -x@4"),
    (
        "run^-ia^--input=b^--input^c^-o^d^c",
        "run i=a@1 i=b@2 i=c@4 o=d@6 c@7",
    ),
    ("run^-i^a", "usage 3"),
    ("run^a^--^b", "run a@1 --@2 b@3"),
    ("run^-r^a", "usage 1"),
    ("rerun", "rerun"),
    ("rerun^--report", "rerun report"),
    ("rerun^--report^--script=x", "usage 2"),
    ("rerun^--script^x^--report", "usage 3"),
    (
        "rerun^-b^n^--since=^--onto^o^r",
        "rerun b=n@2 since=@3 onto=o@5 r@6",
    ),
    ("rerun^--report=x", "usage 1"),
    ("siblings^add^-s^n^--url^u", "siblings s=n@3 url=u@5"),
    ("siblings^--url=u^add^--name=n", "siblings s=n@3 url=u@1"),
    ("siblings^-s^n^--url^u", "usage 5"),
    ("siblings^add^-s^n", "usage 4"),
    ("siblings^remove", "usage 1"),
    ("siblings^--^add", "usage 1"),
    ("siblings^-sn^--url=u^--^add", "siblings s=n@1 url=u@2"),
    (
        "configuration^set^user.name=A B",
        "configuration UserName A B",
    ),
    ("configuration^set^user.name=", "usage 2"),
    ("configuration^set^user.email=a<b", "usage 2"),
    (
        "configuration^-dx^set^user.email=a@b",
        "configuration d=x@1 UserEmail a@b",
    ),
    (
        "configuration^set^annex.numcopies=1000",
        "configuration Numcopies 1000",
    ),
    ("configuration^set^annex.numcopies=1001", "usage 2"),
    ("configuration^set^annex.numcopies=0", "usage 2"),
    ("configuration^set^annex.numcopies=01", "usage 2"),
    ("configuration^set^annex.numcopies=+5", "usage 2"),
    ("configuration^set", "usage 2"),
    ("configuration^set^core.bare=1", "usage 2"),
    ("configuration^get", "usage 1"),
    ("configuration^set^user.name=a^b", "usage 3"),
    ("--help", "help"),
    ("--version", "version"),
    ("--help^x", "usage 1"),
    ("--help^--", "usage 1"),
    ("--version^--help", "usage 1"),
];

// Whether what the words ask for is built.
const BUILT: [(&str, bool); 27] = [
    ("create^x", true),
    ("create^-d^a^x", false),
    ("save^--to-git", true),
    ("save^-m^a^--to-git", true),
    ("save^-m^a", true),
    ("save^-m^a^x", false),
    ("save^--to-git^-F^f", true),
    ("save^-Ff^--to-git^-d^x", true),
    ("save^-F^f", true),
    ("save^--to-git^-r", false),
    ("save^--to-git^-d^x", true),
    ("log", true),
    ("log^a", true),
    ("log^-d^x", true),
    ("--help", true),
    ("--version", true),
    ("status", true),
    ("status^-r", false),
    ("status^-d^x", true),
    ("status^-d^x^-r", false),
    ("clone^a^b", false),
    ("get^a", false),
    ("drop^a", false),
    ("run^a", false),
    ("rerun", false),
    ("siblings^add^-s^n^--url^u", false),
    ("configuration^set^user.name=a", false),
];

fn words_in(alloc: Global, text: &str) -> Result<Vec<String>, AllocError> {
    let mut words = Vec::new(alloc);
    for word in text.split('^') {
        words.push(String::from_str(alloc, word)?)?;
    }
    Ok(words)
}

fn put_word(text: &mut String, front: &str, word: &Word) -> Result<(), AllocError> {
    text.push_str(front)?;
    text.push_str(word.text.as_str())?;
    write!(text, "@{}", word.index)
}

fn put_option(text: &mut String, front: &str, word: &Option<Word>) -> Result<(), AllocError> {
    match word {
        Some(word) => put_word(text, front, word),
        None => Ok(()),
    }
}

fn put_each(text: &mut String, front: &str, words: &WordList) -> Result<(), AllocError> {
    for word in words.as_slice() {
        put_word(text, front, word)?;
    }
    Ok(())
}

fn put_flag(text: &mut String, front: &str, is_given: bool) -> Result<(), AllocError> {
    if is_given {
        return text.push_str(front);
    }
    Ok(())
}

fn put_create(text: &mut String, words: &Words) -> Result<(), AllocError> {
    let Words::Create { dataset, path } = words else {
        return Ok(());
    };
    text.push_str("create")?;
    put_option(text, " d=", dataset)?;
    put_word(text, " ", path)
}

fn put_save(text: &mut String, words: &Words) -> Result<(), AllocError> {
    let Words::Save {
        dataset,
        message,
        message_file,
        recursive,
        to_git,
        paths,
    } = words
    else {
        return Ok(());
    };
    text.push_str("save")?;
    put_option(text, " d=", dataset)?;
    put_option(text, " m=", message)?;
    put_option(text, " F=", message_file)?;
    put_flag(text, " r", *recursive)?;
    put_flag(text, " to-git", *to_git)?;
    put_each(text, " ", paths)
}

fn put_status(text: &mut String, words: &Words) -> Result<(), AllocError> {
    let Words::Status { dataset, recursive } = words else {
        return Ok(());
    };
    text.push_str("status")?;
    put_option(text, " d=", dataset)?;
    put_flag(text, " r", *recursive)
}

fn put_log(text: &mut String, words: &Words) -> Result<(), AllocError> {
    let Words::Log { dataset, revision } = words else {
        return Ok(());
    };
    text.push_str("log")?;
    put_option(text, " d=", dataset)?;
    put_option(text, " ", revision)
}

fn put_clone(text: &mut String, words: &Words) -> Result<(), AllocError> {
    let Words::Clone {
        dataset,
        source,
        path,
    } = words
    else {
        return Ok(());
    };
    text.push_str("clone")?;
    put_option(text, " d=", dataset)?;
    put_word(text, " ", source)?;
    put_word(text, " ", path)
}

fn put_get(text: &mut String, words: &Words) -> Result<(), AllocError> {
    let Words::Get {
        dataset,
        recursive,
        no_contents,
        paths,
    } = words
    else {
        return Ok(());
    };
    text.push_str("get")?;
    put_option(text, " d=", dataset)?;
    put_flag(text, " r", *recursive)?;
    put_flag(text, " n", *no_contents)?;
    put_each(text, " ", paths)
}

fn put_drop(text: &mut String, words: &Words) -> Result<(), AllocError> {
    let Words::Drop {
        dataset,
        recursive,
        paths,
    } = words
    else {
        return Ok(());
    };
    text.push_str("drop")?;
    put_option(text, " d=", dataset)?;
    put_flag(text, " r", *recursive)?;
    put_each(text, " ", paths)
}

fn put_run(text: &mut String, words: &Words) -> Result<(), AllocError> {
    let Words::Run {
        dataset,
        message,
        inputs,
        outputs,
        command,
    } = words
    else {
        return Ok(());
    };
    text.push_str("run")?;
    put_option(text, " d=", dataset)?;
    put_option(text, " m=", message)?;
    put_each(text, " i=", inputs)?;
    put_each(text, " o=", outputs)?;
    put_each(text, " ", command)
}

fn put_rerun(text: &mut String, words: &Words) -> Result<(), AllocError> {
    let Words::Rerun {
        dataset,
        message,
        branch,
        since,
        onto,
        report,
        script,
        revision,
    } = words
    else {
        return Ok(());
    };
    text.push_str("rerun")?;
    put_option(text, " d=", dataset)?;
    put_option(text, " m=", message)?;
    put_option(text, " b=", branch)?;
    put_option(text, " since=", since)?;
    put_option(text, " onto=", onto)?;
    put_flag(text, " report", *report)?;
    put_option(text, " script=", script)?;
    put_option(text, " ", revision)
}

fn put_siblings(text: &mut String, words: &Words) -> Result<(), AllocError> {
    let Words::SiblingAdd { dataset, name, url } = words else {
        return Ok(());
    };
    text.push_str("siblings")?;
    put_option(text, " d=", dataset)?;
    put_word(text, " s=", name)?;
    put_word(text, " url=", url)
}

fn name_of(setting: Setting) -> &'static str {
    match setting {
        Setting::UserName => " UserName ",
        Setting::UserEmail => " UserEmail ",
        Setting::Numcopies => " Numcopies ",
    }
}

fn put_configuration(text: &mut String, words: &Words) -> Result<(), AllocError> {
    let Words::Configure {
        dataset,
        name,
        value,
    } = words
    else {
        return Ok(());
    };
    text.push_str("configuration")?;
    put_option(text, " d=", dataset)?;
    text.push_str(name_of(*name))?;
    text.push_str(value.as_str())
}

fn put_plain(text: &mut String, words: &Words) -> Result<(), AllocError> {
    match words {
        Words::Help => text.push_str("help"),
        Words::Version => text.push_str("version"),
        _ => Ok(()),
    }
}

// One of these puts what is asked for; the others put nothing.
fn put_words(text: &mut String, words: &Words) -> Result<(), AllocError> {
    put_create(text, words)?;
    put_save(text, words)?;
    put_status(text, words)?;
    put_log(text, words)?;
    put_clone(text, words)?;
    put_get(text, words)?;
    put_drop(text, words)?;
    put_run(text, words)?;
    put_rerun(text, words)?;
    put_siblings(text, words)?;
    put_configuration(text, words)?;
    put_plain(text, words)
}

fn shown(alloc: Global, words: &[String]) -> Result<String, AllocError> {
    let mut text = String::new(alloc);
    match read_words(alloc, words) {
        Ok(words) => put_words(&mut text, &words)?,
        Err(WordsErr::Usage { at }) => write!(text, "usage {at}")?,
        Err(WordsErr::NoMemory) => text.push_str("no memory")?,
    }
    Ok(text)
}

fn is_read(rt: &impl Abort, alloc: Global, text: &str, want: &str) -> Result<(), Fail> {
    let words = words_in(alloc, text)?;
    let got = shown(alloc, words.as_slice())?;
    assert_eq!(rt; got.as_str(), want, "at {text}");
    Ok(())
}

fn are_read(rt: &impl Abort, alloc: Global, rows: &[(&str, &str)]) -> Result<(), Fail> {
    for (text, want) in rows {
        is_read(rt, alloc, text, want)?;
    }
    Ok(())
}

#[test]
fn reads_places(rt: HostRuntime) -> Result<(), Fail> {
    are_read(&rt, rt.alloc(), &OF_PLACES)
}

#[test]
fn reads_saves(rt: HostRuntime) -> Result<(), Fail> {
    are_read(&rt, rt.alloc(), &OF_SAVES)
}

#[test]
fn reads_runs_and_settings(rt: HostRuntime) -> Result<(), Fail> {
    are_read(&rt, rt.alloc(), &OF_RUNS_AND_SETTINGS)
}

#[test]
fn reads_no_words(rt: HostRuntime) -> Result<(), Fail> {
    assert_eq!(rt; shown(rt.alloc(), &[])?.as_str(), "usage 0");
    Ok(())
}

fn is_known(rt: &impl Abort, alloc: Global, text: &str, want: bool) -> Result<(), Fail> {
    let words = words_in(alloc, text)?;
    let asked = read_words(alloc, words.as_slice())?;
    assert!(rt; is_built(&asked) == want, "at {text}");
    Ok(())
}

#[test]
fn knows_what_is_built(rt: HostRuntime) -> Result<(), Fail> {
    for (text, want) in &BUILT {
        is_known(&rt, rt.alloc(), text, *want)?;
    }
    Ok(())
}
