// The top call: one command, from its words to its two texts and its status.
ghost use Rattle.std.specs.Prelude.{◌≡◌, ℕ, List, [], map, string_bytes};
ghost use Rattle.acts.specs.All.{Acts};
ghost use Rattle.recursive_save.specs.All.{CreateKeepsSound, SaveIsComplete, SaveIsOne, SaveKeeps, SaveKeepsSound};
ghost use Rattle.tree_status.specs.All.{StatusIsComplete, StatusIsOne};
ghost use Rattle.history.specs.All.{LogIsComplete, LogIsOne, LogOfNameIsComplete};
ghost use Rattle.dl_words.specs.All.{AskFor, AskOnce, EndsOnce, HaveMeaning};
ghost use Rattle.datalad_cli.specs.Answer.{call_of};
ghost use Rattle.datalad_cli.specs.Answered.{Answered};
ghost use Rattle.datalad_cli.specs.Commands.{CarriesOut, Create, Log, MayAnswer, MaySay, Save};
ghost use Rattle.datalad_cli.specs.Commands.{StatusOf, command_of, creates};
ghost use Rattle.datalad_cli.specs.Ends.{telling_of, world_of};
ghost use Rattle.datalad_cli.specs.Finding.{location_by};
ghost use Rattle.datalad_cli.specs.Messages.{source_by};
ghost use Rattle.datalad_cli.specs.Words.{leads, revision_by};

use crate::finding::{bad_path, find_root, repo_within};
use crate::help::{help, version};
use crate::messages::find_message;
use crate::reporting::{report, say_usage, starved};
use crate::status::Status;
use crate::words::{revision_by, root_of};
use dl_words::{Word, Words, WordsErr, ends_once, have_meaning, is_built, one_meaning, read_words};
use faults::{Line, Trouble};
use file_store::{Bytes, Files, Place, Sink};
use history::{log, log_is_complete, log_is_one, log_of_name_is_complete};
use recursive_save::{
    SaveWish, create, create_keeps_sound, save, save_is_complete, save_is_one, save_keeps_sound,
    save_remains,
};
use std::alloc::Global;
use tree_status::{status, status_is_complete, status_is_one};

// The text of a command that gives none.
fn no_text(alloc: Global) -> Bytes
    ensures { result ≡ [] }
{
    Bytes::new(Vec::new(alloc))
}

// `create` of a word.
fn create_at<F: Files>(
    alloc: Global,
    files: &mut F,
    cwd: &Place,
    path: &Word,
    moment: u64,
    fresh: &[u8; 16],
    lines: &mut Vec<Line>,
) -> Result<Bytes, Trouble>
    requires { lines.old.items ≡ [] }
    ensures says { MaySay (Create (leads cwd.now path.now.text) path.now.index moment fresh.now) lines.new.items
        result }
    ensures acts { let to = leads cwd.now path.now.text in let command = Create to path.now.index moment fresh.now in
        Acts (λ fault. MayAnswer F.tells command fault) F.tells (creates to path.now.index moment fresh.now)
        lines.old.items lines.new.items (F.drive files.old) (F.drive files.new) result }
{
    match root_of(alloc, cwd, path.text.as_str())? {
        None => Err(Trouble::Refused(bad_path(path))),
        Some(root) => {
            create(alloc, files, &root, moment, fresh, lines)?;
            Ok(no_text(alloc))
        }
    }
}

// `save`, by the words that may name a dataset, give a message and name its file, and say whether git keeps new files.
fn save_at<F: Files>(
    alloc: Global,
    files: &mut F,
    cwd: &Place,
    dataset: &Option<Word>,
    word: &Option<Word>,
    file: &Option<Word>,
    to_git: bool,
    moment: u64,
    lines: &mut Vec<Line>,
) -> Result<Bytes, Trouble>
    requires { lines.old.items ≡ [] }
    ensures says { let source = source_by cwd.now word.now file.now in
        MaySay (Save (location_by cwd.now dataset.now) source to_git moment) lines.new.items result }
    ensures acts { let source = source_by cwd.now word.now file.now in
        CarriesOut F.tells (Save (location_by cwd.now dataset.now) source to_git moment) lines.old.items lines.new.items
        (F.drive files.old) (F.drive files.new) result }
{
    let root = find_root(alloc, files, cwd, dataset)?;
    let message = find_message(alloc, files, cwd, word, file)?;
    let wish = SaveWish {
        message,
        to_git,
        moment,
    };
    save(alloc, files, &root, &wish, lines)?;
    Ok(no_text(alloc))
}

// `status`, by the word that may name a dataset.
fn status_at<F: Files>(
    alloc: Global,
    files: &mut F,
    cwd: &Place,
    dataset: &Option<Word>,
    lines: &mut Vec<Line>,
) -> Result<Bytes, Trouble>
    requires { lines.old.items ≡ [] }
    ensures says { MaySay (StatusOf (location_by cwd.now dataset.now)) lines.new.items result }
    ensures acts { CarriesOut F.tells (StatusOf (location_by cwd.now dataset.now)) lines.old.items lines.new.items
        (F.drive files.old) (F.drive files.new) result }
{
    let root = find_root(alloc, files, cwd, dataset)?;
    let text = status(alloc, files, &root)?;
    Ok(Bytes::new(text))
}

// `log`, by the words that may name a dataset and give a revision.
fn log_at<F: Files>(
    alloc: Global,
    files: &mut F,
    cwd: &Place,
    dataset: &Option<Word>,
    word: &Option<Word>,
    lines: &mut Vec<Line>,
) -> Result<Bytes, Trouble>
    requires { lines.old.items ≡ [] }
    ensures says { MaySay (Log (location_by cwd.now dataset.now) (revision_by word.now)) lines.new.items result }
    ensures acts { CarriesOut F.tells (Log (location_by cwd.now dataset.now) (revision_by word.now)) lines.old.items
        lines.new.items (F.drive files.old) (F.drive files.new) result }
{
    let root = find_root(alloc, files, cwd, dataset)?;
    let repo = repo_within(alloc, &root)?;
    let text = log(alloc, files, &repo, revision_by(word))?;
    Ok(Bytes::new(text))
}

// The command that words ask for.
fn act<F: Files>(
    alloc: Global,
    files: &mut F,
    asked: &Words,
    cwd: &Place,
    moment: u64,
    fresh: &[u8; 16],
    lines: &mut Vec<Line>,
) -> Result<Bytes, Trouble>
    requires { lines.old.items ≡ [] }
    ensures says { MaySay (command_of cwd.now moment fresh.now asked.now) lines.new.items result }
    ensures acts { CarriesOut F.tells (command_of cwd.now moment fresh.now asked.now) lines.old.items lines.new.items
        (F.drive files.old) (F.drive files.new) result }
{
    match asked {
        Words::Create { dataset: _, path } => create_at(
            alloc, files, cwd, path, moment, fresh, lines,
        ),
        Words::Save {
            dataset,
            message,
            message_file,
            to_git,
            ..
        } => {
            save_at(
                alloc,
                files,
                cwd,
                dataset,
                message,
                message_file,
                *to_git,
                moment,
                lines,
            )
        }
        Words::Status { dataset, .. } => status_at(alloc, files, cwd, dataset, lines),
        Words::Log { dataset, revision } => log_at(alloc, files, cwd, dataset, revision, lines),
        Words::Version => Ok(version(alloc)?),
        _ => Ok(help(alloc)?),
    }
}

// What follows of the commands' acts, and of the words' grammar, as laws of their definitions.
fn laws(alloc: Global)
    ensures made { CreateKeepsSound }
    ensures kept { SaveKeepsSound }
    ensures remains { SaveKeeps }
    ensures complete { SaveIsComplete }
    ensures single { SaveIsOne }
    ensures status { StatusIsOne }
    ensures seen { StatusIsComplete }
    ensures logged { LogIsOne }
    ensures answers { LogIsComplete }
    ensures named { LogOfNameIsComplete }
    ensures asked { AskOnce }
    ensures ended { EndsOnce }
    ensures meant { HaveMeaning }
{
    create_keeps_sound(alloc);
    save_keeps_sound();
    save_remains();
    save_is_complete();
    save_is_one();
    status_is_one();
    status_is_complete();
    log_is_one();
    log_is_complete();
    log_of_name_is_complete();
    one_meaning();
    ends_once();
    have_meaning();
}

// The answer to words that ask for something.
fn answer<F: Files, O: Sink, E: Sink>(
    alloc: Global,
    asked: &Words,
    cwd: &Place,
    moment: u64,
    fresh: &[u8; 16],
    files: &mut F,
    out: &mut O,
    err: &mut E,
) -> Status
    ensures { (words : List (List ℕ)) → AskFor words asked.now → Answered (telling_of F.tells O.tells E.tells)
        (call_of words cwd.now moment fresh.now)
        (world_of (F.drive files.old) (O.tape out.old) (E.tape err.old))
        (world_of (F.drive files.new) (O.tape out.new) (E.tape err.new)) result }
{
    laws(alloc);
    if !is_built(asked) {
        return say_usage(alloc, err, 0);
    }
    let mut lines = Vec::new(alloc);
    let outcome = act(alloc, files, asked, cwd, moment, fresh, &mut lines);
    report(alloc, out, err, lines.as_slice(), outcome)
}

/// One call of the program: the words after its name, the working directory, the seconds of the clock since 1970, 16
/// random bytes, the files, and the two outputs.
///
/// The words have one reading, the field `reading`. Where the files and the outputs tell what they hold, `ends` says,
/// by the one act that the reading has on the ground at the start, exactly what is left, printed and answered, and what
/// stands and what a crash leaves at every moment: the disk lies between two neighbours among the act's grounds; a
/// sound ground stays sound, with the heads of one of them and no object lost. What depends on the words alone is said
/// by `words` whatever they tell. A device fails only where a count of faults rose, and Done, Refused and Usage come
/// only where none did.
pub fn datalad<F: Files, O: Sink, E: Sink>(
    alloc: Global,
    words: &[String],
    cwd: &Place,
    moment: u64,
    fresh: [u8; 16],
    files: &mut F,
    out: &mut O,
    err: &mut E,
) -> Status
    ensures { Answered (telling_of F.tells O.tells E.tells)
        (call_of (map string_bytes words.now) cwd.now moment fresh)
        (world_of (F.drive files.old) (O.tape out.old) (E.tape err.old))
        (world_of (F.drive files.new) (O.tape out.new) (E.tape err.new)) result }
{
    laws(alloc);
    match read_words(alloc, words) {
        Err(WordsErr::NoMemory) => starved(err),
        Err(WordsErr::Usage { at }) => say_usage(alloc, err, at),
        Ok(asked) => {
            let status = answer(alloc, &asked, cwd, moment, &fresh, files, out, err);
            drop(asked);
            status
        }
    }
}
