// Configurations that git reads and refuses alike, and UUIDs that Python's `uuid` gives.
use super::common::{are_bytes, holds, holds_at, is_text, only, place, text};
use config_text::{
    ConfErr, Entry, Remote, RepoConfig, Role, Section, Submodule, append_section, dataset_id,
    made_uuid, print, read, submodules,
};
use std::alloc::Global;
use std::process::Abort;
use uuid::Uuid;

const ID: &str = "01234567-89ab-5cde-8f01-23456789abcd";

fn uuid(rt: &impl Abort, text: &str) -> Uuid {
    Uuid::parse_str(text).expect(rt, "a uuid")
}

fn section(
    rt: &impl Abort,
    alloc: Global,
    name: &str,
    sub: Option<&str>,
    key: &str,
    value: &str,
) -> Section {
    let mut entries = Vec::new(alloc);
    let entry = Entry {
        key: text(rt, alloc, key),
        value: text(rt, alloc, value),
    };
    entries.push(entry).expect(rt, "memory");
    let name = text(rt, alloc, name);
    let sub = match sub {
        None => None,
        Some(sub) => Some(text(rt, alloc, sub)),
    };
    Section { name, sub, entries }
}

// One section is printed so.
fn prints(rt: &impl Abort, alloc: Global, section: Section, want: &str) {
    let mut list = Vec::new(alloc);
    list.push(section).expect(rt, "memory");
    let printed = print(alloc, list.as_slice()).expect(rt, "memory");
    are_bytes(rt, printed.as_slice(), want.as_bytes());
}

#[test]
fn prints_a_dataset(rt: HostRuntime) {
    let (rt, alloc) = (&rt, rt.alloc());
    let section = section(rt, alloc, "datalad", Some("dataset"), "id", ID);
    let want = "[datalad \"dataset\"]\n\tid = 01234567-89ab-5cde-8f01-23456789abcd\n";
    holds(rt, want.len() == 63, want);
    prints(rt, alloc, section, want);
}

#[test]
fn prints_values(rt: HostRuntime) {
    let (rt, alloc) = (&rt, rt.alloc());
    for (value, want) in [
        ("", "[s]\n\tk = \"\"\n"),
        ("a b", "[s]\n\tk = a b\n"),
        (" x", "[s]\n\tk = \" x\"\n"),
        ("x ", "[s]\n\tk = \"x \"\n"),
        ("a#b", "[s]\n\tk = \"a#b\"\n"),
        ("a;b", "[s]\n\tk = \"a;b\"\n"),
        ("a\"b\\c", "[s]\n\tk = \"a\\\"b\\\\c\"\n"),
        ("a\nb", "[s]\n\tk = \"a\\nb\"\n"),
        ("a\tb", "[s]\n\tk = \"a\\tb\"\n"),
        ("a\rb", "[s]\n\tk = \"a\rb\"\n"),
        ("a\u{8}b", "[s]\n\tk = \"a\\bb\"\n"),
    ] {
        prints(rt, alloc, section(rt, alloc, "s", None, "k", value), want);
    }
}

fn config(rt: &impl Abort, alloc: Global, numcopies: u64) -> RepoConfig {
    RepoConfig {
        uuid: uuid(rt, ID),
        numcopies,
        name: text(rt, alloc, "DataLad User"),
        email: text(rt, alloc, "user@localhost"),
        remotes: Vec::new(alloc),
        rest: Vec::new(alloc),
    }
}

fn repository_prints(rt: &impl Abort, alloc: Global, config: &RepoConfig, want: &str) {
    let printed = config.print(alloc).expect(rt, "memory");
    are_bytes(rt, printed.as_slice(), want.as_bytes());
}

#[test]
fn prints_a_repository(rt: HostRuntime) {
    let (rt, alloc) = (&rt, rt.alloc());
    let want = "[annex]\n\
        \tuuid = 01234567-89ab-5cde-8f01-23456789abcd\n\
        \tnumcopies = 1\n\
        [user]\n\
        \tname = DataLad User\n\
        \temail = user@localhost\n";
    repository_prints(rt, alloc, &config(rt, alloc, 1), want);
}

fn remote(rt: &impl Abort, alloc: Global, name: &str, url: &str) -> Remote {
    Remote {
        name: text(rt, alloc, name),
        url: place(rt, alloc, url),
        uuid: uuid(rt, ID),
    }
}

#[test]
fn prints_remotes_and_the_rest(rt: HostRuntime) {
    let (rt, alloc) = (&rt, rt.alloc());
    let mut config = config(rt, alloc, 0);
    let remote = remote(rt, alloc, "a\"b\\c", "/w/a#b");
    config.remotes.push(remote).expect(rt, "memory");
    let core = section(rt, alloc, "core", None, "bare", "false");
    config.rest.push(core).expect(rt, "memory");
    let want = "[annex]\n\
        \tuuid = 01234567-89ab-5cde-8f01-23456789abcd\n\
        \tnumcopies = 0\n\
        [user]\n\
        \tname = DataLad User\n\
        \temail = user@localhost\n\
        [remote \"a\\\"b\\\\c\"]\n\
        \turl = \"/w/a#b\"\n\
        \tuuid = 01234567-89ab-5cde-8f01-23456789abcd\n\
        [core]\n\
        \tbare = false\n";
    repository_prints(rt, alloc, &config, want);
}

fn makes(rt: &impl Abort, alloc: Global, role: Role, want: &str) {
    let made = made_uuid(alloc, &[7; 16], role, &place(rt, alloc, "/w/ds"));
    holds(rt, made.expect(rt, "memory") == uuid(rt, want), want);
}

#[test]
fn makes_uuids(rt: HostRuntime) {
    let (rt, alloc) = (&rt, rt.alloc());
    makes(
        rt,
        alloc,
        Role::Dataset,
        "7ca59145-b5ac-5ef3-90ad-600653b12e0d",
    );
    makes(
        rt,
        alloc,
        Role::Repository,
        "490cbdc2-0d82-5cbd-94d8-aba5bedae8d0",
    );
}

fn tells(rt: &impl Abort, alloc: Global, error: ConfErr, want: &str) {
    let text = format!(in alloc; "{error}").expect(rt, "memory");
    is_text(rt, text.as_str(), want);
}

#[test]
fn tells_errors(rt: HostRuntime) {
    let (rt, alloc) = (&rt, rt.alloc());
    let line = ConfErr::BadLine { line: 7 };
    tells(
        rt,
        alloc,
        line,
        "line 7 of the configuration cannot be read",
    );
    tells(rt, alloc, ConfErr::NoMemory, "no memory");
}

// The one entry of the section is `k`, with that value.
fn has_value(rt: &impl Abort, section: &Section, want: &str) {
    is_text(rt, section.name.as_str(), "a");
    holds(rt, section.sub.is_some(), want);
    let entry = only(rt, section.entries.as_slice());
    is_text(rt, entry.key.as_str(), "k");
    is_text(rt, entry.value.as_str(), want);
}

fn reads_to(rt: &impl Abort, alloc: Global, written: &str, want: &str) {
    let text = format!(in alloc; "# c\n[a \"b\\\"c\"]\r\n\n{written}\r\n").expect(rt, "memory");
    let list = read(alloc, text.as_str().as_bytes()).expect(rt, "sections");
    has_value(rt, only(rt, list.as_slice()), want);
}

#[test]
fn reads_values(rt: HostRuntime) {
    for (written, want) in [
        ("k = \" x\" # n", " x"),
        ("\t K \t=v; n", "v"),
        ("k = a  b \t", "a  b"),
        ("k", "true"),
        ("k =", ""),
        ("k = \"#\"\\\"\\t", "#\"\t"),
        ("k = a\\b\\n\\\\ \t # c", "a\u{8}\n\\"),
        ("k = a=b", "a=b"),
    ] {
        reads_to(&rt, rt.alloc(), written, want);
    }
}

fn is_bad(rt: &impl Abort, error: Option<ConfErr>, line: u64, at: &[u8]) {
    holds_at(rt, error == Some(ConfErr::BadLine { line }), at);
}

fn refuses(rt: &impl Abort, alloc: Global, text: &[u8], line: u64) {
    is_bad(rt, read(alloc, text).err(), line, text);
}

#[test]
fn refuses_lines(rt: HostRuntime) {
    for (text, line) in [
        (b"k = v\n".as_slice(), 1),
        (b"[a]\nk = a\\\nb\n", 2),
        (b"[a]\nk = \"a\n", 2),
        (b"[a]\nk = a\\x\n", 2),
        (b"[a]\n1k = v", 2),
        (b"[a]\nk # c\n", 2),
        (b"[a] # c\n", 1),
        (b"[a  \"b\"]\n", 1),
        (b"[a]\n\n[a_b]\n", 3),
        (b"[a]\n#\xff\n", 2),
    ] {
        refuses(&rt, rt.alloc(), text, line);
    }
}

#[test]
fn appends(rt: HostRuntime) {
    let (rt, alloc) = (&rt, rt.alloc());
    let section = section(rt, alloc, "s", Some("b"), "k", "v");
    for (old, want) in [
        ("", "[s \"b\"]\n\tk = v\n"),
        ("[a]\n", "[a]\n[s \"b\"]\n\tk = v\n"),
        ("[a]", "[a]\n[s \"b\"]\n\tk = v\n"),
    ] {
        let text = append_section(alloc, old.as_bytes(), &section).expect(rt, "memory");
        are_bytes(rt, text.as_slice(), want.as_bytes());
    }
}

fn is_submodule(rt: &impl Abort, found: &Submodule) {
    is_text(rt, found.name.as_str(), "n");
    is_text(rt, found.path.as_str(), "q");
    holds(rt, found.url.is_none(), "no url");
}

#[test]
fn tells_of_a_dataset(rt: HostRuntime) {
    let (rt, alloc) = (&rt, rt.alloc());
    let text = "[datalad \"dataset\"]\nid = 01234567-89AB-5cde-8f01-23456789abcd\nid = x\n\
        [submodule \"n\"]\npath = p\npath = q\n[submodule \"m\"]\nurl = u\n";
    let list = read(alloc, text.as_bytes()).expect(rt, "sections");
    holds(
        rt,
        dataset_id(list.as_slice()) == Some(uuid(rt, ID)),
        "an id",
    );
    let found = submodules(alloc, list.as_slice()).expect(rt, "memory");
    is_submodule(rt, only(rt, found.as_slice()));
}

// The configuration of a repository with one remote and one section more.
fn is_read(rt: &impl Abort, config: &RepoConfig) {
    holds(rt, config.uuid == uuid(rt, ID), ID);
    holds(rt, config.numcopies == 1, "numcopies");
    is_text(rt, config.name.as_str(), "DataLad User");
    is_text(rt, config.email.as_str(), "user@localhost");
    let remote = only(rt, config.remotes.as_slice());
    is_text(rt, remote.name.as_str(), "b");
    is_text(rt, remote.url.as_str(), "/w");
    is_text(rt, only(rt, config.rest.as_slice()).name.as_str(), "core");
}

#[test]
fn reads_a_repository(rt: HostRuntime) {
    let text = "[annex]\nuuid = 01234567-89ab-5cde-8f01-23456789abcd\n[core]\nbare = false\n\
        [remote \"b\"]\nurl = /w\nuuid = 01234567-89ab-5cde-8f01-23456789abcd\n";
    let config = RepoConfig::read(rt.alloc(), text.as_bytes());
    is_read(&rt, &config.expect(&rt, "a configuration"));
}

fn refuses_repository(rt: &impl Abort, alloc: Global, text: &[u8], line: u64) {
    is_bad(rt, RepoConfig::read(alloc, text).err(), line, text);
}

// The same after the repository's id.
fn refuses_more(rt: &impl Abort, alloc: Global, more: &str, line: u64) {
    let text = format!(in alloc; "[annex]\nuuid = {ID}\n{more}").expect(rt, "memory");
    refuses_repository(rt, alloc, text.as_str().as_bytes(), line);
}

#[test]
fn refuses_repositories(rt: HostRuntime) {
    let (rt, alloc) = (&rt, rt.alloc());
    refuses_repository(rt, alloc, b"", 0);
    refuses_more(rt, alloc, "[a\n", 3);
    for more in [
        "numcopies = 0\n",
        "numcopies = 1001\n",
        "numcopies = 02\n",
        "uuid = x\n",
        "[user]\nname = a<b\n",
        "[remote \"b\"]\nurl = /w\n",
        "[remote \"b.c\"]\nurl = /w\nuuid = 01234567-89ab-5cde-8f01-23456789abcd\n",
    ] {
        refuses_more(rt, alloc, more, 0);
    }
}
