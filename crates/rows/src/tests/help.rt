// `--help` and `--version`, where nothing stands.
use super::calls::{Row, says};
use super::files::{count_of, is_count};
use file_store::MemFiles;

const ROWS: [Row<'static>; 3] = [
    Row {
        words: "--help",
        code: 0,
        out: "usage: datalad COMMAND [OPTION..] [OPERAND..]\n\
              \n\
              \x20 create DIR                                 make a dataset at DIR\n\
              \x20 save [-d DIR] [-m MSG|-F FILE] [--to-git]  commit the working files\n\
              \x20 status [-d DIR]                            list what a save would commit\n\
              \x20 log [-d DIR] [REVISION]                    list the commits of REVISION or HEAD\n\
              \x20 --help                                     print this text\n\
              \x20 --version                                  print the version\n\
              \n\
              status: 0 done, 1 refused, 2 wrong words, 3 no memory, 4 a device failed\n\
              pages: README.md and docs/ of the source\n",
        err: "",
    },
    Row {
        words: "--version",
        code: 0,
        out: "datalad 0.1.0\n",
        err: "",
    },
    Row {
        words: "--help x",
        code: 2,
        out: "",
        err: "datalad: usage: word 1\n",
    },
];

#[test]
fn help_and_version(rt: HostRuntime) {
    let alloc = rt.alloc();
    let mut files = MemFiles::new(alloc);
    for row in &ROWS {
        says(&rt, alloc, &mut files, row);
    }
    is_count(&rt, count_of(&rt, alloc, &files), 0);
}
