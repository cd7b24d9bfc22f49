// What `--help` and `--version` print.
ghost use Rattle.std.specs.Prelude.{◌≡◌, IfOk};
ghost use Rattle.datalad_cli.specs.Help.{help_usage, help_commands, help_end, help_text, version_text};

use file_store::Bytes;
use std::alloc::{AllocError, Global};

#[tactic(auto, unfolding(crate::specs::Help::help_usage))]
fn help_usage() -> &'static [u8]
    ensures { result.now ≡ help_usage }
{
    b"usage: datalad COMMAND [OPTION..] [OPERAND..]\n\n"
}

#[tactic(auto, unfolding(crate::specs::Help::help_commands))]
fn help_commands() -> &'static [u8]
    ensures { result.now ≡ help_commands }
{
    b"\x20 create DIR                                 make a dataset at DIR\n\
      \x20 save [-d DIR] [-m MSG|-F FILE] [--to-git]  commit the working files\n\
      \x20 status [-d DIR]                            list what a save would commit\n\
      \x20 log [-d DIR] [REVISION]                    list the commits of REVISION or HEAD\n\
      \x20 --help                                     print this text\n\
      \x20 --version                                  print the version\n\n"
}

#[tactic(auto, unfolding(crate::specs::Help::help_end))]
fn help_end() -> &'static [u8]
    ensures { result.now ≡ help_end }
{
    b"status: 0 done, 1 refused, 2 wrong words, 3 no memory, 4 a device failed\n\
      pages: README.md and docs/ of the source\n"
}

/// The text of `--help`: the commands that are built, and the statuses.
#[tactic(auto, unfolding(crate::specs::Help::help_text))]
pub(crate) fn help(alloc: Global) -> Result<Bytes, AllocError>
    ensures { IfOk result (λ text. text ≡ help_text) }
{
    let mut text = Vec::from_slice(alloc, help_usage())?;
    text.extend_from_slice(help_commands())?;
    text.extend_from_slice(help_end())?;
    Ok(Bytes::new(text))
}

#[tactic(auto, unfolding(crate::specs::Help::version_text))]
fn version_bytes() -> &'static [u8]
    ensures { result.now ≡ version_text }
{
    b"datalad 0.1.0\n"
}

/// The text of `--version`.
pub(crate) fn version(alloc: Global) -> Result<Bytes, AllocError>
    ensures { IfOk result (λ text. text ≡ version_text) }
{
    Ok(Bytes::new(Vec::from_slice(alloc, version_bytes())?))
}
