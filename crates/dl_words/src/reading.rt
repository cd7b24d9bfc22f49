// Reading the words of a call.
ghost use Rattle.std.specs.Prelude.{map, string_bytes, Some, Ok, IfOk, IfErr};
ghost use Rattle.dl_words.specs.Grammar.{AskFor, Refuses};
ghost use Rattle.dl_words.specs.Steps.{plain_state, start, run, reading, command_reading, Gives};
ghost use Rattle.dl_words.specs.Table.{plain_row};
ghost use Rattle.dl_words.specs.declared.words.Words.{Words};

use crate::errors::WordsErr;
use crate::request::request;
use crate::spelling::named_command;
use crate::steps::{State, is_whole, start, take_word};
use crate::table::{CommandName, Row};
use crate::words::Words;
use std::alloc::Global;

// The state after the words behind the command's.
fn state_after(alloc: Global, row: &Row, words: &[String]) -> Result<State, WordsErr>
    ensures { Gives plain_state (run (plain_row row.now) 1 start (map string_bytes words.now)) result }
{
    let mut state = start(alloc);
    for (index, word) in words.iter().enumerate() {
        let at = index as u64 + 1;
        if !take_word(alloc, row, &mut state, at, word.as_str())? {
            return Err(WordsErr::Usage { at });
        }
    }
    Ok(state)
}

fn read_command(alloc: Global, command: CommandName, words: &[String]) -> Result<Words, WordsErr>
    ensures { Gives (λ w. w) (command_reading (Some command) (map string_bytes words.now)) result }
{
    let row = command.row();
    let state = state_after(alloc, &row, words)?;
    if !is_whole(&row, &state) {
        let at = words.len() as u64 + 1;
        return Err(WordsErr::Usage { at });
    }
    let State {
        given,
        operands,
        waiting: _,
        ended: _,
    } = state;
    Ok(request(alloc, command, given.as_slice(), operands)?)
}

#[tactic(auto, unfolding(crate::specs::Steps::reading))]
fn read_all(alloc: Global, words: &[String]) -> Result<Words, WordsErr>
    ensures { Gives (λ w. w) (reading (map string_bytes words.now)) result }
{
    match words {
        [] => Err(WordsErr::Usage { at: 0 }),
        [first, rest @ ..] => match named_command(first.as_str()) {
            Some(command) => read_command(alloc, command, rest),
            None => Err(WordsErr::Usage { at: 0 }),
        },
    }
}

/// What the words of a call ask for. Word 0 is the command.
pub fn read_words(alloc: Global, words: &[String]) -> Result<Words, WordsErr>
    // What is read is a call that asks for that.
    ensures found { IfOk result (AskFor (map string_bytes words.now)) }
    // A call is read, unless memory runs out.
    ensures all { (asked : Words) → AskFor (map string_bytes words.now) asked → Gives (λ w. w) (Ok asked) result }
    // Words that are none are refused at the word where no longer front begins a call.
    ensures refused { IfErr result (Refuses (map string_bytes words.now)) }
{
    read_all(alloc, words)
}
