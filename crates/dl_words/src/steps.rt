// How words are read, one after the other.
ghost use Rattle.std.specs.Prelude.{◌≡◌, IfOk, OnOk, length};
ghost use Rattle.std.specs.List.{list_any};
ghost use Rattle.dl_words.specs.Table.{plain_row};
ghost use Rattle.dl_words.specs.Grammar.{is_excluded, clash, has_option, has_required};
ghost use Rattle.dl_words.specs.Steps.{plain_state, start, may_come, with_option, take_operand, take_ender, take_name};
ghost use Rattle.dl_words.specs.Steps.{take_joined, take_option, take_open, step, Becomes, is_whole};
ghost use Rattle.dl_words.specs.Spelling.{joined_option, named_option};

use crate::operands::may_be_next;
use crate::request::{Given, is_given, word_of};
use crate::spelling::{is_option, is_word, joined_option, named_option};
use crate::table::{OptionName, Row};
use crate::words::Word;
use std::alloc::{AllocError, Global};

/// What is known after some words: the options with their values, the operands, the option that waits for its value,
/// and whether the options have ended.
#[derive(Debug, Drop)]
pub struct State {
    pub given: Vec<Given>,
    pub operands: Vec<Word>,
    pub waiting: Option<OptionName>,
    pub ended: bool,
}

/// Before all words.
pub fn start(alloc: Global) -> State
    ensures { plain_state result ≡ start }
{
    State {
        given: Vec::new(alloc),
        operands: Vec::new(alloc),
        waiting: None,
        ended: false,
    }
}

fn is_excluded(row: &Row, a: OptionName, b: OptionName) -> bool
    ensures { result ≡ is_excluded (plain_row row.now) a b }
{
    row.excluded.iter().any(|pair| (pair.0.is(a) && pair.1.is(b)) || (pair.0.is(b) && pair.1.is(a)))
}

fn clash(row: &Row, a: OptionName, b: OptionName) -> bool
    ensures { result ≡ clash (plain_row row.now) a b }
{
    (a.is(b) && !a.repeats()) || is_excluded(row, a, b)
}

fn has_option(row: &Row, option: OptionName) -> bool
    ensures { result ≡ has_option (plain_row row.now) option }
{
    row.options.iter().any(|own| own.is(option))
}

fn has_clash(row: &Row, given: &[Given], option: OptionName) -> bool
    ensures { result ≡ list_any (λ g. clash (plain_row row.now) g.option option) given.now }
{
    given.iter().any(|one| clash(row, one.option, option))
}

fn may_come(row: &Row, given: &[Given], option: OptionName) -> bool
    ensures { result ≡ may_come (plain_row row.now) given.now option }
{
    has_option(row, option) && !has_clash(row, given, option)
}

fn has_required(row: &Row, given: &[Given]) -> bool
    ensures { result ≡ has_required (plain_row row.now) given.now }
{
    row.required.iter().all(|option| is_given(given, *option))
}

fn push_option(
    alloc: Global,
    state: &mut State,
    option: OptionName,
    text: &str,
    index: u64,
) -> Result<(), AllocError>
    ensures { OnOk result (plain_state state.new ≡ with_option (plain_state state.old) option text.now index) }
{
    let value = word_of(alloc, text, index)?;
    state.given.push(Given { option, value })?;
    state.waiting = None;
    Ok(())
}

fn take_operand(
    alloc: Global,
    row: &Row,
    state: &mut State,
    ended: bool,
    index: u64,
    word: &str,
) -> Result<bool, AllocError>
    ensures { IfOk result (Becomes (take_operand (plain_row row.now) (plain_state state.old) ended index word.now)
        (plain_state state.new)) }
{
    if !may_be_next(row, state.operands.len(), word) {
        return Ok(false);
    }
    state.operands.push(word_of(alloc, word, index)?)?;
    state.waiting = None;
    state.ended = ended;
    Ok(true)
}

fn take_ender(row: &Row, state: &mut State) -> bool
    ensures { Becomes (take_ender (plain_row row.now) (plain_state state.old)) (plain_state state.new) result }
{
    if row.alone || !has_required(row, state.given.as_slice()) {
        return false;
    }
    state.waiting = None;
    state.ended = true;
    true
}

fn take_name(
    alloc: Global,
    row: &Row,
    state: &mut State,
    index: u64,
    option: OptionName,
) -> Result<bool, AllocError>
    ensures { IfOk result (Becomes (take_name (plain_row row.now) (plain_state state.old) index option)
        (plain_state state.new)) }
{
    if !may_come(row, state.given.as_slice(), option) {
        return Ok(false);
    }
    if option.takes_value() {
        state.waiting = Some(option);
        return Ok(true);
    }
    push_option(alloc, state, option, "", index)?;
    Ok(true)
}

fn take_joined(
    alloc: Global,
    row: &Row,
    state: &mut State,
    index: u64,
    word: &str,
) -> Result<bool, AllocError>
    ensures { IfOk result (Becomes
        (take_joined (plain_row row.now) (plain_state state.old) index (joined_option word.now))
        (plain_state state.new)) }
{
    let Some((option, text)) = joined_option(word) else {
        return Ok(false);
    };
    if !option.takes_value() || !may_come(row, state.given.as_slice(), option) {
        return Ok(false);
    }
    push_option(alloc, state, option, text, index)?;
    Ok(true)
}

fn take_option(
    alloc: Global,
    row: &Row,
    state: &mut State,
    index: u64,
    word: &str,
) -> Result<bool, AllocError>
    ensures { IfOk result (Becomes
        (take_option (plain_row row.now) (plain_state state.old) index word.now (named_option word.now))
        (plain_state state.new)) }
{
    match named_option(word) {
        Some(option) => take_name(alloc, row, state, index, option),
        None => take_joined(alloc, row, state, index, word),
    }
}

fn take_open(
    alloc: Global,
    row: &Row,
    state: &mut State,
    index: u64,
    word: &str,
) -> Result<bool, AllocError>
    ensures { IfOk result (Becomes (take_open (plain_row row.now) (plain_state state.old) index word.now)
        (plain_state state.new)) }
{
    if is_word(word, "--") {
        return Ok(take_ender(row, state));
    }
    if is_option(word) {
        return take_option(alloc, row, state, index, word);
    }
    take_operand(alloc, row, state, row.begins_rest, index, word)
}

/// Takes one more word; false where the word can't come.
#[tactic(auto, unfolding(crate::specs::Steps::step))]
pub fn take_word(
    alloc: Global,
    row: &Row,
    state: &mut State,
    index: u64,
    word: &str,
) -> Result<bool, AllocError>
    ensures { IfOk result (Becomes (step (plain_row row.now) (plain_state state.old) index word.now)
        (plain_state state.new)) }
{
    if state.ended {
        return take_operand(alloc, row, state, true, index, word);
    }
    match state.waiting {
        Some(option) => {
            push_option(alloc, state, option, word, index)?;
            Ok(true)
        }
        None => take_open(alloc, row, state, index, word),
    }
}

/// Whether nothing lacks at the end.
#[tactic(auto, unfolding(crate::specs::Steps::is_whole))]
pub fn is_whole(row: &Row, state: &State) -> bool
    ensures { result ≡ is_whole (plain_row row.now) (plain_state state.now) }
{
    state.waiting.is_none()
        && has_required(row, state.given.as_slice())
        && row.operands.len() <= state.operands.len()
}
