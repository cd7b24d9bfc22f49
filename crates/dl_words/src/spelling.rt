// Which option or command a word is.
ghost use Rattle.std.specs.Prelude.{◌≡◌, bytes_eq, option_map, option_copied, find};
ghost use Rattle.dl_words.specs.Spelling.{is_option, after, is_name_of, joined_value, named_option, first_joined};
ghost use Rattle.dl_words.specs.Spelling.{joined_option, named_command, after_equals, after_short};
ghost use Rattle.dl_words.specs.Table.{long, short};

use crate::table::{CommandName, OptionName};

/// Whether a word is an option, where options may come.
pub fn is_option(word: &str) -> bool
    ensures { result ≡ is_option word.now }
{
    let bytes = word.as_bytes();
    bytes.len() >= 2 && bytes[0] == b'-'
}

pub fn is_word(word: &str, other: &str) -> bool
    ensures { result ≡ bytes_eq word.now other.now }
{
    word == other
}

/// What stands behind a front of the word.
pub fn after<'a>(front: &str, word: &'a str) -> Option<&'a str>
    ensures { option_copied result ≡ after front.now word.now }
{
    word.strip_prefix(front)
}

fn is_name_of(word: &str, option: OptionName) -> bool
    ensures { result ≡ is_name_of word.now option }
{
    is_word(word, option.long()) || is_word(word, option.short())
}

/// The option whose name is the word.
#[tactic(auto, unfolding(crate::specs::Spelling::named_option))]
pub fn named_option(word: &str) -> Option<OptionName>
    ensures { result ≡ named_option word.now }
{
    let options = OptionName::all();
    options
        .iter()
        .copied()
        .find(|option| is_name_of(word, *option))
}

fn after_long(word: &str, option: OptionName) -> Option<&str>
    ensures { option_copied result ≡ after_equals (after (long option) word.now) }
{
    match after(option.long(), word) {
        Some(rest) => after("=", rest),
        None => None,
    }
}

fn after_short(word: &str, option: OptionName) -> Option<&str>
    ensures { option_copied result ≡ after_short (short option) word.now }
{
    let short = option.short();
    if short.is_empty() {
        return None;
    }
    after(short, word)
}

#[tactic(auto, unfolding(crate::specs::Spelling::joined_value))]
fn joined_value(word: &str, option: OptionName) -> Option<&str>
    ensures { option_copied result ≡ joined_value word.now option }
{
    match after_long(word, option) {
        Some(value) => Some(value),
        None => after_short(word, option),
    }
}

/// The option that the word is of, and the value in it.
#[tactic(auto, unfolding(crate::specs::Spelling::joined_option))]
pub fn joined_option(word: &str) -> Option<(OptionName, &str)>
    ensures { option_map (λ p. (p.0, p.1.now)) result ≡ joined_option word.now }
{
    let options = OptionName::all();
    for option in &options {
        if let Some(value) = joined_value(word, *option) {
            return Some((*option, value));
        }
    }
    None
}

/// The command whose word this is.
#[tactic(auto, unfolding(crate::specs::Spelling::named_command))]
pub fn named_command(word: &str) -> Option<CommandName>
    ensures { result ≡ named_command word.now }
{
    let commands = CommandName::all();
    commands
        .iter()
        .copied()
        .find(|command| is_word(word, command.row().word))
}
