// Which words may be operands.
ghost use Rattle.std.specs.Prelude.{◌≡◌, ◌<◌, ◌^◌, option_map};
ghost use Rattle.std.specs.Char.{is_ascii_digit};
ghost use Rattle.std.specs.List.{list_all};
ghost use Rattle.dl_words.specs.Operands.{is_person_byte, is_person, is_number, is_copies, may_have, checked_value};
ghost use Rattle.dl_words.specs.Operands.{setting_text, setting_in, has_form, is_within, may_be_next};
ghost use Rattle.dl_words.specs.Spelling.{after};

use crate::spelling::{after, is_word};
use crate::table::{OperandForm, Row};
use crate::words::Setting;

#[tactic(auto, unfolding(crate::specs::Operands::is_person_byte))]
fn is_person_byte(byte: u8) -> bool
    ensures { result ≡ is_person_byte byte }
{
    !byte.is_ascii_control() && !matches!(byte, b'<' | b'>')
}

fn are_person_bytes(text: &[u8]) -> bool
    ensures { result ≡ list_all is_person_byte text.now }
{
    text.iter().all(|byte| is_person_byte(*byte))
}

#[tactic(auto, unfolding(crate::specs::Operands::is_person))]
fn is_person(text: &[u8]) -> bool
    ensures { result ≡ is_person text.now }
{
    !text.is_empty() && text.len() <= 100 && are_person_bytes(text)
}

fn are_digits(text: &[u8]) -> bool
    ensures { result ≡ list_all is_ascii_digit text.now }
{
    text.iter().all(|byte| byte.is_ascii_digit())
}

#[tactic(auto, unfolding(crate::specs::Operands::is_number))]
fn is_number(text: &[u8]) -> bool
    ensures { result ≡ is_number text.now }
{
    if text.is_empty() || !are_digits(text) {
        return false;
    }
    text[0] != b'0'
}

#[tactic(auto, unfolding(crate::specs::Operands::is_copies))]
fn is_copies(text: &str) -> bool
    ensures { result ≡ is_copies text.now }
{
    if !is_number(text.as_bytes()) {
        return false;
    }
    match text.parse::<u64>() {
        Ok(copies) => copies <= 1000,
        Err(_) => false,
    }
}

fn may_have(setting: Setting, text: &str) -> bool
    ensures { result ≡ may_have setting text.now }
{
    match setting {
        Setting::UserName | Setting::UserEmail => is_person(text.as_bytes()),
        Setting::Numcopies => is_copies(text),
    }
}

impl Setting {
    /// The setting's name with an equals sign behind it, as in `user.name=`.
    fn text(self) -> &'static str
        ensures { result.now ≡ setting_text self }
    {
        match self {
            Setting::UserName => "user.name=",
            Setting::UserEmail => "user.email=",
            Setting::Numcopies => "annex.numcopies=",
        }
    }
}

fn checked_value(setting: Setting, word: &str) -> Option<(Setting, &str)>
    ensures { option_map (λ p. (p.0, p.1.now)) result ≡ checked_value setting (after (setting_text setting) word.now) }
{
    match after(setting.text(), word) {
        Some(text) => {
            if may_have(setting, text) {
                return Some((setting, text));
            }
            None
        }
        None => None,
    }
}

/// The setting and the value in a word `NAME=VALUE`.
#[tactic(auto, unfolding(crate::specs::Operands::setting_in))]
pub fn setting_in(word: &str) -> Option<(Setting, &str)>
    ensures { option_map (λ p. (p.0, p.1.now)) result ≡ setting_in word.now }
{
    if let Some(found) = checked_value(Setting::UserName, word) {
        return Some(found);
    }
    if let Some(found) = checked_value(Setting::UserEmail, word) {
        return Some(found);
    }
    checked_value(Setting::Numcopies, word)
}

#[tactic(auto, unfolding(crate::specs::Operands::has_form))]
fn has_form(form: OperandForm, word: &str) -> bool
    ensures { result ≡ has_form form word.now }
{
    match form {
        OperandForm::Any => true,
        OperandForm::Add => is_word(word, "add"),
        OperandForm::Set => is_word(word, "set"),
        OperandForm::Setting => setting_in(word).is_some(),
    }
}

fn is_within(more: Option<u64>, count: u64) -> bool
    ensures { result ≡ is_within more count }
{
    match more {
        None => true,
        Some(most) => count <= most,
    }
}

/// Whether a word may be the next operand after so many.
pub fn may_be_next(row: &Row, count: usize, word: &str) -> bool
    requires { count < 2 ^ 63 }
    ensures { result ≡ may_be_next row.now.operands.now row.now.more count word.now }
{
    let forms = row.operands;
    if count < forms.len() {
        return has_form(forms[count], word);
    }
    is_within(row.more, (count - forms.len() + 1) as u64)
}
