//! The words of a call: which of them a command has, and what they ask for.
#![tactic(auto)]

mod built;
mod errors;
mod laws;
mod operands;
mod reading;
mod request;
mod spelling;
mod steps;
mod table;
mod words;

pub use built::is_built;
pub use errors::WordsErr;
pub use laws::{ends_once, have_meaning, one_meaning};
pub use reading::read_words;
pub use table::{CommandName, OperandForm, OptionName, Row};
pub use words::{Setting, Word, WordList, Words};
