// What a command's options and operands ask for.
ghost use Rattle.std.specs.Prelude.{◌≡◌, [], IfOk, option_map, slice_get, unwrap_or};
ghost use Rattle.dl_words.specs.Operands.{setting_in};
ghost use Rattle.dl_words.specs.Request.{value_given, values_given, is_given, operand_at, configure, request, no_word};
ghost use Rattle.dl_words.specs.declared.table.OptionName.TheVariants as options;
ghost use Rattle.dl_words.specs.declared.table.CommandName.TheVariants as commands;

use crate::operands::setting_in;
use crate::table::{CommandName, OptionName};
use crate::words::{Setting, Word, WordList, Words};
use places::Text;
use std::alloc::{AllocError, Global};

/// An option that was given, with its value; a flag's is empty.
#[derive(Debug, Drop)]
pub struct Given {
    pub option: OptionName,
    pub value: Word,
}

/// A text of the call, in memory of its own.
pub fn word_of(alloc: Global, text: &str, index: u64) -> Result<Word, AllocError>
    ensures { IfOk result (λ w. w ≡ record { text = text.now; index = index }) }
{
    let text = Text::new(String::from_str(alloc, text)?);
    Ok(Word { text, index })
}

fn copied(alloc: Global, word: &Word) -> Result<Word, AllocError>
    ensures { IfOk result (λ w. w ≡ word.now) }
{
    word_of(alloc, word.text.as_str(), word.index)
}

fn copied_option(alloc: Global, word: Option<&Word>) -> Result<Option<Word>, AllocError>
    ensures { IfOk result (λ w. w ≡ option_map (λ p. p.now) word.entry) }
{
    match word {
        Some(word) => Ok(Some(copied(alloc, word)?)),
        None => Ok(None),
    }
}

fn value_given(
    alloc: Global,
    given: &[Given],
    option: OptionName,
) -> Result<Option<Word>, AllocError>
    ensures { IfOk result (λ w. w ≡ value_given given.now option) }
{
    for one in given {
        if one.option.is(option) {
            return Ok(Some(copied(alloc, &one.value)?));
        }
    }
    Ok(None)
}

fn values_given(alloc: Global, given: &[Given], option: OptionName) -> Result<WordList, AllocError>
    ensures { IfOk result (λ ws. ws ≡ values_given given.now option) }
{
    let mut values = Vec::new(alloc);
    for one in given {
        if one.option.is(option) {
            values.push(copied(alloc, &one.value)?)?;
        }
    }
    Ok(WordList::new(values))
}

/// Whether an option was given.
pub fn is_given(given: &[Given], option: OptionName) -> bool
    ensures { result ≡ is_given given.now option }
{
    given.iter().any(|one| one.option.is(option))
}

fn or_empty(alloc: Global, word: Option<Word>) -> Word
    ensures { result ≡ unwrap_or word no_word }
{
    match word {
        Some(word) => word,
        None => Word {
            text: Text::new(String::new(alloc)),
            index: 0,
        },
    }
}

fn operand_option(
    alloc: Global,
    operands: &[Word],
    place: usize,
) -> Result<Option<Word>, AllocError>
    ensures { IfOk result (λ w. w ≡ slice_get operands.now place) }
{
    match operands.get(place) {
        Some(word) => Ok(Some(copied(alloc, word)?)),
        None => Ok(None),
    }
}

fn operand_at(alloc: Global, operands: &[Word], place: usize) -> Result<Word, AllocError>
    ensures { IfOk result (λ w. w ≡ operand_at operands.now place) }
{
    Ok(or_empty(alloc, operand_option(alloc, operands, place)?))
}

fn save(alloc: Global, given: &[Given], operands: Vec<Word>) -> Result<Words, AllocError>
    ensures { IfOk result (λ w. w ≡ request commands.Save given.now operands.items) }
{
    Ok(Words::Save {
        dataset: value_given(alloc, given, OptionName::Dataset)?,
        message: value_given(alloc, given, OptionName::Message)?,
        message_file: value_given(alloc, given, OptionName::MessageFile)?,
        recursive: is_given(given, OptionName::Recursive),
        to_git: is_given(given, OptionName::ToGit),
        paths: WordList::new(operands),
    })
}

fn run(alloc: Global, given: &[Given], operands: Vec<Word>) -> Result<Words, AllocError>
    ensures { IfOk result (λ w. w ≡ request commands.Run given.now operands.items) }
{
    Ok(Words::Run {
        dataset: value_given(alloc, given, OptionName::Dataset)?,
        message: value_given(alloc, given, OptionName::Message)?,
        inputs: values_given(alloc, given, OptionName::Input)?,
        outputs: values_given(alloc, given, OptionName::Output)?,
        command: WordList::new(operands),
    })
}

fn rerun(alloc: Global, given: &[Given], operands: &[Word]) -> Result<Words, AllocError>
    ensures { IfOk result (λ w. w ≡ request commands.Rerun given.now operands.now) }
{
    Ok(Words::Rerun {
        dataset: value_given(alloc, given, OptionName::Dataset)?,
        message: value_given(alloc, given, OptionName::Message)?,
        branch: value_given(alloc, given, OptionName::Branch)?,
        since: value_given(alloc, given, OptionName::Since)?,
        onto: value_given(alloc, given, OptionName::Onto)?,
        report: is_given(given, OptionName::Report),
        script: value_given(alloc, given, OptionName::Script)?,
        revision: operand_option(alloc, operands, 0)?,
    })
}

fn sibling_add(alloc: Global, given: &[Given]) -> Result<Words, AllocError>
    ensures { IfOk result (λ w. w ≡ request commands.Siblings given.now []) }
{
    let name = value_given(alloc, given, OptionName::Name)?;
    let url = value_given(alloc, given, OptionName::Url)?;
    Ok(Words::SiblingAdd {
        dataset: value_given(alloc, given, OptionName::Dataset)?,
        name: or_empty(alloc, name),
        url: or_empty(alloc, url),
    })
}

fn configure(alloc: Global, dataset: Option<Word>, word: &str) -> Result<Words, AllocError>
    ensures { IfOk result (λ w. w ≡ configure dataset (setting_in word.now)) }
{
    match setting_in(word) {
        Some((name, value)) => Ok(Words::Configure {
            dataset,
            name,
            value: Text::new(String::from_str(alloc, value)?),
        }),
        None => Ok(Words::Configure {
            dataset,
            name: Setting::UserName,
            value: Text::new(String::new(alloc)),
        }),
    }
}

fn configuration(alloc: Global, given: &[Given], operands: &[Word]) -> Result<Words, AllocError>
    ensures { IfOk result (λ w. w ≡ request commands.Configuration given.now operands.now) }
{
    let dataset = value_given(alloc, given, OptionName::Dataset)?;
    let word = operand_at(alloc, operands, 1)?;
    configure(alloc, dataset, word.text.as_str())
}

fn clone(alloc: Global, given: &[Given], operands: &[Word]) -> Result<Words, AllocError>
    ensures { IfOk result (λ w. w ≡ request commands.Clone given.now operands.now) }
{
    Ok(Words::Clone {
        dataset: value_given(alloc, given, OptionName::Dataset)?,
        source: operand_at(alloc, operands, 0)?,
        path: operand_at(alloc, operands, 1)?,
    })
}

/// What a command asks for, by its options with their values and its operands, both in order.
pub fn request(
    alloc: Global,
    command: CommandName,
    given: &[Given],
    operands: Vec<Word>,
) -> Result<Words, AllocError>
    ensures { IfOk result (λ w. w ≡ request command given.now operands.items) }
{
    match command {
        CommandName::Create => Ok(Words::Create {
            dataset: value_given(alloc, given, OptionName::Dataset)?,
            path: operand_at(alloc, operands.as_slice(), 0)?,
        }),
        CommandName::Save => save(alloc, given, operands),
        CommandName::Status => Ok(Words::Status {
            dataset: value_given(alloc, given, OptionName::Dataset)?,
            recursive: is_given(given, OptionName::Recursive),
        }),
        CommandName::Log => Ok(Words::Log {
            dataset: value_given(alloc, given, OptionName::Dataset)?,
            revision: operand_option(alloc, operands.as_slice(), 0)?,
        }),
        CommandName::Clone => clone(alloc, given, operands.as_slice()),
        CommandName::Get => Ok(Words::Get {
            dataset: value_given(alloc, given, OptionName::Dataset)?,
            recursive: is_given(given, OptionName::Recursive),
            no_contents: is_given(given, OptionName::NoData),
            paths: WordList::new(operands),
        }),
        CommandName::Drop => Ok(Words::Drop {
            dataset: value_given(alloc, given, OptionName::Dataset)?,
            recursive: is_given(given, OptionName::Recursive),
            paths: WordList::new(operands),
        }),
        CommandName::Run => run(alloc, given, operands),
        CommandName::Rerun => rerun(alloc, given, operands.as_slice()),
        CommandName::Siblings => sibling_add(alloc, given),
        CommandName::Configuration => configuration(alloc, given, operands.as_slice()),
        CommandName::Help => Ok(Words::Help),
        CommandName::Version => Ok(Words::Version),
    }
}
