// What the words of a call ask for.
ghost use Rattle.std.specs.Prelude.{◌≡◌};

use places::Text;
use std::marker::Model;

/// A text of the call, and the index of the word that it stands in, from 0.
#[derive(Debug, Drop)]
pub struct Word {
    pub text: Text,
    pub index: u64,
}

/// Texts of the call, in order.
#[derive(Debug, Drop)]
pub struct WordList {
    words: Vec<Word>,
}

impl Model for WordList {
    ghost use Rattle.std.specs.Prelude.{List};
    ghost use Rattle.dl_words.specs.declared.words.Word.{Word};

    ghost Value = { List Word };

    ghost view = { λ l. l.words.items };
}

impl WordList {
    /// The value of a vector. Takes no memory.
    pub fn new(words: Vec<Word>) -> WordList
        ensures { result ≡ words.items }
    {
        WordList { words }
    }

    pub fn as_slice(&self) -> &[Word]
        ensures { result.now ≡ self.now }
    {
        self.words.as_slice()
    }

    /// The vector that it was made of. Takes no memory.
    pub fn into_vec(self) -> Vec<Word>
        ensures { result.items ≡ self }
    {
        self.words
    }
}

/// What a configuration keeps of its user.
#[derive(Clone, Copy, Debug, PartialEq, Eq)]
pub enum Setting {
    UserName,
    UserEmail,
    Numcopies,
}

/// What a call asks for: a command with its options and operands. A flag is true where it was given.
#[derive(Debug, Drop)]
pub enum Words {
    Create {
        dataset: Option<Word>,
        path: Word,
    },
    Save {
        dataset: Option<Word>,
        message: Option<Word>,
        message_file: Option<Word>,
        recursive: bool,
        to_git: bool,
        paths: WordList,
    },
    Status {
        dataset: Option<Word>,
        recursive: bool,
    },
    Log {
        dataset: Option<Word>,
        revision: Option<Word>,
    },
    Clone {
        dataset: Option<Word>,
        source: Word,
        path: Word,
    },
    Get {
        dataset: Option<Word>,
        recursive: bool,
        no_contents: bool,
        paths: WordList,
    },
    Drop {
        dataset: Option<Word>,
        recursive: bool,
        paths: WordList,
    },
    Run {
        dataset: Option<Word>,
        message: Option<Word>,
        inputs: WordList,
        outputs: WordList,
        command: WordList,
    },
    Rerun {
        dataset: Option<Word>,
        message: Option<Word>,
        branch: Option<Word>,
        since: Option<Word>,
        onto: Option<Word>,
        report: bool,
        script: Option<Word>,
        revision: Option<Word>,
    },
    SiblingAdd {
        dataset: Option<Word>,
        name: Word,
        url: Word,
    },
    Configure {
        dataset: Option<Word>,
        name: Setting,
        value: Text,
    },
    Help,
    Version,
}
