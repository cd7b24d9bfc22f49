// The table of commands, one row for each, and the table of options.
ghost use Rattle.std.specs.Prelude.{◌≡◌};
ghost use Rattle.dl_words.specs.Table.{code, short, long, takes_value, repeats, all_options, all_commands, plain_row};
ghost use Rattle.dl_words.specs.Table.{row_of, same};

/// An option's name. Its spellings are the same in each command that has it.
#[derive(Clone, Copy, Debug)]
pub enum OptionName {
    Dataset,
    Message,
    MessageFile,
    Recursive,
    ToGit,
    NoData,
    Input,
    Output,
    Branch,
    Since,
    Onto,
    Report,
    Script,
    Name,
    Url,
}

impl OptionName {
    /// All options.
    pub fn all() -> [OptionName; 15]
        ensures { result ≡ all_options }
    {
        [
            OptionName::Dataset,
            OptionName::Message,
            OptionName::MessageFile,
            OptionName::Recursive,
            OptionName::ToGit,
            OptionName::NoData,
            OptionName::Input,
            OptionName::Output,
            OptionName::Branch,
            OptionName::Since,
            OptionName::Onto,
            OptionName::Report,
            OptionName::Script,
            OptionName::Name,
            OptionName::Url,
        ]
    }

    fn code(self) -> u8
        ensures { result ≡ code self }
    {
        self as u8
    }

    /// Whether both are one option.
    pub fn is(self, other: OptionName) -> bool
        ensures { result ≡ same self other }
    {
        self.code() == other.code()
    }

    /// The short spelling, as `-m`; empty where there is none.
    pub fn short(self) -> &'static str
        ensures { result.now ≡ short self }
    {
        match self {
            OptionName::Dataset => "-d",
            OptionName::Message => "-m",
            OptionName::MessageFile => "-F",
            OptionName::Recursive => "-r",
            OptionName::NoData => "-n",
            OptionName::Input => "-i",
            OptionName::Output => "-o",
            OptionName::Branch => "-b",
            OptionName::Name => "-s",
            _ => "",
        }
    }

    /// The long spelling, as `--message`.
    pub fn long(self) -> &'static str
        ensures { result.now ≡ long self }
    {
        match self {
            OptionName::Dataset => "--dataset",
            OptionName::Message => "--message",
            OptionName::MessageFile => "--message-file",
            OptionName::Recursive => "--recursive",
            OptionName::ToGit => "--to-git",
            OptionName::NoData => "--no-data",
            OptionName::Input => "--input",
            OptionName::Output => "--output",
            OptionName::Branch => "--branch",
            OptionName::Since => "--since",
            OptionName::Onto => "--onto",
            OptionName::Report => "--report",
            OptionName::Script => "--script",
            OptionName::Name => "--name",
            OptionName::Url => "--url",
        }
    }

    /// Whether a value goes with it.
    pub fn takes_value(self) -> bool
        ensures { result ≡ takes_value self }
    {
        match self {
            OptionName::Recursive | OptionName::NoData | OptionName::ToGit | OptionName::Report =>
                false,
            _ => true,
        }
    }

    /// Whether it may come more than once.
    pub fn repeats(self) -> bool
        ensures { result ≡ repeats self }
    {
        match self {
            OptionName::Input | OptionName::Output => true,
            _ => false,
        }
    }
}

/// A command's name.
#[derive(Clone, Copy, Debug)]
pub enum CommandName {
    Create,
    Save,
    Status,
    Log,
    Clone,
    Get,
    Drop,
    Run,
    Rerun,
    Siblings,
    Configuration,
    Help,
    Version,
}

/// What an operand may be: any word, `add`, `set`, or `NAME=VALUE` of a setting.
#[derive(Clone, Copy, Debug)]
pub enum OperandForm {
    Any,
    Add,
    Set,
    Setting,
}

/// A command's row in the table.
#[derive(Clone, Copy, Debug)]
pub struct Row {
    /// The command's own word.
    pub word: &'static str,
    /// The options that it takes.
    pub options: &'static [OptionName],
    /// Pairs of which only one may come.
    pub excluded: &'static [(OptionName, OptionName)],
    /// The options that have to come.
    pub required: &'static [OptionName],
    /// The operands that have to come, in order.
    pub operands: &'static [OperandForm],
    /// How many more may come after them, of any form; None is any number.
    pub more: Option<u64>,
    /// The first operand begins a command, to which all words after it belong.
    pub begins_rest: bool,
    /// No word may come after the command's.
    pub alone: bool,
}

impl CommandName {
    /// All commands.
    pub fn all() -> [CommandName; 13]
        ensures { result ≡ all_commands }
    {
        [
            CommandName::Create,
            CommandName::Save,
            CommandName::Status,
            CommandName::Log,
            CommandName::Clone,
            CommandName::Get,
            CommandName::Drop,
            CommandName::Run,
            CommandName::Rerun,
            CommandName::Siblings,
            CommandName::Configuration,
            CommandName::Help,
            CommandName::Version,
        ]
    }

    /// The command's row.
    pub fn row(self) -> Row
        ensures { plain_row result ≡ row_of self }
    {
        match self {
            CommandName::Create => Row {
                word: "create",
                options: &[OptionName::Dataset],
                excluded: &[],
                required: &[],
                operands: &[OperandForm::Any],
                more: Some(0),
                begins_rest: false,
                alone: false,
            },
            CommandName::Save => Row {
                word: "save",
                options: &[
                    OptionName::Dataset,
                    OptionName::Message,
                    OptionName::MessageFile,
                    OptionName::Recursive,
                    OptionName::ToGit,
                ],
                excluded: &[(OptionName::Message, OptionName::MessageFile)],
                required: &[],
                operands: &[],
                more: None,
                begins_rest: false,
                alone: false,
            },
            CommandName::Status => Row {
                word: "status",
                options: &[OptionName::Dataset, OptionName::Recursive],
                excluded: &[],
                required: &[],
                operands: &[],
                more: Some(0),
                begins_rest: false,
                alone: false,
            },
            CommandName::Log => Row {
                word: "log",
                options: &[OptionName::Dataset],
                excluded: &[],
                required: &[],
                operands: &[],
                more: Some(1),
                begins_rest: false,
                alone: false,
            },
            CommandName::Clone => Row {
                word: "clone",
                options: &[OptionName::Dataset],
                excluded: &[],
                required: &[],
                operands: &[OperandForm::Any, OperandForm::Any],
                more: Some(0),
                begins_rest: false,
                alone: false,
            },
            CommandName::Get => Row {
                word: "get",
                options: &[
                    OptionName::Dataset,
                    OptionName::Recursive,
                    OptionName::NoData,
                ],
                excluded: &[],
                required: &[],
                operands: &[OperandForm::Any],
                more: None,
                begins_rest: false,
                alone: false,
            },
            CommandName::Drop => Row {
                word: "drop",
                options: &[OptionName::Dataset, OptionName::Recursive],
                excluded: &[],
                required: &[],
                operands: &[OperandForm::Any],
                more: None,
                begins_rest: false,
                alone: false,
            },
            CommandName::Run => Row {
                word: "run",
                options: &[
                    OptionName::Dataset,
                    OptionName::Message,
                    OptionName::Input,
                    OptionName::Output,
                ],
                excluded: &[],
                required: &[],
                operands: &[OperandForm::Any],
                more: None,
                begins_rest: true,
                alone: false,
            },
            CommandName::Rerun => Row {
                word: "rerun",
                options: &[
                    OptionName::Dataset,
                    OptionName::Message,
                    OptionName::Branch,
                    OptionName::Since,
                    OptionName::Onto,
                    OptionName::Report,
                    OptionName::Script,
                ],
                excluded: &[(OptionName::Report, OptionName::Script)],
                required: &[],
                operands: &[],
                more: Some(1),
                begins_rest: false,
                alone: false,
            },
            CommandName::Siblings => Row {
                word: "siblings",
                options: &[OptionName::Dataset, OptionName::Name, OptionName::Url],
                excluded: &[],
                required: &[OptionName::Name, OptionName::Url],
                operands: &[OperandForm::Add],
                more: Some(0),
                begins_rest: false,
                alone: false,
            },
            CommandName::Configuration => Row {
                word: "configuration",
                options: &[OptionName::Dataset],
                excluded: &[],
                required: &[],
                operands: &[OperandForm::Set, OperandForm::Setting],
                more: Some(0),
                begins_rest: false,
                alone: false,
            },
            CommandName::Help => Row {
                word: "--help",
                options: &[],
                excluded: &[],
                required: &[],
                operands: &[],
                more: Some(0),
                begins_rest: false,
                alone: true,
            },
            CommandName::Version => Row {
                word: "--version",
                options: &[],
                excluded: &[],
                required: &[],
                operands: &[],
                more: Some(0),
                begins_rest: false,
                alone: true,
            },
        }
    }
}
