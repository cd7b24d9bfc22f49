// What is printed is read back: each function is a law, and does nothing.
ghost use Rattle.config_text.specs.Laws.{PrintedIsRead, ConfigIsRead};

/// Sections that are printed are read back, where names and keys are in their forms, in lower case,
/// and no second name has a newline.
pub fn printed_is_read()
    ensures { PrintedIsRead }
{}

/// A configuration that is printed is read back, where its values are in their forms and the rest
/// are sections that the program doesn't read.
pub fn config_is_read()
    ensures { ConfigIsRead }
{}
