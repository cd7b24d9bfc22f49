// Reading a configuration, line by line.
ghost use Rattle.std.specs.Prelude.{map, IfOk};
ghost use Rattle.config_text.specs.Sections.{plain};
ghost use Rattle.config_text.specs.Lines.{line_of};
ghost use Rattle.config_text.specs.Reading.{Becomes, with_entry, with_line, sections_of, Gives};

use crate::errors::ConfErr;
use crate::lines::{Line, content, first_line, read_line};
use crate::sections::{Entry, Section};
use std::alloc::{AllocError, Global};

// Puts an entry into the last section; false where there is none.
fn add_entry(sections: &mut Vec<Section>, entry: Entry) -> Result<bool, AllocError>
    ensures { IfOk result (Becomes (with_entry (map plain sections.old.items) entry) sections.new.items) }
{
    let Some(mut section) = sections.pop() else {
        return Ok(false);
    };
    section.entries.push(entry)?;
    sections.push(section)?;
    Ok(true)
}

// Takes one more line; false where it is bad.
fn take_line(alloc: Global, sections: &mut Vec<Section>, line: &[u8]) -> Result<bool, AllocError>
    ensures { IfOk result (Becomes (with_line (map plain sections.old.items) (line_of line.now))
        sections.new.items) }
{
    let Some(line) = read_line(alloc, line)? else {
        return Ok(false);
    };
    match line {
        Line::Nothing => Ok(true),
        Line::Head { name, sub } => {
            let entries = Vec::new(alloc);
            sections.push(Section { name, sub, entries })?;
            Ok(true)
        }
        Line::Pair(entry) => add_entry(sections, entry),
    }
}

/// The sections of a configuration.
pub fn read(alloc: Global, bytes: &[u8]) -> Result<Vec<Section>, ConfErr>
    ensures { Gives (λ list. map plain list.items) (sections_of bytes.now) result }
{
    let mut sections = Vec::new(alloc);
    let mut rest = bytes;
    let mut count: u64 = 0;
    while !rest.is_empty() {
        let (line, after) = first_line(rest);
        count += 1;
        if !take_line(alloc, &mut sections, content(line))? {
            return Err(ConfErr::BadLine { line: count });
        }
        rest = after;
    }
    Ok(sections)
}
