//! Why nothing is done.

ghost use Rattle.std.specs.Prelude.{◌≡◌, IfOk};
ghost use Rattle.std.specs.String.{string_bytes};
ghost use Rattle.sheet_app.specs.ProgramFaults.{list_line as list_line_spec};

use crate::file_sheets::FileFault;
use itoa::Buffer;
use programs::{NOT_BEGUN, OUT_OF_MEMORY, REFUSED, Refusal, RequestFault, own_line};
use sheet_arguments::NAME;
use sheets::NameListFault;
use std::alloc::{AllocError, Global};

/// Why nothing is done: what is wrong with the arguments, with the files that they name, or with the list of names.
#[derive(Drop)]
pub enum ProgramFault<'a> {
    Arguments(RequestFault<'a>),
    Files(FileFault<'a>),
    /// The list of names could not be read.
    UnreadList(&'a str),
    /// The file is no list of names.
    NoList(&'a str, NameListFault),
    /// A word says nothing of the calendar of dates by any list of names, as it was given.
    UnknownCalendar(&'a str),
    /// Memory ran out.
    OutOfMemory,
}

/// The line on a list of names that is none.
fn list_line(alloc: Global, file: &str, fault: NameListFault) -> Result<String, AllocError>
    ensures { IfOk result (λ text. string_bytes text ≡ list_line_spec file.now fault) }
{
    let (number, why) = match fault {
        NameListFault::OutOfMemory => return own_line(alloc, NAME, OUT_OF_MEMORY, ""),
        NameListFault::Header => return own_line(
            alloc,
            NAME,
            "not name,means,in at the head of ",
            file,
        ),
        NameListFault::Means(number) => (number, ": means of record "),
        NameListFault::In(number) => (number, ": in of record "),
        NameListFault::Name(number) => (number, ": name of record "),
    };
    let mut word = String::from_str(alloc, file)?;
    word.push_str(why)?;
    word.push_str(Buffer::new().format(number))?;
    own_line(alloc, NAME, "bad list of names ", word.as_str())
}

impl Refusal for ProgramFault<'_> {
    ghost use Rattle.sheet_app.specs.ProgramFaults.{fault_line, fault_status};

    ghost status_of = { fault_status };

    ghost line_of = { fault_line };

    fn status(&self) -> u8 {
        match self {
            ProgramFault::Arguments(fault) => fault.status(),
            ProgramFault::UnknownCalendar(_) => REFUSED,
            _ => NOT_BEGUN,
        }
    }

    fn text(&self, alloc: Global) -> Result<String, AllocError> {
        match self {
            ProgramFault::Arguments(fault) => fault.text(NAME, alloc),
            ProgramFault::Files(FileFault::CannotOpen(file)) => {
                own_line(alloc, NAME, "cannot open ", file)
            }
            ProgramFault::Files(FileFault::CannotMake(name)) => {
                own_line(alloc, NAME, "cannot make ", name.as_str())
            }
            ProgramFault::UnreadList(file) => own_line(alloc, NAME, "cannot read ", file),
            ProgramFault::NoList(file, fault) => list_line(alloc, file, *fault),
            ProgramFault::UnknownCalendar(word) => {
                own_line(alloc, NAME, "unknown calendar: ", word)
            }
            ProgramFault::Files(FileFault::OutOfMemory) | ProgramFault::OutOfMemory => {
                own_line(alloc, NAME, OUT_OF_MEMORY, "")
            }
        }
    }
}
