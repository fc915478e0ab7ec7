//! Why nothing is done.

use programs::{FileFault, NOT_BEGUN, OUT_OF_MEMORY, Refusal, RequestFault, output_name, own_line};
use register_arguments::NAME;
use std::alloc::{AllocError, Global};

/// Why nothing is done: what is wrong with the arguments, or with the files that they name.
#[derive(Drop)]
pub enum ProgramFault<'a> {
    Arguments(RequestFault<'a>),
    Files(FileFault<'a>),
}

impl Refusal for ProgramFault<'_> {
    ghost use Rattle.register_app.specs.ProgramFaults.{fault_line, fault_status};

    ghost status_of = { fault_status };

    ghost line_of = { fault_line };

    fn status(&self) -> u8 {
        match self {
            ProgramFault::Arguments(fault) => fault.status(),
            ProgramFault::Files(_) => NOT_BEGUN,
        }
    }

    fn text(&self, alloc: Global) -> Result<String, AllocError> {
        match self {
            ProgramFault::Arguments(fault) => fault.text(NAME, alloc),
            ProgramFault::Files(FileFault::CannotOpen(file)) => {
                own_line(alloc, NAME, "cannot open ", file)
            }
            ProgramFault::Files(FileFault::CannotMake(file)) => {
                let name = output_name(alloc, file)?;
                own_line(alloc, NAME, "cannot make ", name.as_str())
            }
            ProgramFault::Files(FileFault::OutOfMemory) => own_line(alloc, NAME, OUT_OF_MEMORY, ""),
        }
    }
}
