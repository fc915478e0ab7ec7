//! Why arguments ask for nothing.

ghost use Rattle.std.specs.Prelude.{◌≡◌, IfOk, IfSome};
ghost use Rattle.std.specs.String.{string_bytes};

use crate::arguments::clap_text;
use crate::own_lines::{OUT_OF_MEMORY, own_line};
use crate::statuses::{NOT_BEGUN, REFUSED};
use std::alloc::{AllocError, Global};

/// Why arguments ask for nothing: what is wrong with them, or that memory ran out.
#[derive(Debug, Drop)]
pub enum RequestFault<'a> {
    /// Memory ran out.
    OutOfMemory,
    /// They are not written as they are taken. The text says how, and ends its last line.
    Usage(clap::Error),
    /// What is wrong, and the word with which it is wrong, as it was given; no word, where there is none.
    Refused(&'static str, &'a str),
}

impl From<AllocError> for RequestFault<'_> {
    ghost use Rattle.std.specs.Prelude.{◌≡◌};
    ghost use Rattle.programs.specs.declared.request_faults.RequestFault.TheVariants.{OutOfMemory};

    ghost from_gives = { λ _ fault. fault ≡ OutOfMemory };

    fn from(_: AllocError) -> Self {
        RequestFault::OutOfMemory
    }
}

impl RequestFault<'_> {
    ghost use Rattle.programs.specs.Faults.{error_line, status_of_fault};

    /// The exit status: 3 where memory ran out, and 2 for what is wrong with the arguments.
    pub fn status(&self) -> u8
        ensures { result ≡ status_of_fault self.now }
    {
        match self {
            RequestFault::OutOfMemory => NOT_BEGUN,
            RequestFault::Usage(_) | RequestFault::Refused(_, _) => REFUSED,
        }
    }

    /// What standard error gets from the program of this name: a line that begins with it, or the text of clap.
    ///
    /// # Errors
    ///
    /// Memory ran out.
    pub fn text(&self, program: &str, alloc: Global) -> Result<String, AllocError>
        ensures { IfOk result (λ text. IfSome (error_line program.now self.now) (λ line. string_bytes text ≡ line)) }
    {
        match self {
            RequestFault::OutOfMemory => own_line(alloc, program, OUT_OF_MEMORY, ""),
            RequestFault::Usage(error) => clap_text(alloc, error),
            RequestFault::Refused(what, word) => own_line(alloc, program, what, word),
        }
    }
}
