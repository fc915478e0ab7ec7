//! Why a program does nothing, and how it says so.

ghost use Rattle.std.specs.Prelude.{◌≡◌, ◌≤◌, ℕ, IfOk, IfSome, List, Option, length};
ghost use Rattle.std.specs.String.{string_bytes};
ghost use Rattle.programs.specs.Refusals.{IsTold};

use crate::own_lines::report_out_of_memory;
use crate::statuses::NOT_BEGUN;
use register_records::{Output, send};
use std::alloc::{AllocError, Global};

/// Why a program does nothing.
pub trait Refusal {
    // The exit status.
    ghost status_of: { Self → ℕ };

    // The line that standard error gets, where it is one of the program's own.
    ghost line_of: { Self → Option (List ℕ) };

    /// The exit status: 2 for what is wrong with the arguments, and 3 for files and where memory ran out.
    fn status(&self) -> u8
        ensures { result ≡ status_of self.now };

    /// What standard error gets: a line that begins with the program's name, or the text of clap.
    ///
    /// # Errors
    ///
    /// Memory ran out.
    fn text(&self, alloc: Global) -> Result<String, AllocError>
        ensures { IfOk result (λ text. IfSome (line_of self.now) (λ line. string_bytes text ≡ line)) };
}

/// Reports why nothing is done, and returns the exit status. A fault of `errors` is let go: there is nowhere else to
/// report it.
pub fn report_refusal<E: Output, F: Refusal>(
    alloc: Global,
    program: &str,
    errors: &mut E,
    why: &F,
) -> u8
    requires short { length program.now ≤ 30 }
    ensures told { IsTold F.status_of F.line_of E.Output program.now why.now result errors.old errors.new }
    ensures mark { E.own_mark errors.new ≡ E.own_mark errors.old }
{
    match why.text(alloc) {
        Ok(text) => {
            let _ = send(errors, text.as_bytes());
            why.status()
        }
        Err(_) => {
            report_out_of_memory(program, errors);
            NOT_BEGUN
        }
    }
}
