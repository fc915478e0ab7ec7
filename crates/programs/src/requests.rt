//! What arguments ask for.

ghost use Rattle.std.specs.Prelude.{◌≡◌, IfErr, IfOk, map, true};
ghost use Rattle.std.specs.String.{string_bytes};
ghost use Rattle.clap.specs.Words.{app_of, is_simple_and_free};
ghost use Rattle.programs.specs.Requests.{AreRead, AreUnread};

use crate::request_faults::RequestFault;
use clap::error::ErrorKind;
use clap::{ArgMatches, Command};

/// What arguments ask for.
#[derive(Drop)]
pub enum Request<J> {
    /// The page of help.
    Help,
    /// The version of the program.
    Version,
    /// A conversion.
    Convert(J),
}

/// Reads arguments by a command: what clap finds in them, or that they ask for a page.
///
/// # Errors
///
/// `Usage` where the arguments are not as they are taken, and `OutOfMemory` where memory runs out.
pub fn read_arguments<'a>(
    command: Command<'a>,
    arguments: &'a [String],
) -> Result<Request<ArgMatches<'a>>, RequestFault<'a>>
    requires simple { is_simple_and_free (app_of command) ≡ true }
    ensures read { IfOk result (AreRead (app_of command.entry) (map string_bytes arguments.entry.now)) }
    ensures unread { IfErr result (AreUnread (app_of command.entry) (map string_bytes arguments.entry.now)) }
{
    match command.try_get_matches_from(arguments) {
        Ok(matches) => Ok(Request::Convert(matches)),
        Err(error) => match error.kind() {
            ErrorKind::DisplayHelp => Ok(Request::Help),
            ErrorKind::DisplayVersion => Ok(Request::Version),
            ErrorKind::OutOfMemory => Err(RequestFault::OutOfMemory),
            _ => Err(RequestFault::Usage(error)),
        },
    }
}
