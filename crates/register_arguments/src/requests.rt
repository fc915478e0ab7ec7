//! What the arguments ask for.

ghost use Rattle.std.specs.Prelude.{◌≡◌, IfOk, IfErr, IfSome, OnOk, codes, map, if◌then◌else◌};
ghost use Rattle.std.specs.String.{string_bytes};
ghost use Rattle.clap.specs.Words.{app_of, first_of, found_of, rows_of};
ghost use Rattle.programs.specs.Faults.{fault_of_error};
ghost use Rattle.programs.specs.Meanings.{AllPass, FailFirst, wrong};
ghost use Rattle.register_arguments.specs.Requests.{command_line, values_of};
ghost use Rattle.register_arguments.specs.Requests.{AreTargetsOf, Ask, IsTargetFault, MeanJust, meaning_of};
ghost use Rattle.register_arguments.specs.Requests.{task_of, value_checks};

use crate::help::ARGUMENTS;
use crate::jobs::Job;
use crate::option_values::read_targets;
use clap::{ArgMatches, Command};
use date_texts::Target;
use date_texts::laws::{default_targets, one_target};
use programs::{
    Delimiter, NumberTo, Request, RequestFault, check_files, chosen, command_with, is_given,
    read_arguments, value_given, values_given,
};
use register_records::{Form, MAX_RING, MAX_STRIPES};
use std::alloc::{AllocError, Global};

/// The name of the program.
pub const NAME: &str = "register";

/// The version of the program.
pub const VERSION: &str = "1.2.0";

/// The command line, as clap reads it: its options and flags, and the files.
///
/// # Errors
///
/// Memory ran out.
pub fn command<'a>(alloc: Global) -> Result<Command<'a>, AllocError>
    ensures { IfOk result (λ c. app_of c ≡ command_line) }
{
    command_with(alloc, NAME, VERSION, &ARGUMENTS)
}

/// The targets that `--to` asks for, or the default ones where it is not given.
fn chosen_targets<'a>(
    alloc: Global,
    matches: &ArgMatches<'a>,
) -> Result<Vec<Target>, RequestFault<'a>>
    ensures value { IfOk result (λ targets. AreTargetsOf (first_of (codes "to") (rows_of (found_of matches.now))) targets.items) }
    ensures fault { IfErr result (λ error. IfSome (fault_of_error error)
        (IsTargetFault (first_of (codes "to") (rows_of (found_of matches.now))))) }
{
    match value_given(matches, "to") {
        Some(list) => read_targets(alloc, list),
        None => {
            default_targets();
            Ok(Target::DEFAULT.to_vec(alloc)?)
        }
    }
}

/// The form of the registers: sealed where the flag is given, and else plain.
fn chosen_form(sealed: bool) -> Form
    ensures { result ≡ (if sealed then Form.Sealed else Form.Plain) }
{
    if sealed { Form::Sealed } else { Form::Plain }
}

/// The conversion that the values which clap found ask for.
///
/// # Errors
///
/// The first thing that is wrong, in the order of the lines below.
fn job_found<'a>(alloc: Global, matches: &ArgMatches<'a>) -> Result<Job<'a>, RequestFault<'a>>
    ensures passed { OnOk result (AllPass (value_checks (values_of (rows_of (found_of matches.now))))) }
    ensures asked { IfOk result (λ job. Ask (values_of (rows_of (found_of matches.now))) (task_of job)) }
    ensures fault { IfErr result (λ error. IfSome (fault_of_error error)
        (FailFirst (value_checks (values_of (rows_of (found_of matches.now)))))) }
{
    let targets = chosen_targets(alloc, matches)?;
    let ring = chosen::<NumberTo<MAX_RING>>(matches, "ring", "bad ring size: ")?;
    let delimiter = chosen::<Delimiter>(matches, "delimiter", "unknown delimiter: ")?;
    let stripes = chosen::<NumberTo<MAX_STRIPES>>(matches, "stripes", "bad stripes: ")?;
    let files = values_given(alloc, matches, "file")?;
    check_files(files.as_slice())?;
    Ok(Job {
        targets,
        delimiter: delimiter.unwrap_or(Delimiter::Comma),
        form: chosen_form(is_given(matches, "sealed")),
        ring,
        stripes,
        summary: is_given(matches, "summary"),
        files,
    })
}

/// What the arguments ask for.
///
/// # Errors
///
/// `Usage` where the arguments are not as they are taken, or else `Refused` for the first value with which something is
/// wrong; and `OutOfMemory` where memory runs out on the way.
pub fn read_request<'a>(
    alloc: Global,
    arguments: &'a [String],
) -> Result<Request<Job<'a>>, RequestFault<'a>>
    ensures asked { IfOk result (λ request. MeanJust (map string_bytes arguments.entry.now) (meaning_of request)) }
    ensures refused { IfErr result (λ error. IfSome (fault_of_error error)
        (λ fault. MeanJust (map string_bytes arguments.entry.now) (wrong fault))) }
{
    one_target();
    let Ok(command) = command(alloc) else {
        return Err(RequestFault::OutOfMemory);
    };
    match read_arguments(command, arguments)? {
        Request::Help => Ok(Request::Help),
        Request::Version => Ok(Request::Version),
        Request::Convert(matches) => Ok(Request::Convert(job_found(alloc, &matches)?)),
    }
}
