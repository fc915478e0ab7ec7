//! The arguments of a command line, as clap takes them, and what it finds of them.

ghost use Rattle.std.specs.Prelude.{◌≡◌, ◌==◌, IfOk, length, map, not, option_map, unwrap_or, [], false};
ghost use Rattle.clap.specs.Words.{all_of, app_of, first_of, found_of, one_of, rows_of, rule_of};
ghost use Rattle.programs.specs.Rules.{bare_command, files_rule, flag_rule, is_set, option_rule, repeated_rule};
ghost use Rattle.programs.specs.ArgumentRules.{app_with, rule_by, value_name};

use clap::{Arg, ArgAction, ArgMatches, Command};
use std::alloc::{AllocError, Global};

/// An option that takes a value, which the page of usage calls `value`.
fn option<'a>(alloc: Global, name: &'a str, value: &'a str) -> Arg<'a>
    ensures rule { rule_of result ≡ option_rule name.entry.now }
    ensures local { result.global ≡ false }
{
    Arg::new(alloc, name).long(name).value_name(value)
}

/// The same, as often as wanted.
fn repeated_option<'a>(alloc: Global, name: &'a str, value: &'a str) -> Arg<'a>
    ensures rule { rule_of result ≡ repeated_rule name.entry.now }
    ensures local { result.global ≡ false }
{
    Arg::new(alloc, name)
        .long(name)
        .value_name(value)
        .action(ArgAction::Append)
}

/// A flag.
fn flag<'a>(alloc: Global, name: &'a str) -> Arg<'a>
    ensures rule { rule_of result ≡ flag_rule name.entry.now }
    ensures local { result.global ≡ false }
{
    Arg::new(alloc, name).long(name).action(ArgAction::SetTrue)
}

/// The arguments that are no options, as many as there are.
fn files_argument<'a>(alloc: Global, name: &'a str, value: &'a str) -> Arg<'a>
    ensures rule { rule_of result ≡ files_rule name.entry.now }
    ensures local { result.global ≡ false }
{
    Arg::new(alloc, name)
        .value_name(value)
        .action(ArgAction::Append)
}

/// What an option takes for its value.
#[derive(Clone, Copy)]
pub enum Value<'a> {
    /// A text of its own, for which this name stands.
    Text(&'a str),
    /// A number from the least to the most, for which this name stands.
    Number {
        name: &'a str,
        least: usize,
        most: usize,
    },
    /// One of these words, between which bars stand; one in capitals stands for others. The page of help has the name
    /// for all of them.
    Words {
        name: &'a str,
        words: &'a str,
    },
}

impl<'a> Value<'a> {
    /// What stands for the value where clap names it.
    pub fn usage(self) -> &'a str {
        match self {
            Value::Text(name) | Value::Number { name, .. } => name,
            Value::Words { words, .. } => words,
        }
    }

    /// What stands for the value in the page of help.
    pub fn name(self) -> &'a str
        ensures { result.now ≡ value_name self.entry }
    {
        match self {
            Value::Text(name) | Value::Number { name, .. } | Value::Words { name, .. } => name,
        }
    }
}

/// What kind an option is of.
#[derive(Clone, Copy)]
pub enum Kind<'a> {
    /// It takes a value.
    Valued(Value<'a>),
    /// The same, as often as wanted.
    Repeated(Value<'a>),
    /// It takes none.
    Flag,
}

/// An option of a command line: all that is known of it, for clap, for the page of help, and for what is made of both.
#[derive(Clone, Copy)]
pub struct Argument<'a> {
    /// Its name, without dashes.
    pub name: &'a str,
    /// Whether it takes a value, and which one.
    pub kind: Kind<'a>,
    /// What it does, as the page of help has it: lines of up to 56 columns, before which 22 blanks stand but in the first.
    pub help: &'a str,
}

/// The name of the arguments that are no options, and what stands for them.
const FILES: (&str, &str) = ("file", "FILE");

/// An option, as clap takes it.
fn made<'a>(alloc: Global, argument: Argument<'a>) -> Arg<'a>
    ensures rule { rule_of result ≡ rule_by argument.entry }
    ensures local { result.global ≡ false }
{
    let name = argument.name;
    match argument.kind {
        Kind::Valued(value) => option(alloc, name, value.usage()),
        Kind::Repeated(value) => repeated_option(alloc, name, value.usage()),
        Kind::Flag => flag(alloc, name),
    }
}

/// The command of this name with these options, and files. A loop over them, since an exit at each cost the prover much.
///
/// # Errors
///
/// Memory ran out.
pub fn command_with<'a>(
    alloc: Global,
    name: &'a str,
    version: &'a str,
    arguments: &[Argument<'a>],
) -> Result<Command<'a>, AllocError>
    ensures { IfOk result (λ c. app_of c ≡ app_with name.entry.now arguments.now) }
{
    let mut whole = empty_command(alloc, name, version);
    'arguments: for &argument in arguments {
        whole = whole.arg(made(alloc, argument))?;
    }
    whole.arg(files_argument(alloc, FILES.0, FILES.1))
}

/// The command of this name with none of its arguments.
pub fn empty_command<'a>(alloc: Global, name: &'a str, version: &'a str) -> Command<'a>
    ensures { app_of result ≡ bare_command name.entry.now }
{
    Command::new(alloc, name)
        .version(version)
        .no_binary_name(true)
}

/// The text of clap on arguments that are not taken, which ends its last line.
///
/// # Errors
///
/// Memory ran out.
pub fn clap_text(alloc: Global, error: &clap::Error) -> Result<String, AllocError> {
    match format!(in alloc; "{error}") {
        Ok(text) => Ok(text),
        Err(_) => Err(AllocError),
    }
}

/// The value of an option, where the arguments give one.
pub fn value_given<'a>(matches: &ArgMatches<'a>, name: &str) -> Option<&'a str>
    ensures { option_map (λ v. v.now) result ≡ first_of name.now (rows_of (found_of matches.now)) }
{
    matches.get_str(name)
}

/// The values of a repeated option, or the files, in order, as a list to be kept.
///
/// # Errors
///
/// Memory ran out.
pub fn values_given<'a>(
    alloc: Global,
    matches: &ArgMatches<'a>,
    name: &str,
) -> Result<Vec<&'a str>, AllocError>
    ensures { IfOk result (λ values. map (λ v. v.now) values.items
        ≡ unwrap_or (all_of name.now (rows_of (found_of matches.now))) []) }
{
    match matches.get_strs(name) {
        Some(values) => values.to_vec(alloc),
        None => Ok(Vec::new(alloc)),
    }
}

/// Whether the arguments give values of a repeated option, or files.
pub fn are_given(matches: &ArgMatches<'_>, name: &str) -> bool
    ensures { result ≡ not (length (unwrap_or (all_of name.now (rows_of (found_of matches.now))) []) == 0) }
{
    match matches.get_strs(name) {
        Some(values) => !values.is_empty(),
        None => false,
    }
}

/// Whether the arguments give a flag.
pub fn is_given(matches: &ArgMatches<'_>, name: &str) -> bool
    ensures { result ≡ is_set (one_of name.now (rows_of (found_of matches.now))) }
{
    matches.get_one::<bool>(name).unwrap_or(false)
}
