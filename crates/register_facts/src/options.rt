//! The options of the command line: what their table has of them, and what the program takes.

use crate::calendars::names_of;
use clap::{Arg, Command};
use date_texts::Target;
use programs::{Argument, Kind, Request, Value};
use register_arguments::{ARGUMENTS, NO_TARGET, command, read_request};
use register_records::Setup;
use serde::Serialize;
use std::alloc::{AllocError, Global};
use std::io;

/// An option: its name and its letter; and of one with a value what stands for that, the words and the least and the
/// greatest number that it takes, and the value that asks for the same as no option.
#[derive(Drop, Serialize)]
pub struct OptionFacts {
    name: String,
    letter: Option<char>,
    value: Option<String>,
    words: Vec<String>,
    least: Option<usize>,
    most: Option<usize>,
    default: Option<String>,
}

/// The option that takes a list of columns.
const LIST: &str = "to";

/// What is asked of a run: its setup on a machine of one processor, and whether the ring and the stripes are written.
#[derive(Clone, Copy)]
struct Asked {
    setup: Setup,
    has_ring: bool,
    has_stripes: bool,
}

/// What these arguments ask for, or `None` where they ask for no table.
fn asked_by(alloc: Global, arguments: &[String]) -> Option<Asked> {
    match read_request(alloc, arguments) {
        Ok(Request::Convert(job)) => Some(Asked {
            setup: job.setup(1),
            has_ring: job.ring.is_some(),
            has_stripes: job.stripes.is_some(),
        }),
        _ => None,
    }
}

fn asked_for(alloc: Global, arguments: &[String]) -> io::Result<Asked> {
    match asked_by(alloc, arguments) {
        Some(asked) => Ok(asked),
        None => Err(io::Error::from(io::ErrorKind::InvalidInput)),
    }
}

/// What these arguments ask for, which has to be a table.
pub fn setup_of(alloc: Global, arguments: &[String]) -> io::Result<Setup> {
    Ok(asked_for(alloc, arguments)?.setup)
}

/// Whether two conversions are asked for alike, on every machine.
fn are_alike(one: &Asked, other: &Asked) -> bool {
    one.setup.targets() == other.setup.targets()
        && one.has_ring == other.has_ring
        && one.setup.ring() == other.setup.ring()
        && one.setup.delimiter() == other.setup.delimiter()
        && one.has_stripes == other.has_stripes
        && one.setup.stripes() == other.setup.stripes()
        && one.setup.form() == other.setup.form()
}

impl OptionFacts {
    /// An option of clap, of whose values nothing is known yet.
    fn new(alloc: Global, argument: &Arg<'_>) -> Result<OptionFacts, AllocError> {
        Ok(OptionFacts {
            name: String::from_str(alloc, argument.get_long().unwrap_or(""))?,
            letter: argument.get_short(),
            value: None,
            words: Vec::new(alloc),
            least: None,
            most: None,
            default: None,
        })
    }

    /// Takes what the table has of its value: of words those that stand for themselves.
    fn take_value(&mut self, alloc: Global, value: Value<'_>) -> Result<(), AllocError> {
        self.value = Some(String::from_str(alloc, value.usage())?);
        match value {
            Value::Text(_) => (),
            Value::Number { least, most, .. } => {
                self.least = Some(least);
                self.most = Some(most);
            }
            Value::Words { words, .. } => {
                for word in words.split('|') {
                    if !word.bytes().all(|byte| byte.is_ascii_uppercase()) {
                        self.words.push(String::from_str(alloc, word)?)?;
                    }
                }
            }
        }
        Ok(())
    }

    /// Asks for this value. Returns whether it is taken.
    fn try_value(
        &mut self,
        alloc: Global,
        without: &Asked,
        value: &str,
    ) -> Result<bool, AllocError> {
        let mut argument = String::from_str(alloc, "--")?;
        argument.push_str(self.name.as_str())?;
        argument.push_str("=")?;
        argument.push_str(value)?;
        let arguments = [argument];
        let Some(asked) = asked_by(alloc, &arguments) else {
            return Ok(false);
        };
        if are_alike(&asked, without) {
            self.default = Some(String::from_str(alloc, value)?);
        }
        Ok(true)
    }

    /// Asks for the names that stand in a list of columns, of which each that is taken is one of its words, and for a
    /// list.
    fn try_names(&mut self, alloc: Global, without: &Asked) -> Result<(), AllocError> {
        let list = names_of(alloc, without.setup.targets())?.join(alloc, ",")?;
        self.try_value(alloc, without, list.as_str())?;
        for name in names_of(alloc, &Target::ALL)? {
            if self.try_value(alloc, without, name)? {
                self.words.push(String::from_str(alloc, name)?)?;
            }
        }
        if self.try_value(alloc, without, NO_TARGET)? {
            self.words.push(String::from_str(alloc, NO_TARGET)?)?;
        }
        Ok(())
    }

    /// Asks for each of its words.
    fn try_words(&mut self, alloc: Global, without: &Asked) -> Result<(), AllocError> {
        let mut taken = Vec::new(alloc);
        for word in &self.words {
            taken.push(word.clone()?)?;
        }
        for word in &taken {
            self.try_value(alloc, without, word.as_str())?;
        }
        Ok(())
    }
}

/// The options of a command, in the order in which clap has them, with what their table has of each.
fn options_of(
    alloc: Global,
    mut command: Command<'_>,
    arguments: &[Argument<'_>],
) -> io::Result<Vec<OptionFacts>> {
    // This adds those for help and version.
    command.render_help()?;
    let mut all = Vec::new(alloc);
    for argument in command.get_arguments() {
        if argument.get_long().is_some() {
            all.push(OptionFacts::new(alloc, argument)?)?;
        }
    }
    for (option, argument) in all.iter_mut().zip(arguments) {
        match argument.kind {
            Kind::Valued(value) | Kind::Repeated(value) => option.take_value(alloc, value)?,
            Kind::Flag => (),
        }
    }
    Ok(all)
}

/// What is known of each option, with the values that ask for the same as none.
pub fn option_facts(alloc: Global) -> io::Result<Vec<OptionFacts>> {
    let without = asked_for(alloc, &[])?;
    let mut all = options_of(alloc, command(alloc)?, &ARGUMENTS)?;
    for option in &mut all {
        if option.name.as_str() == LIST {
            option.try_names(alloc, &without)?;
        } else {
            option.try_words(alloc, &without)?;
        }
    }
    Ok(all)
}

/// The options of `register-sheet`.
pub fn sheet_option_facts(alloc: Global) -> io::Result<Vec<OptionFacts>> {
    options_of(
        alloc,
        sheet_arguments::command(alloc)?,
        &sheet_arguments::ARGUMENTS,
    )
}
