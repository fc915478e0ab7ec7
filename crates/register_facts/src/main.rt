//! Prints what the product knows of itself, as JSON: what it is asked for and what it writes, from its own constants
//! and functions, so that no document and no script has a list of its own. It is run without arguments and input, and
//! its stored run, the file `stdout`, is what they read.
#![tactic(auto)]

mod calendars;
mod fits;
mod named;
mod options;
mod pages;
mod tables;

use calendars::{calendar_facts, target_facts};
use fits::fit_facts;
use named::Named;
use options::{option_facts, sheet_option_facts};
use pages::pages_of_help;
use programs::{COMPLETE, INCOMPLETE, NOT_BEGUN, REFUSED};
use register_arguments::{MAX_FILES, VERSION};
use register_records::{CALENDAR_LIMIT, DATE_LIMIT, ID_LIMIT, MAX_RECORDS, NOTE_LIMIT};
use serde::{Described, Serialize, Serializer};
use std::alloc::{AllocError, Global};
use std::io;
use tables::{cause_sentences, plain_form, refusal_sentences, sealed_form};

/// The most bytes of each field, and the most records and files.
const LIMITS: [(&str, usize); 6] = [
    ("id", ID_LIMIT),
    ("calendar", CALENDAR_LIMIT),
    ("date", DATE_LIMIT),
    ("note", NOTE_LIMIT),
    ("records", MAX_RECORDS as usize),
    ("files", MAX_FILES),
];

fn known_limits(alloc: Global) -> Result<Named<usize>, AllocError> {
    Ok(Named(Vec::from_array(alloc, LIMITS)?))
}

/// The statuses: of a run that is complete, of one that broke off, of arguments that are refused, and of one that did
/// not begin.
fn known_statuses(alloc: Global) -> Result<Named<u8>, AllocError> {
    let statuses = [
        ("complete", COMPLETE),
        ("incomplete", INCOMPLETE),
        ("refused", REFUSED),
        ("not_begun", NOT_BEGUN),
    ];
    Ok(Named(Vec::from_array(alloc, statuses)?))
}

/// All that is printed: each part is found when it is written, so that none is held beside the others.
#[derive(Drop)]
struct Facts {
    alloc: Global,
}

/// Writes a part under its name, if it was found.
fn write_part<S: Serializer, T: Serialize + Drop, E: Drop>(
    out: &mut S,
    name: &str,
    part: Result<T, E>,
) -> Result<(), S::Error> {
    match part {
        Ok(found) => {
            out.key(name)?;
            found.serialize(out)
        }
        Err(_) => Err(out.custom("a part was not found")),
    }
}

impl Described for Facts {}

impl Serialize for Facts {
    fn serialize<S: Serializer>(&self, out: &mut S) -> Result<(), S::Error> {
        let alloc = self.alloc;
        out.begin_map(None)?;
        out.key("version")?;
        out.str(VERSION)?;
        write_part(out, "calendars", calendar_facts(alloc))?;
        write_part(out, "targets", target_facts(alloc))?;
        write_part(out, "plain", plain_form(alloc))?;
        write_part(out, "sealed", sealed_form(alloc))?;
        write_part(out, "refusals", refusal_sentences(alloc))?;
        write_part(out, "causes", cause_sentences(alloc))?;
        write_part(out, "statuses", known_statuses(alloc))?;
        write_part(out, "options", option_facts(alloc))?;
        write_part(out, "fits", fit_facts(alloc))?;
        write_part(out, "sheet_options", sheet_option_facts(alloc))?;
        write_part(out, "limits", known_limits(alloc))?;
        write_part(out, "help", pages_of_help(alloc))?;
        out.end_map()
    }
}

fn main(rt: HostRuntime) -> io::Result<()> {
    let facts = Facts { alloc: rt.alloc() };
    match serde_json::to_string_pretty(rt.alloc(), &facts) {
        Ok(text) => println!(rt; "{text}"),
        Err(_) => Err(io::Error::from(io::ErrorKind::Other)),
    }
}
