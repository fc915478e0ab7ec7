//! The columns of tables, and the sentences of refusals and causes.

use crate::named::Named;
use crate::options::setup_of;
use date_texts::Refusal;
use register_records::{Cause, PlainOutput, Setup, convert_source};
use serde::Serialize;
use std::alloc::{AllocError, Global};
use std::fmt::Display;
use std::io;

/// A number of a table or a message, and what it means.
#[derive(Drop, Serialize)]
pub struct Sentence {
    number: u8,
    sentence: String,
}

const REFUSALS: [Refusal; 7] = [
    Refusal::FieldCount,
    Refusal::FieldTooLong,
    Refusal::NotUtf8,
    Refusal::UnknownCalendar,
    Refusal::DateText,
    Refusal::NoSuchDate,
    Refusal::OutOfRange,
];

const CAUSES: [Cause; 8] = [
    Cause::NoMemory,
    Cause::NoThread,
    Cause::Unconfirmed,
    Cause::SinkFault,
    Cause::ReadFault,
    Cause::BadHeader,
    Cause::TooManyRecords,
    Cause::NotSealed,
];

/// The fields of the first line of a text.
fn fields_of(alloc: Global, text: &str) -> Result<Vec<String>, AllocError> {
    let mut fields = Vec::new(alloc);
    for field in text.lines().next().unwrap_or("").split(',') {
        fields.push(String::from_str(alloc, field)?)?;
    }
    Ok(fields)
}

/// The table of a register, which has to be whole.
fn table_of(alloc: Global, setup: &Setup, register: &str) -> io::Result<String> {
    let mut output = PlainOutput::new(Vec::new(alloc), 1);
    let end = convert_source(alloc, register.as_bytes(), &mut output, setup);
    if end.is_whole() {
        if let Ok(table) = String::from_utf8(output.into_inner()) {
            return Ok(table);
        }
    }
    Err(io::Error::from(io::ErrorKind::InvalidData))
}

/// A form of registers: the header, as it is accepted, and the columns of a table where no targets are asked for, from
/// a register without records.
fn form_of(alloc: Global, setup: &Setup, register: &str) -> io::Result<Named<Vec<String>>> {
    let table = table_of(alloc, setup, register)?;
    let header = fields_of(alloc, register)?;
    let columns = fields_of(alloc, table.as_str())?;
    let form = [("header", header), ("columns", columns)];
    Ok(Named(Vec::from_array(alloc, form)?))
}

/// What is known of registers without seals.
pub fn plain_form(alloc: Global) -> io::Result<Named<Vec<String>>> {
    let setup = setup_of(alloc, &[])?;
    form_of(alloc, &setup, "id,calendar,date\n")
}

/// What is known of those with seals.
pub fn sealed_form(alloc: Global) -> io::Result<Named<Vec<String>>> {
    let arguments = [String::from_str(alloc, "--sealed")?];
    let setup = setup_of(alloc, &arguments)?;
    form_of(alloc, &setup, "id,calendar,date,note\nEND,0\n")
}

/// A text of what can be displayed.
pub fn displayed(alloc: Global, words: &impl Display) -> Result<String, AllocError> {
    format!(in alloc; "{words}")
}

fn numbered(alloc: Global, number: u8, words: &impl Display) -> Result<Sentence, AllocError> {
    let sentence = displayed(alloc, words)?;
    Ok(Sentence { number, sentence })
}

/// Why records are refused.
pub fn refusal_sentences(alloc: Global) -> Result<Vec<Sentence>, AllocError> {
    let mut sentences = Vec::new(alloc);
    for refusal in REFUSALS {
        sentences.push(numbered(alloc, refusal.number(), &refusal)?)?;
    }
    Ok(sentences)
}

/// Why registers break off.
pub fn cause_sentences(alloc: Global) -> Result<Vec<Sentence>, AllocError> {
    let mut sentences = Vec::new(alloc);
    for cause in CAUSES {
        sentences.push(numbered(alloc, cause.number(), &cause)?)?;
    }
    Ok(sentences)
}
