//! The pages of help.

use crate::named::Named;
use programs::{COMPLETE, Help, Page, print_page};
use register_records::PlainOutput;
use std::alloc::{AllocError, Global};
use std::io;

/// A page of help, as it is printed.
fn printed(alloc: Global, help: &Help<'_>) -> io::Result<String> {
    let mut output = PlainOutput::new(Vec::new(alloc), 1);
    let mut errors = PlainOutput::new(Vec::new(alloc), 1);
    if print_page("", Page::Help(help), &mut output, &mut errors) == COMPLETE {
        if let Ok(page) = String::from_utf8(output.into_inner()) {
            return Ok(page);
        }
    }
    Err(io::Error::from(io::ErrorKind::InvalidData))
}

/// The lines of a page, of which the last is ended too.
fn lines_of(alloc: Global, page: &str) -> Result<Vec<String>, AllocError> {
    let mut lines = Vec::new(alloc);
    for line in page.trim_end_matches('\n').split('\n') {
        lines.push(String::from_str(alloc, line)?)?;
    }
    Ok(lines)
}

/// The page of help of each program.
pub fn pages_of_help(alloc: Global) -> io::Result<Named<Vec<String>>> {
    let register = lines_of(alloc, printed(alloc, &register_arguments::HELP)?.as_str())?;
    let sheet = lines_of(alloc, printed(alloc, &sheet_arguments::HELP)?.as_str())?;
    let pages = [
        (register_arguments::NAME, register),
        (sheet_arguments::NAME, sheet),
    ];
    Ok(Named(Vec::from_array(alloc, pages)?))
}
