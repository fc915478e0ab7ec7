//! Prints the first and the last day that texts can mean, for check/date-spans and its table, and what days are called
//! in the church year, for check/feast-dates.
//!
//! The lines of standard input up to an empty one are names: a name, what it means as in lists of names, and the
//! calendars in which it does, none for all. Each line behind it is a question. For each a line is printed.
//!
//! A question that begins with `church` has a church behind it, `julian` or `gregorian`, and the fixed number of a day,
//! with a blank between them: the name of the day is printed, or nothing. Any other is a calendar, the order `y`, `d`
//! or `m`, and a text: the first and the last day are printed as date texts of registers, the marks, both days in the
//! Gregorian calendar, and the text of EDTF. Fields are parted by `|`. Short years are refused.
#![tactic(auto)]

mod answers;
mod days;
mod names;

use answers::answer_of;
use days::name_of;
use names::names_in;
use std::io;
use written_dates::Names;

fn main(rt: HostRuntime) -> io::Result<()> {
    let mut lines = Vec::new(rt.alloc());
    for line in rt.lines(rt.alloc()) {
        lines.push(line?)?;
    }
    let listed = names_in(rt.alloc(), lines.as_slice())?;
    let names = Names::layered(rt.alloc(), listed.as_slice())?;
    let mut is_question = false;
    for line in lines.iter() {
        if is_question {
            match line.as_str().strip_prefix("church ") {
                Some(day) => {
                    let name = name_of(day).unwrap_or("");
                    println!(rt; "{name}")?;
                }
                None => {
                    let answer = answer_of(rt.alloc(), &names, line.as_str())?;
                    println!(rt; "{answer}")?;
                }
            }
        }
        is_question = is_question || line.is_empty();
    }
    Ok(())
}
