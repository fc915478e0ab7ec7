//! What is printed for a text.

use date_spans::{Kind, Marks, Sense, write_edtf, write_span};
use date_texts::{Calendar, Target, calendar_named, cell, day_of_date, read_date};
use day_numbers::Day;
use std::alloc::{AllocError, Global};
use written_dates::{Choice, Names, Order, Short};

/// The choice with an order, by its first letter.
fn choice_of(order: &str) -> Choice {
    let order = match order {
        "y" => Order::YearFirst,
        "m" => Order::MonthFirst,
        _ => Order::DayFirst,
    };
    Choice {
        order,
        short_years: Short::Refuse,
        short_hebrew_years: Short::Refuse,
        short_other_years: Short::Refuse,
        charters: false,
    }
}

/// The day of a date text, if it is accepted.
fn day_of(calendar: Option<Calendar>, text: &[u8]) -> Option<Day> {
    let text = match std::str::from_utf8(text) {
        Ok(text) => text,
        Err(_) => return None,
    };
    match read_date(calendar?, text) {
        Ok(date) => match day_of_date(&date) {
            Ok(day) => Some(day),
            Err(_) => None,
        },
        Err(_) => None,
    }
}

/// The words of marks, with a blank between them.
fn push_marks(out: &mut String, marks: Marks) -> Result<(), AllocError> {
    let kind = match marks.kind {
        Kind::Between => "between",
        Kind::Before => "before",
        Kind::After => "after",
        Kind::From => "from",
        Kind::Until => "to",
        Kind::Undated => "undated",
        Kind::Unread => "unread",
        Kind::One | Kind::Range => "",
    };
    let mut before = "";
    for (holds, word) in &[
        (!kind.is_empty(), kind),
        (marks.about, "about"),
        (marks.uncertain, "uncertain"),
        (marks.inferred, "inferred"),
    ] {
        if *holds {
            out.push_str(before)?;
            out.push_str(*word)?;
            before = " ";
        }
    }
    Ok(())
}

/// The Gregorian date of a day, or nothing.
fn push_day(out: &mut String, day: Option<Day>) -> Result<(), AllocError> {
    match day {
        Some(day) => out.push_str(cell(Target::Date(Calendar::Gregorian), day).as_str()),
        None => Ok(()),
    }
}

/// Bytes that are text.
fn push_bytes(out: &mut String, bytes: &[u8]) -> Result<(), AllocError> {
    match std::str::from_utf8(bytes) {
        Ok(text) => out.push_str(text),
        Err(_) => Ok(()),
    }
}

/// The text of EDTF, where each end is a day or open.
fn push_edtf(
    alloc: Global,
    out: &mut String,
    first: (bool, Option<Day>),
    last: (bool, Option<Day>),
    marks: Marks,
) -> Result<(), AllocError> {
    if (first.0 && first.1.is_none()) || (last.0 && last.1.is_none()) {
        return Ok(());
    }
    let sense = Sense {
        one_of: marks.kind != Kind::Range,
        about: marks.about,
        uncertain: marks.uncertain,
    };
    let mut text = Vec::new(alloc);
    write_edtf(&mut text, first.1, last.1, sense)?;
    push_bytes(out, text.as_slice())
}

/// The line for a question.
pub fn answer_of(alloc: Global, names: &Names, line: &str) -> Result<String, AllocError> {
    let mut fields = line.splitn(3, '|');
    let calendar = calendar_named(fields.next().unwrap_or(""));
    let choice = choice_of(fields.next().unwrap_or(""));
    let text = fields.next().unwrap_or("");
    let mut first = Vec::new(alloc);
    let mut last = Vec::new(alloc);
    let marks = write_span(
        &mut first,
        &mut last,
        text.as_bytes(),
        calendar,
        names,
        &choice,
    )?;
    let first_day = day_of(calendar, first.as_slice());
    let last_day = day_of(calendar, last.as_slice());
    let mut out = String::new(alloc);
    push_bytes(&mut out, first.as_slice())?;
    out.push('|')?;
    push_bytes(&mut out, last.as_slice())?;
    out.push('|')?;
    push_marks(&mut out, marks)?;
    out.push('|')?;
    push_day(&mut out, first_day)?;
    out.push('|')?;
    push_day(&mut out, last_day)?;
    out.push('|')?;
    push_edtf(
        alloc,
        &mut out,
        (!first.is_empty(), first_day),
        (!last.is_empty(), last_day),
        marks,
    )?;
    Ok(out)
}
