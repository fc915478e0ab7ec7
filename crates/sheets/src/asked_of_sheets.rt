//! What is asked of a sheet, and the names that it is read by.

ghost use Rattle.std.specs.Prelude.{◌≡◌, IfErr, IfOk, map};
ghost use Rattle.sheets.specs.AskedOfSheets.{HasHeadings, IsChoice, IsChoiceBy, asked_in};
ghost use Rattle.sheets.specs.Headings.{items_of};
ghost use Rattle.sheets.specs.declared.choices.SheetChoice.{SheetChoice as SheetChoiceValue};
ghost use Rattle.written_dates.specs.Fields.{bare_name, entries};

use crate::choices::{
    AskedColumn, ChoiceFault, DateColumn, IdField, SheetChoice, SheetSetup, Spans,
};
use crate::new_headings::headings;
use std::alloc::{AllocError, Global};
use written_dates::{CalendarName, CalendarNames, Choice, Name, Names};

/// What is asked of a sheet. Each field is as in [`SheetChoice`].
#[derive(Drop)]
pub struct AskedOfSheet {
    pub delimiter: u8,
    pub above: u32,
    pub id: IdField,
    pub reading: Choice,
    pub spans: Spans,
    pub dates: Vec<DateColumn>,
    pub columns: Vec<AskedColumn>,
}

impl AskedOfSheet {
    /// What heads the columns that come behind this sheet: for each column of dates, the names of the columns asked and
    /// `refusal`; with spans, those names behind `first`, and again behind `last`, then `edtf` where it is asked, `mark`
    /// and `refusal`; of several columns of dates, each with the name of its own, and a space, before it. A name that
    /// stands in the sheet, or among the new ones before, gets a space and the least number from 2 behind it that makes it
    /// another.
    pub fn headings(&self, alloc: Global, sheet: &[u8]) -> Result<Vec<Vec<u8>>, AllocError>
        ensures { IfOk result (λ made. HasHeadings (asked_in self.now) sheet.now (items_of made.items)) }
    {
        headings(alloc, sheet, self)
    }
}

/// The bytes of texts.
fn slices_of(alloc: Global, texts: &[Vec<u8>]) -> Result<Vec<&[u8]>, AllocError>
    ensures { IfOk result (λ slices. map (λ slice. slice.now) slices.items ≡ items_of texts.now) }
{
    let mut slices = Vec::new(alloc);
    'texts: for text in texts {
        slices.push(text.as_slice())?;
    }
    Ok(slices)
}

/// What is asked of a sheet, with the names and headings of its setup.
// In one struct, since the borrow checker has one reference to what a setup is made of.
#[derive(Drop)]
pub struct AskedByNames<'a> {
    asked: AskedOfSheet,
    names: Names<'a>,
    calendars: CalendarNames<'a>,
    headings: Vec<&'a [u8]>,
}

impl<'a> AskedByNames<'a> {
    /// What is asked of a sheet, by these names and headings.
    pub fn new(
        alloc: Global,
        asked: AskedOfSheet,
        names: &'a [Name<'a>],
        calendars: &'a [CalendarName<'a>],
        headings: &'a [Vec<u8>],
    ) -> Result<AskedByNames<'a>, AllocError>
        ensures asked { IfOk result (λ by. by.asked ≡ asked) }
        ensures names { IfOk result (λ by. by.names.listed.now ≡ names.now) }
        ensures calendars { IfOk result (λ by. entries by.calendars ≡ map bare_name calendars.now) }
        ensures headings { IfOk result (λ by. map (λ heading. heading.now) by.headings.items ≡ items_of headings.now) }
    {
        Ok(AskedByNames {
            asked,
            names: Names::layered(alloc, names)?,
            calendars: CalendarNames::layered(alloc, calendars)?,
            headings: slices_of(alloc, headings)?,
        })
    }

    /// The setup of what is asked.
    ///
    /// # Errors
    ///
    /// Why it is no choice.
    pub fn setup(&'a self) -> Result<SheetSetup<'a>, ChoiceFault>
        ensures choice { IfOk result (λ setup. IsChoiceBy self.now setup.choice × IsChoice setup.choice) }
        ensures none { IfErr result (λ why. (choice : SheetChoiceValue) × IsChoiceBy self.now choice × ¬ (IsChoice choice)) }
    {
        SheetSetup::new(SheetChoice {
            delimiter: self.asked.delimiter,
            above: self.asked.above,
            id: self.asked.id,
            dates: self.asked.dates.as_slice(),
            columns: self.asked.columns.as_slice(),
            spans: self.asked.spans,
            headings: self.headings.as_slice(),
            reading: self.asked.reading,
            names: &self.names,
            calendars: &self.calendars,
        })
    }
}
