//! What a page calls. A page lends all memory, and reads what a call reports.
#![tactic(auto)]

ghost use Rattle.std.specs.Prelude.{Err, Ok, Result};
ghost use Rattle.page_rules.specs.Conversions.{IsReturned};
ghost use Rattle.page_rules.specs.declared.converting.Converted.{Converted};
ghost use Rattle.page_rules.specs.declared.requests.RequestFault.{RequestFault};
ghost use Rattle.page_module.specs.Reports.{Reports, ReportsEnd};

pub mod choices;
pub mod dates;
pub mod days;
pub mod orders;
pub mod sheet_tables;
pub mod sheet_texts;

use page_rules::{Converted, RequestFault, convert_text};
use register_records::{RefusalCounts, SourceEnd};
use std::alloc::Global;

/// A register, and how it is read.
#[repr(C)]
#[derive(Clone, Copy)]
pub struct RegisterText<'a> {
    pub text: &'a [u8],
    /// What stands between two fields: a comma, a semicolon or a tab.
    pub delimiter: u8,
    /// Whether it has seals.
    pub sealed: bool,
}

/// How a conversion ended. A number that says nothing is 0.
#[repr(C)]
#[derive(Clone, Copy)]
pub struct Report {
    /// 0: the table is whole. 1 to 8: it broke off for the cause of this number. 9 to 11: no such column, a column named
    /// twice, and no such delimiter.
    pub ending: usize,
    /// How many bytes were made. Where they are more than the room, it is as it was.
    pub length: usize,
    /// The rows of a whole table, how many of them are refused, and for what.
    pub rows: usize,
    pub refused: usize,
    pub refused_with: RefusalCounts,
}

/// The report of a conversion.
fn report_of(converted: &Converted) -> Report
    ensures { ReportsEnd result converted.now.end converted.now.length }
{
    let length = converted.length;
    let refused_with = converted.end.refusal_counts();
    match &converted.end {
        SourceEnd::Whole { rows, refused, .. } => Report {
            ending: 0,
            length,
            rows: *rows as usize,
            refused: *refused as usize,
            refused_with,
        },
        SourceEnd::Broken { cause } => Report {
            ending: cause.number() as usize,
            length,
            rows: 0,
            refused: 0,
            refused_with,
        },
    }
}

/// The report of a fault.
fn report_of_fault(fault: RequestFault) -> Report
    ensures { Reports result (Err fault) }
{
    Report {
        ending: 8 + fault.number() as usize,
        length: 0,
        rows: 0,
        refused: 0,
        refused_with: RefusalCounts::none(),
    }
}

/// Converts a register, and puts its table to the front of `room`: [`convert_text`], with a report.
#[unsafe(no_mangle)]
pub extern "C" fn register_convert(
    alloc: Global,
    register: &RegisterText,
    columns: &[u8],
    room: &mut [u8],
    report: &mut Report,
)
    // The report is that of what is returned for what was asked, with the room as that says.
    ensures { (returned : Result Converted RequestFault) × Reports report.new returned
        × IsReturned columns.now register.now.delimiter register.now.sealed register.now.text.now room.old room.new
        returned }
{
    let (delimiter, sealed) = (register.delimiter, register.sealed);
    *report = match convert_text(alloc, register.text, columns, delimiter, sealed, room) {
        Ok(converted) => report_of(&converted),
        Err(fault) => report_of_fault(fault),
    };
}
