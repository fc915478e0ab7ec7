//! The days of the records of a register, for a page.

ghost use Rattle.std.specs.Prelude.{◌≡◌, ◌↔◌, [], IfSome, IsSome, false, true};
ghost use Rattle.page_rules.specs.Requests.{reading_by};
ghost use Rattle.register_records.specs.SetupRules.{is_delimiter};
ghost use Rattle.register_records.specs.Views.{reading_of, targets_of};
ghost use Rattle.page_module.specs.DayReports.{GoesOver, PutsNoDays};
ghost use Rattle.page_module.specs.private.DayReports.{ending_by};

use crate::RegisterText;
use crate::sheet_texts::PutReport;
use page_rules::{RequestFault, put_days, register_days as days_of};
use register_records::{Cause, Form, Setup};
use std::alloc::Global;

/// The setup by which a register is gone over: it needs no targets.
fn setup_by(delimiter: u8, sealed: bool) -> Option<Setup>
    ensures value { IfSome result (λ s. (reading_of s ≡ reading_by delimiter sealed) × (targets_of s ≡ [])) }
    ensures made { IsSome result ↔ (is_delimiter delimiter ≡ true) }
{
    let form = if sealed { Form::Sealed } else { Form::Plain };
    match Setup::new(&[], 1, delimiter, 1, form) {
        Ok(setup) => Some(setup),
        Err(_) => None,
    }
}

/// The number of an ending.
fn ending_of(gone: &Result<(), Cause>) -> usize
    ensures { result ≡ ending_by gone.now }
{
    match gone {
        Ok(()) => 0,
        Err(cause) => cause.number() as usize,
    }
}

/// Goes over a register by a setup, and puts its days into the rooms.
fn go_over(
    alloc: Global,
    text: &[u8],
    setup: &Setup,
    days: &mut [u32],
    calendars: &mut [u8],
) -> PutReport
    requires { targets_of setup.now ≡ [] }
    ensures { GoesOver (reading_of setup.now) text.now (days.old, calendars.old) (days.new, calendars.new) result }
{
    let mut found = Vec::new(alloc);
    let gone = days_of(alloc, text, setup, &mut found);
    PutReport {
        ending: ending_of(&gone),
        length: put_days(found.as_slice(), days, calendars),
    }
}

/// Goes once over a register, as [`register_convert`](crate::register_convert) reads it, and puts the days of its
/// records to the front of `days` and the numbers of their calendars to the front of `calendars`, as
/// [`EntryDay`](page_rules::EntryDay) has them; where one of these has no room for as many, both are as they were. The
/// ending is 1 to 8 where it broke off for the cause of this number, and 11 where there is no such delimiter.
#[unsafe(no_mangle)]
pub extern "C" fn register_days(
    alloc: Global,
    register: &RegisterText,
    days: &mut [u32],
    calendars: &mut [u8],
    report: &mut PutReport,
)
    ensures gone_over { is_delimiter register.now.delimiter ≡ true → GoesOver
        (reading_by register.now.delimiter register.now.sealed) register.now.text.now
        (days.old, calendars.old) (days.new, calendars.new) report.new }
    ensures delimiter { is_delimiter register.now.delimiter ≡ false → (report.new.ending ≡ 11)
        × PutsNoDays (days.old, calendars.old) (days.new, calendars.new) report.new }
{
    *report = match setup_by(register.delimiter, register.sealed) {
        Some(setup) => go_over(alloc, register.text, &setup, days, calendars),
        None => PutReport::none(8 + RequestFault::Delimiter.number() as usize),
    };
}
