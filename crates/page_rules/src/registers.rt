//! A register gone over.

ghost use Rattle.std.specs.Prelude.{◌≡◌, ◌≢◌, [], List, Some, IfErr, OnOk, length};
ghost use Rattle.register_records.specs.Entries.{HasAllEntries, HasEntries, HasNoHeader, HasTooMany, IsNotSealed};
ghost use Rattle.register_records.specs.Entries.{Numbered, record_limit};
ghost use Rattle.register_records.specs.Views.{reading_of, targets_of};
ghost use Rattle.register_records.specs.declared.setups.Form.TheVariants.{Sealed};
ghost use Rattle.page_rules.specs.EntryDays.{AreDaysOf, ArePartOf, HasDays};

use crate::entry_days::EntryDay;
use register_records::{Cause, Entry, EntryReader, Row, Setup};
use std::alloc::Global;

/// Goes over the register `text` once, as a conversion by the setup reads it, and puts to `days`, in place of what is
/// there, the day and the calendar of each record, in order. The setup needs no targets.
///
/// # Errors
///
/// The cause for which it broke off: `NoMemory`, `ReadFault`, `BadHeader`, `TooManyRecords` or `NotSealed`. Then `days`
/// has those of the records above.
///
/// # Examples
///
/// ```
/// let setup = Setup::new(&[], 1, b',', 1, Form::Plain)?;
/// let text = b"id,calendar,date\na,iso,0001-W01-1\n";
/// let mut days = Vec::new(rt.alloc());
/// register_days(rt.alloc(), text, &setup, &mut days)?;
/// let (day, calendar) = (3_652_425, 1);
/// let found = [EntryDay { day, calendar }];
/// assert!(rt; days.as_slice() == found.as_slice());
/// ```
pub fn register_days(
    alloc: Global,
    text: &[u8],
    setup: &Setup,
    days: &mut Vec<EntryDay>,
) -> Result<(), Cause>
    // The register is accepted, and these are the days of all its entries.
    ensures whole { OnOk result (∥ HasDays (HasEntries (reading_of setup.now) (Some text.now)) (targets_of setup.now)
        days.new.items ∥₁) }
    // It broke off: they are those of its first entries, or none.
    ensures part { IfErr result (λ c. ∥ ArePartOf (reading_of setup.now) (targets_of setup.now) text.now
        days.new.items ∥₁) }
    ensures bad_header { IfErr result (λ c. c ≡ Cause.BadHeader
        → HasNoHeader (reading_of setup.now) text.now × (days.new.items ≡ [])) }
    // All the records that a register may have were gone over, and there are more.
    ensures too_many { IfErr result (λ c. c ≡ Cause.TooManyRecords
        → ∥ HasTooMany (reading_of setup.now) text.now ∥₁ × (length days.new.items ≡ record_limit)) }
    // The register has seals, but its seal is missing or does not agree, or a record follows it. All the records above
    // the seal were gone over.
    ensures not_sealed { IfErr result (λ c. c ≡ Cause.NotSealed → (setup.now.form ≡ Sealed)
        × ∥ IsNotSealed (reading_of setup.now) text.now ∥₁
        × ∥ HasDays (HasAllEntries (reading_of setup.now) (Some text.now)) (targets_of setup.now) days.new.items ∥₁) }
    ensures never { IfErr result (λ c. (c ≢ Cause.NoThread) × (c ≢ Cause.Unconfirmed) × (c ≢ Cause.SinkFault)) }
{
    days.clear();
    let mut entries = EntryReader::open(alloc, text, setup)?;
    let mut entry = Entry::blank();
    let mut row = Row::blank();
    'entries: while entries.read_next(&mut entry)? {
        row.renew(&entry, setup);
        if days.push(EntryDay::of(&row)).is_err() {
            return Err(Cause::NoMemory);
        }
    }
    Ok(())
}
