//! One source, on the caller's thread.

ghost use Rattle.std.specs.Prelude.{◌≡◌, ◌≢◌, ◌≤◌, [], false, length, true, IfErr, OnOk};
ghost use Rattle.register_records.specs.Entries.{HasNoHeader, HasTooMany, IsNotSealed, record_limit};
ghost use Rattle.std.specs.Prelude.{IfSome};
ghost use Rattle.register_records.specs.Sources.{ArePartOfTable, Gains, IfBroken, IfWhole, IsFrontOfTable};
ghost use Rattle.register_records.specs.Sources.{IsTableOfAll, IsWholeTable};
ghost use Rattle.register_records.specs.private.SourceTables.{HasWhole, IsBroken, IsNewTable};
ghost use Rattle.register_records.specs.declared.setups.Form.TheVariants.{Sealed};
ghost use Rattle.register_records.specs.Views.{given_of, layout_of, reader_failed, reading_of, reads_by, text_of};

use crate::ends::{Cause, SourceEnd};
use crate::outputs::Output;
use crate::reading::EntryReader;
use crate::rows::Row;
use crate::setups::Setup;
use crate::tables::Table;
use std::alloc::Global;
use std::io::Read;

/// Writes to an output the table of the text that a reader gives: the heading once the header was
/// accepted, and then the row of each record as soon as it was read. Each row is one line, made whole,
/// offered and flushed. The conversion stops at the first fault, and what was written before it stays.
///
/// Returns `Whole` where the whole table was written, and else `Broken` with the cause of the fault, which is never
/// `NoThread` or `Unconfirmed`.
///
/// # Examples
///
/// ```
/// let setup = Setup::new(&[Target::Date(Calendar::Julian)], 16, b',', 1, Form::Plain)?;
/// let text = b"id,calendar,date\na,gregorian,1752-09-14\n";
/// let mut output = PlainOutput::new(Vec::new(rt.alloc()), 1);
/// let end = convert_source(rt.alloc(), text.as_slice(), &mut output, &setup);
/// let table = output.into_inner();
/// assert!(rt; end.is_whole() && table.ends_with(b",639797,Thursday,1752-09-03,\n"));
/// ```
#[tactic(auto, using(crate::proofs::TableLemmas::ends_so, crate::proofs::TableLemmas::unbroken))]
pub fn convert_source<R: Read + Drop, W: Output>(
    alloc: Global,
    reader: R,
    output: &mut W,
    setup: &Setup,
) -> SourceEnd
    // The output has gained the table, and nothing else. The text is accepted and the table is its own; where the
    // reader's bytes are not known, they are some that would be accepted.
    ensures whole { IfWhole result (λ rows refused journal. ∥ Gains (W.contents output.old) (W.contents output.new)
        (IsWholeTable (reading_of setup.now) (layout_of setup.now) (R.remaining reader) rows refused journal) ∥₁) }
    ensures numbers { IfWhole result (λ rows refused journal.
        (rows ≤ record_limit) × (refused ≤ rows) × (refused ≡ length journal)) }
    ensures flushed { IfWhole result (λ rows refused journal. W.is_flushed output.new ≡ true) }

    // A source that is broken otherwise than by its output leaves a front of the table, or nothing.
    ensures part { IfBroken result (λ c. (c ≢ Cause.SinkFault) → ∥ Gains (W.contents output.old) (W.contents output.new)
        (ArePartOfTable (reading_of setup.now) (layout_of setup.now) (R.remaining reader)) ∥₁) }
    ensures bad_header { IfBroken result (λ c. c ≡ Cause.BadHeader → (output.new ≡ output.old)
        × IfSome (R.remaining reader) (λ text. HasNoHeader (reading_of setup.now) text)) }
    // All the records that a source may have were converted, and there are more.
    ensures too_many { IfBroken result (λ c. c ≡ Cause.TooManyRecords
        → ∥ IfSome (R.remaining reader) (λ text. HasTooMany (reading_of setup.now) text) ∥₁
        × ∥ Gains (W.contents output.old) (W.contents output.new)
        (IsFrontOfTable (reading_of setup.now) (layout_of setup.now) (R.remaining reader) record_limit) ∥₁) }
    // The text is sealed, but its seal is missing or does not agree, or a record follows it. All the records above the
    // seal were converted.
    ensures not_sealed { IfBroken result (λ c. c ≡ Cause.NotSealed → (setup.now.form ≡ Sealed)
        × ∥ IfSome (R.remaining reader) (λ text. IsNotSealed (reading_of setup.now) text) ∥₁
        × ∥ Gains (W.contents output.old) (W.contents output.new)
        (IsTableOfAll (reading_of setup.now) (layout_of setup.now) (R.remaining reader)) ∥₁) }
    ensures never { IfBroken result (λ c. (c ≢ Cause.NoThread) × (c ≢ Cause.Unconfirmed)) }

    // The output has failed exactly where it had failed before or is the cause.
    ensures sink { IfBroken result (λ c. c ≡ Cause.SinkFault → W.has_failed output.new ≡ true) }
    ensures kept { IfBroken result (λ c. (c ≢ Cause.SinkFault) → W.has_failed output.new ≡ W.has_failed output.old) }
    ensures good { IfWhole result (λ rows refused journal. W.has_failed output.new ≡ W.has_failed output.old) }
    ensures mark { W.own_mark output.new ≡ W.own_mark output.old }
{
    let mut entries = match EntryReader::open(alloc, reader, setup) {
        Ok(entries) => entries,
        Err(fault) => return SourceEnd::from(fault),
    };
    let mut table = Table::new(alloc, output, setup);
    if let Err(cause) = write_table(&mut entries, &mut table, output, setup) {
        return SourceEnd::Broken { cause };
    }
    table.end()
}

/// Writes a new table: the heading, and then the row of each entry as soon as it was read.
///
/// # Errors
///
/// The cause of the first fault, at which it stops.
fn write_table<R: Read + Drop, W: Output>(
    entries: &mut EntryReader<R>,
    table: &mut Table<W>,
    output: &mut W,
    setup: &Setup,
) -> Result<(), Cause>
    requires none_given { given_of entries.old ≡ [] }
    requires goes { reader_failed entries.old ≡ false }
    requires reads { reads_by entries.old ≡ reading_of setup.now }
    requires new { IsNewTable W.Output setup.now table.old output.old }
    ensures whole { OnOk result
        (HasWhole W.Output setup.now (text_of entries.old) output.old output.new table.new) }
    ensures broken { IfErr result (IsBroken W.Output setup.now (text_of entries.old) output.old output.new) }
{
    table.write_heading(output);
    if let Some(cause) = table.fault() {
        return Err(cause);
    }
    let mut row = Row::blank();
    'entries: while row.read_next(entries, setup)? {
        table.put_next(output, &row)?;
    }
    Ok(())
}
