//! The entries of a text, in order.

ghost use Rattle.std.specs.Prelude.{◌≡◌, ◌≢◌, ◌+◌, ◌≤◌, [], true, false, length, OnOk, IfOk, IfErr, IfSome, Ok, Err};
ghost use Rattle.std.specs.Prelude.{Option};
ghost use Rattle.csv.specs.Reading.{error_kind, has_failed, stops_reader};
ghost use Rattle.csv.specs.Records.{fields_of};
ghost use Rattle.register_records.specs.Entries.{HasFirstEntries, HaveOneDate, body_seen, record_limit};
ghost use Rattle.register_records.specs.ReadingState.{IsLive};
ghost use Rattle.register_records.specs.private.ReadingState.{EndsBehind, HasBegun, IsOfReading, ReadsEntry};
ghost use Rattle.register_records.specs.ReadingState.{reading_by, records_left};
ghost use Rattle.register_records.specs.private.ReadingState.{Reads, HasRead, fault_of};
ghost use Rattle.register_records.specs.private.Retrying.{inner_remaining};
ghost use Rattle.register_records.specs.Seals.{is_seal as is_seal_record};
ghost use Rattle.register_records.specs.declared.reading.ReaderState.{ReaderState};

use crate::entries::{Entry, MAX_RECORDS};
use crate::entry_logs::EntryLog;
use crate::header::is_header;
use crate::retrying::Retrying;
use crate::seals::{agrees, is_seal};
use crate::setups::{Form, Setup};
use csv::{ByteRecord, Error, ErrorKind, Reader, ReaderBuilder};
use std::alloc::Global;
use std::io::Read;
use std::snapshot::Snapshot;
use thiserror::Error as ErrorMessage;

/// Why reading entries stopped.
#[derive(Clone, Copy, PartialEq, Eq, Debug, ErrorMessage)]
pub enum EntryFault {
    /// Memory ran out.
    #[error("out of memory")]
    OutOfMemory,
    /// The reader returned a fault.
    #[error("a fault of reading")]
    ReadFault,
    /// The first record is not the header, or there is no record.
    #[error("the first record is not the header")]
    BadHeader,
    /// The text has more than 1,000,000 entries.
    #[error("more than 1,000,000 records")]
    TooManyRecords,
    /// A sealed text does not end with a seal that agrees.
    #[error("no seal at the end that agrees with the number of records")]
    NotSealed,
    /// An earlier call returned a fault.
    #[error("an earlier call failed")]
    Failed,
}

/// How far a reader of entries has come.
#[derive(Clone, Copy)]
pub(crate) enum ReaderState {
    /// Entries may be left.
    Open,
    /// A call found that no entry is left.
    Ended,
    /// A call returned a fault.
    Failed,
}

/// The entries of a text, in order, each read when it is asked for.
///
/// # Examples
///
/// ```
/// let setup = Setup::new(&[], 16, b',', 1, Form::Plain)?;
/// let text = b"id,calendar,date\na,gregorian,1945-11-12\n";
/// let mut entries = EntryReader::open(rt.alloc(), text.as_slice(), &setup)?;
/// let mut entry = Entry::blank();
/// assert!(rt; entries.read_next(&mut entry)?);
/// assert_eq!(rt; entry.number(), 1);
/// assert!(rt; !entries.read_next(&mut entry)?);
/// ```
#[derive(Drop)]
pub struct EntryReader<R: Read> {
    records: Reader<Retrying<R>>,
    record: ByteRecord,
    delimiter: u8,
    form: Form,
    state: ReaderState,
    // How many entries were given, and whether the last has the calendar and the date of what lay in its place.
    count: u32,
    pub(crate) same_date: bool,
    // For clauses alone: the reader underneath as it was, and the entries given.
    source: Snapshot<R>,
    given: EntryLog,
    ghost live: { state ≢ ReaderState.Failed → HasBegun records },
    ghost counted: { length given ≡ count },
    ghost few: { count ≤ record_limit },
    ghost has_read: { ∥ HasRead (reading_by delimiter form) (R.remaining source.value) state
        (records_left (inner_remaining R.remaining) records) given ∥₁ },
    // The entries given are the first of the text, and where the bytes of the reader are not known, those of some
    // records.
    pub ghost first: { ∥ HasFirstEntries (reading_by delimiter form) (R.remaining source.value) given ∥₁ },
}

/// What an error of csv's reader that stops it means.
fn fault_of_error(e: &Error) -> EntryFault
    requires { stops_reader (error_kind e.now) ≡ true }
    ensures { result ≡ fault_of (error_kind e.now) }
{
    match e.kind() {
        ErrorKind::Io(_) => EntryFault::ReadFault,
        ErrorKind::OutOfMemory => EntryFault::OutOfMemory,
        _ => unreachable!(),
    }
}

/// Reads the next record, and says whether there was one.
fn read_record<R: Read>(
    records: &mut Reader<Retrying<R>>,
    csv_record: &mut ByteRecord,
) -> Result<bool, EntryFault>
    requires { IsLive records.old }
    ensures reads { IfOk result (λ found. Reads (records_left (inner_remaining R.remaining) records.old)
        (records_left (inner_remaining R.remaining) records.new) found (fields_of csv_record.new)) }
    ensures live { OnOk result (HasBegun records.new) }
    ensures fault { IfErr result IsOfReading }
    ensures read_fault { IfErr result (λ e. e ≡ EntryFault.ReadFault → has_failed records.new ≡ true) }
{
    match records.read_byte_record(csv_record) {
        Ok(found) => Ok(found),
        Err(e) => Err(fault_of_error(&e)),
    }
}

/// Finds that a seal agrees with so many entries and that no record follows it, and returns `false`, since there is no
/// entry. It asks for one more record.
///
/// # Errors
///
/// `NotSealed` where it does not agree or one follows, and the faults of reading.
#[tactic(auto, using(crate::proofs::StepLemmas::read_steps))]
fn read_behind_seal<R: Read>(
    records: &mut Reader<Retrying<R>>,
    csv_record: &mut ByteRecord,
    count: u32,
) -> Result<bool, EntryFault>
    requires live { HasBegun records.old }
    requires seal { is_seal_record (fields_of csv_record.old) ≡ true }
    ensures { EndsBehind (inner_remaining R.remaining) count (fields_of csv_record.old) records.old records.new result }
{
    let agrees = agrees(csv_record, count);
    match read_record(records, csv_record) {
        Ok(more) if more || !agrees => Err(EntryFault::NotSealed),
        Ok(_) => Ok(false),
        Err(fault) => Err(fault),
    }
}

/// Reads the entry after so many into `entry`, and finds whether its calendar and its date are those of what lay there.
/// Returns `false` where the records end as the form wants it. After a seal it asks for one more record. Where no entry
/// was read, `entry` stays as it was.
#[inline(always)]
#[tactic(auto, using(crate::proofs::StepLemmas::read_steps))]
fn read_entry<R: Read>(
    records: &mut Reader<Retrying<R>>,
    csv_record: &mut ByteRecord,
    form: Form,
    count: u32,
    entry: &mut Entry,
    same_date: &mut bool,
) -> Result<bool, EntryFault>
    requires live { HasBegun records.old }
    requires few { count ≤ record_limit }
    ensures { ReadsEntry (inner_remaining R.remaining) form count records.old records.new entry.old entry.new
        same_date.new result }
{
    match read_record(records, csv_record) {
        Ok(true) => (),
        Ok(false) => {
            return match form {
                Form::Plain => Ok(false),
                Form::Sealed => Err(EntryFault::NotSealed),
            };
        }
        Err(fault) => return Err(fault),
    }
    if form == Form::Sealed && is_seal(csv_record) {
        return read_behind_seal(records, csv_record, count);
    }
    if count >= MAX_RECORDS {
        return Err(EntryFault::TooManyRecords);
    }
    *same_date = entry.set(count + 1, csv_record, form);
    Ok(true)
}

impl<R: Read + Drop> EntryReader<R> {
    ghost use Rattle.register_records.specs.Entries.{HasNoHeader};
    ghost use Rattle.register_records.specs.NextEntries.{ReadsNext, ReturnsNext};
    ghost use Rattle.register_records.specs.Views.{given_of, reader_ended, reader_failed, reading_of, reads_by, text_of};
    ghost use Rattle.register_records.specs.declared.reading.EntryFault.TheVariants.{Failed, NotSealed, TooManyRecords};

    /// Reads the header of a text: a first record of three fields that are `id`, `calendar` and `date`,
    /// and under a sealed form a fourth that is `note`, once spaces and tabs round them are taken off, in
    /// either letter case. A byte order mark before the first name is passed over.
    ///
    /// # Errors
    ///
    /// `BadHeader` where the first record is another or there is none, `ReadFault` where the reader
    /// returned a fault, and `OutOfMemory`. The reader is dropped with each.
    pub fn open(alloc: Global, reader: R, setup: &Setup) -> Result<EntryReader<R>, EntryFault>
        // It reads the text of the reader, where that is known, and no entry was given yet.
        ensures text { IfOk result (λ r. (text_of r ≡ R.remaining reader) × (reads_by r ≡ reading_of setup.now)) }
        ensures none_given { IfOk result (λ r. given_of r ≡ []) }
        ensures goes { IfOk result (λ r. (reader_failed r ≡ false) × (reader_ended r ≡ false)) }
        ensures bad { IfErr result (λ e. e ≡ EntryFault.BadHeader
            → IfSome (R.remaining reader) (λ text. HasNoHeader (reading_of setup.now) text)) }
        ensures never { IfErr result (λ e. (e ≢ TooManyRecords) × (e ≢ Failed) × (e ≢ NotSealed)) }
    {
        let source = Snapshot::of(&reader);
        let patient = Retrying::new(reader);
        let mut records = ReaderBuilder::new()
            .delimiter(setup.delimiter())
            .has_headers(false)
            .flexible(true)
            .from_reader(alloc, patient);
        let mut record = ByteRecord::new(alloc);
        let found = read_record(&mut records, &mut record)?;
        if !found || !is_header(&record, setup.form()) {
            return Err(EntryFault::BadHeader);
        }
        Ok(EntryReader {
            records,
            record,
            delimiter: setup.delimiter(),
            form: setup.form(),
            state: ReaderState::Open,
            count: 0,
            same_date: false,
            source,
            given: EntryLog::new(),
        })
    }

    /// Reads the next entry into `entry`, where the one before it may lie, and says whether there was one. At the end
    /// of the text, and again after it, there is none. Where none was read, `entry` stays as it was.
    ///
    /// # Errors
    ///
    /// `ReadFault` where the reader returned a fault, `TooManyRecords` where 1,000,000 entries were
    /// given and one more record that is no seal stands in the text, `NotSealed` where a sealed text
    /// ends without a seal, its first seal does not agree with the number of entries, or a record
    /// follows it, and `OutOfMemory`. After a fault each further call returns `Failed` and reads nothing.
    #[tactic(auto, using(crate::proofs::GivenLemmas::given_steps))]
    pub fn read_next(&mut self, entry: &mut Entry) -> Result<bool, EntryFault>
        // What was given, and what each fault says of the text.
        ensures reads { ReadsNext self.old self.new entry.new result }

        // None was read: the entry stays, and at the end nothing changes any more.
        ensures same { result ≢ Ok true → entry.new ≡ entry.old }
        ensures ended { reader_ended self.old ≡ true → (result ≡ Ok false) × (self.new ≡ self.old) }
        ensures failed { reader_failed self.old ≡ true → (result ≡ Err EntryFault.Failed) × (self.new ≡ self.old) }
        ensures read_fault { IfErr result (λ e. e ≡ EntryFault.ReadFault → has_failed self.new.records ≡ true) }

        // A second entry on a day is known by its texts.
        ensures same_date { result ≡ Ok true → self.new.same_date ≡ true
            → HaveOneDate (body_seen entry.old.body) (body_seen entry.new.body) }
    {
        match self.state {
            ReaderState::Open => (),
            ReaderState::Ended => return Ok(false),
            ReaderState::Failed => return Err(EntryFault::Failed),
        }
        let found = read_entry(
            &mut self.records,
            &mut self.record,
            self.form,
            self.count,
            entry,
            &mut self.same_date,
        );
        match found {
            Ok(true) => {
                self.count += 1;
                self.given.push(entry);
            }
            Ok(false) => self.state = ReaderState::Ended,
            Err(_) => self.state = ReaderState::Failed,
        }
        found
    }

    /// The next entry, or `None` at the end of the text, and again after it: `read_next` into an entry of its own.
    ///
    /// # Errors
    ///
    /// Those of `read_next`.
    pub fn next(&mut self) -> Result<Option<Entry>, EntryFault>
        ensures reads { ReturnsNext self.old self.new result }
        ensures ended { reader_ended self.old ≡ true → (result ≡ Ok None) × (self.new ≡ self.old) }
        ensures failed { reader_failed self.old ≡ true → (result ≡ Err EntryFault.Failed) × (self.new ≡ self.old) }
        ensures read_fault { IfErr result (λ e. e ≡ EntryFault.ReadFault → has_failed self.new.records ≡ true) }
    {
        let mut entry = Entry::blank();
        match self.read_next(&mut entry) {
            Ok(true) => Ok(Some(entry)),
            Ok(false) => Ok(None),
            Err(fault) => Err(fault),
        }
    }
}
