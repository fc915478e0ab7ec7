//! The fields of records.

ghost use Rattle.std.specs.Prelude.{◌≡◌, ◌<◌, ◌≤◌, ◌+◌, ◌++◌, ◌^◌, ◌∷◌, [], List, map, length, take, IfErr, IfOk, OnOk};
ghost use Rattle.std.specs.List.{concat};
ghost use Rattle.csv.specs.Records.{fields_of};
ghost use Rattle.register_records.specs.Entries.{Fields, text_records};
ghost use Rattle.sheets.specs.Reading.{IsReading, left_of};
ghost use Rattle.sheets.specs.Sheets.{chosen};
ghost use Rattle.page_rules.specs.Picks.{HasLongField, IsPicked, all_chosen};

use csv::{ByteRecord, Reader};
use sheets::{field_at, read_next, records_of};
use std::alloc::{AllocError, Global};

/// Why no fields are picked.
#[derive(Clone, Copy, PartialEq, Eq, Debug)]
pub enum PickFault {
    /// Memory ran out.
    OutOfMemory,
    /// A field that was to be picked has 4 GiB or more.
    LongField,
}

impl PickFault {
    ghost use Rattle.std.specs.Prelude.{◌≡◌};
    ghost use Rattle.page_rules.specs.Picks.{pick_fault_number};

    /// The number of the fault: 1 for `OutOfMemory` and 2 for `LongField`.
    pub fn number(self) -> u8
        ensures { result ≡ pick_fault_number self }
    {
        match self {
            PickFault::OutOfMemory => 1,
            PickFault::LongField => 2,
        }
    }
}

impl From<AllocError> for PickFault {
    ghost use Rattle.std.specs.Prelude.{◌≡◌};
    ghost use Rattle.page_rules.specs.declared.picking.PickFault.TheVariants.{OutOfMemory};

    ghost from_gives = { λ error fault. fault ≡ OutOfMemory };

    fn from(_error: AllocError) -> Self {
        PickFault::OutOfMemory
    }
}

/// The fields that were picked, in order, and what else the records showed.
#[derive(Drop)]
pub struct Picked {
    /// The bytes of all fields, one behind the other.
    pub bytes: Vec<u8>,
    /// How many of them each field has.
    pub lengths: Vec<u32>,
    /// How many records were read.
    pub records: usize,
    /// The most fields that one of them has.
    pub widest: usize,
}

impl Picked {
    /// Appends a field.
    fn push(&mut self, field: &[u8]) -> Result<(), PickFault>
        ensures bytes { OnOk result (self.new.bytes.items ≡ self.old.bytes.items ++ field.now) }
        ensures lengths { OnOk result (self.new.lengths.items ≡ self.old.lengths.items ++ length field.now ∷ []) }
        ensures long { IfErr result (λ e. e ≡ PickFault.LongField → 2 ^ 32 ≤ length field.now) }
        ensures kept { (self.new.records ≡ self.old.records) × (self.new.widest ≡ self.old.widest) }
    {
        let Ok(length) = u32::try_from(field.len()) else {
            return Err(PickFault::LongField);
        };
        if self.bytes.extend_from_slice(field).is_err() || self.lengths.push(length).is_err() {
            return Err(PickFault::OutOfMemory);
        }
        Ok(())
    }

    /// Appends the fields of a record at these places.
    fn push_chosen(&mut self, record: &ByteRecord, places: &[u32]) -> Result<(), PickFault>
        ensures bytes { OnOk result (self.new.bytes.items
            ≡ self.old.bytes.items ++ concat (chosen places.now (fields_of record.now))) }
        ensures lengths { OnOk result (self.new.lengths.items
            ≡ self.old.lengths.items ++ map length (chosen places.now (fields_of record.now))) }
        ensures long { IfErr result (λ e. e ≡ PickFault.LongField
            → HasLongField (chosen places.now (fields_of record.now))) }
        ensures kept { (self.new.records ≡ self.old.records) × (self.new.widest ≡ self.old.widest) }
    {
        'places: for place in places {
            self.push(field_at(record, *place as usize))?;
        }
        Ok(())
    }

    /// Appends the fields of a record at these places, and counts the record.
    fn add(&mut self, record: &ByteRecord, places: &[u32]) -> Result<(), PickFault>
        requires { self.old.records + 1 < 2 ^ 64 }
        ensures picked { OnOk result ((records : List Fields) → IsPicked places.now self.old records
            → IsPicked places.now self.new (records ++ fields_of record.now ∷ [])) }
        ensures long { IfErr result (λ e. e ≡ PickFault.LongField
            → HasLongField (chosen places.now (fields_of record.now))) }
    {
        self.push_chosen(record, places)?;
        self.records += 1;
        self.widest = usize::max(self.widest, record.len());
        Ok(())
    }

    /// Appends those of each record that is left, of the first so many.
    fn add_records(
        &mut self,
        records: &mut Reader<&[u8]>,
        record: &mut ByteRecord,
        places: &[u32],
        most: usize,
    ) -> Result<(), PickFault>
        requires reading { IsReading records.old }
        requires none { IsPicked places.now self.old [] }
        ensures picked { OnOk result (IsPicked places.now self.new (take most (left_of records.old))) }
        ensures long { IfErr result (λ e. e ≡ PickFault.LongField
            → HasLongField (all_chosen places.now (take most (left_of records.old)))) }
    {
        'records: for _ in 0..most {
            if !read_next(records, record)? {
                return Ok(());
            }
            self.add(record, places)?;
        }
        Ok(())
    }
}

/// The fields at these `places`, from 0, of the first `most` records of a sheet, in order; one that a record has not is
/// empty. `delimiter` stands between two fields.
///
/// # Errors
///
/// `OutOfMemory`, and `LongField` where a picked field has 4 GiB or more.
///
/// # Examples
///
/// ```
/// let sheet = b"Name;Date\n\"Shaw; Anna\";1699-11-30\nLund\n";
/// let picked = pick(rt.alloc(), sheet, b';', &[1, 0], 10)?;
/// assert!(rt; picked.bytes.as_slice() == b"DateName1699-11-30Shaw; AnnaLund".as_slice());
/// assert!(rt; picked.lengths.as_slice() == [4, 4, 10, 10, 0, 4].as_slice());
/// assert!(rt; picked.records == 3 && picked.widest == 2);
/// ```
pub fn pick(
    alloc: Global,
    sheet: &[u8],
    delimiter: u8,
    places: &[u32],
    most: usize,
) -> Result<Picked, PickFault>
    ensures picked { IfOk result (λ picked.
        IsPicked places.now picked (take most (text_records delimiter sheet.now))) }
    ensures long { IfErr result (λ e. e ≡ PickFault.LongField
        → HasLongField (all_chosen places.now (take most (text_records delimiter sheet.now)))) }
{
    let mut records = records_of(alloc, sheet, delimiter);
    let mut record = ByteRecord::new(alloc);
    let mut picked = Picked {
        bytes: Vec::new(alloc),
        lengths: Vec::new(alloc),
        records: 0,
        widest: 0,
    };
    picked.add_records(&mut records, &mut record, places, most)?;
    Ok(picked)
}
