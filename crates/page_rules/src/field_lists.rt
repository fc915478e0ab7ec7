//! Lists of fields, as a caller without CSV has them.

ghost use Rattle.std.specs.Prelude.{◌≡◌, ◌∷◌, [], None, IfSome, OnOk, take, drop};
ghost use Rattle.csv.specs.Records.{fields_of};
ghost use Rattle.page_rules.specs.private.FieldViews.{fields_left};
ghost use Rattle.page_rules.specs.Fields.{fields_by};

use csv::ByteRecord;
use std::alloc::AllocError;

/// What is left of a list of fields: their bytes, one behind the other, and the length of each.
#[derive(Clone, Copy)]
pub(crate) struct FieldsLeft<'a> {
    bytes: &'a [u8],
    lengths: &'a [u32],
}

impl<'a> FieldsLeft<'a> {
    /// All of the list. Where the bytes end before the lengths do, the fields that are left are empty.
    pub fn new(bytes: &'a [u8], lengths: &'a [u32]) -> FieldsLeft<'a>
        ensures { fields_left result ≡ fields_by lengths.now bytes.now }
    {
        FieldsLeft { bytes, lengths }
    }

    /// Takes the next field.
    pub fn next(&mut self) -> Option<&'a [u8]>
        ensures next { IfSome result (λ field. fields_left self.old ≡ field.now ∷ fields_left self.new) }
        ensures none { result ≡ None → (fields_left self.old ≡ []) × (self.new ≡ self.old) }
    {
        let (length, lengths) = self.lengths.split_first()?;
        let count = usize::min(*length as usize, self.bytes.len());
        let (field, bytes) = self.bytes.split_at(count);
        self.bytes = bytes;
        self.lengths = lengths;
        Some(field)
    }

    /// Takes the next fields, so many or those that are left, as a record.
    pub fn take_record(&mut self, count: usize, row: &mut ByteRecord) -> Result<(), AllocError>
        ensures fields { OnOk result (fields_of row.new ≡ take count (fields_left self.old)) }
        ensures left { OnOk result (fields_left self.new ≡ drop count (fields_left self.old)) }
    {
        row.clear();
        'fields: for _ in 0..count {
            let Some(field) = self.next() else {
                return Ok(());
            };
            row.push_field(field)?;
        }
        Ok(())
    }
}
