//! The fields of a record by what they hold.

ghost use Rattle.std.specs.Prelude.{◌≡◌, Err, IfSome, IsTrue, MatchOption, None, Ok, Some, true};
ghost use Rattle.std.specs.Str.{is_utf8};
ghost use Rattle.csv.specs.Records.{fields_of};
ghost use Rattle.register_records.specs.Records.{texts_of};

use crate::entries::{CALENDAR_LIMIT, DATE_LIMIT, ID_LIMIT, NOTE_LIMIT};
use crate::setups::Form;
use csv::ByteRecord;
use date_texts::Refusal;
use std::str;

/// Whether a field is UTF-8.
fn is_text(field: &[u8]) -> bool
    ensures { result ≡ is_utf8 field.now }
{
    str::from_utf8(field).is_ok()
}

/// The fields of a record. The note is empty where the form has none.
#[derive(Drop)]
pub(crate) struct RecordFields<'a> {
    pub(crate) id: &'a [u8],
    pub(crate) calendar: &'a [u8],
    pub(crate) date: &'a [u8],
    pub(crate) note: &'a [u8],
}

impl<'a> RecordFields<'a> {
    ghost use Rattle.register_records.specs.Entries.{are_fit, are_utf8, body_of_texts, may_hold};
    ghost use Rattle.register_records.specs.private.Seen.{fields_seen};
    ghost use Rattle.register_records.specs.declared.entries.Body.TheVariants as body;

    /// The fields of a record that has as many as the form wants.
    #[tactic(auto, using(crate::proofs::FieldLemmas::field_steps))]
    pub(crate) fn of(csv_record: &'a ByteRecord, form: Form) -> Option<RecordFields<'a>>
        ensures { MatchOption result (texts_of form (fields_of csv_record.now) ≡ None)
            (λ c. texts_of form (fields_of csv_record.now) ≡ Some (fields_seen c)) }
    {
        if csv_record.len() != form.field_count() {
            return None;
        }
        let note = match form {
            Form::Plain => b"".as_slice(),
            Form::Sealed => csv_record.get(3)?,
        };
        Some(RecordFields {
            id: csv_record.get(0)?,
            calendar: csv_record.get(1)?,
            date: csv_record.get(2)?,
            note,
        })
    }

    /// Whether all are UTF-8. Those of a plain record, which are ASCII, are not looked at.
    #[inline(always)]
    fn are_texts(&self, plain: bool) -> bool
        requires { plain ≡ true → are_utf8 (fields_seen self.now) ≡ true }
        ensures { result ≡ are_utf8 (fields_seen self.now) }
    {
        plain
            || is_text(self.id)
                && is_text(self.calendar)
                && is_text(self.date)
                && is_text(self.note)
    }

    /// The first refusal that applies before a calendar is looked for, of fields that may be known to be plain.
    #[inline(always)]
    pub(crate) fn refusal(&self, plain: bool) -> Option<Refusal>
        requires { plain ≡ true → are_utf8 (fields_seen self.now) ≡ true }
        ensures value { MatchOption result (are_fit (Ok (fields_seen self.now)) ≡ true)
            (λ r. body_of_texts (fields_seen self.now) ≡ Err r) }
        ensures held { IfSome result (λ r. IsTrue (may_hold (body.Refused r))) }
    {
        if self.id.len() > ID_LIMIT
            || self.calendar.len() > CALENDAR_LIMIT
            || self.date.len() > DATE_LIMIT
            || self.note.len() > NOTE_LIMIT
        {
            return Some(Refusal::FieldTooLong);
        }
        if !self.are_texts(plain) {
            return Some(Refusal::NotUtf8);
        }
        None
    }
}
