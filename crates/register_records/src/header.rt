//! Whether a record is the header.

ghost use Rattle.std.specs.Prelude.{◌≡◌, ◌↔◌, IsTrue};
ghost use Rattle.std.specs.Str.{str_to_ascii_lowercase};
ghost use Rattle.csv.specs.Reading.{strip_bom};
ghost use Rattle.csv.specs.Records.{fields_of};
ghost use Rattle.register_records.specs.Headers.{IsHeader};
ghost use Rattle.date_texts.specs.Names.{IsNamed};

use crate::record_fields::RecordFields;
use crate::setups::Form;
use csv::ByteRecord;
use date_texts::trimmed;

/// Whether a field is this name, spaces and tabs round it and letter case aside.
fn is_named(field: &[u8], name: &[u8]) -> bool
    ensures { IsTrue result ↔ IsNamed field.now (str_to_ascii_lowercase name.now) }
{
    trimmed(field).eq_ignore_ascii_case(name)
}

/// A field without one byte order mark at its start.
#[tactic(auto, using(crate::proofs::FieldLemmas::mark_steps))]
fn without_mark(field: &[u8]) -> &[u8]
    ensures { result.now ≡ strip_bom field.now }
{
    if field.len() >= 3 && field[0] == 0xEF && field[1] == 0xBB && field[2] == 0xBF {
        &field[3..]
    } else {
        field
    }
}

/// Whether a record is the header.
pub(crate) fn is_header(csv_record: &ByteRecord, form: Form) -> bool
    ensures { IsTrue result ↔ IsHeader form (fields_of csv_record.now) }
{
    let Some(fields) = RecordFields::of(csv_record, form) else {
        return false;
    };
    is_named(without_mark(fields.id), b"id")
        && is_named(fields.calendar, b"calendar")
        && is_named(fields.date, b"date")
        && (form == Form::Plain || is_named(fields.note, b"note"))
}
