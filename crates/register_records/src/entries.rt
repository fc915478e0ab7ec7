//! An entry, and how it is made of a record.

ghost use Rattle.std.specs.Prelude.{◌≡◌, ◌≤◌, ◌↔◌, ◌∷◌, [], length, IfSome, IsSome, IsTrue, Ok, true, false};
ghost use Rattle.std.specs.List.{list_all};
ghost use Rattle.std.specs.Str.{is_utf8};
ghost use Rattle.csv.specs.Records.{fields_of, text_of};
ghost use Rattle.register_records.specs.private.BareTexts.{IsPlain, has_plain_texts, is_plain_byte};
ghost use Rattle.register_records.specs.Entries.{HaveOneDate, are_fit, body_of, body_seen, may_hold, record_limit};
ghost use Rattle.register_records.specs.private.Entries.{HasDate};

use crate::record_fields::RecordFields;
use crate::setups::Form;
use arrayvec::ArrayString;
use csv::ByteRecord;
use date_texts::{Refusal, WORD_LEN, are_equal};
use std::str;

/// The most bytes of an id, before anything is trimmed.
pub const ID_LIMIT: usize = 40;

/// The most bytes of a calendar's name, before anything is trimmed.
pub const CALENDAR_LIMIT: usize = 16;

/// The most bytes of a date, before anything is trimmed.
pub const DATE_LIMIT: usize = 32;

/// The most bytes of a note, before anything is trimmed.
pub const NOTE_LIMIT: usize = 80;

/// How many bytes are looked at together.
const CHUNK: usize = 16;

/// The most entries of a source.
pub const MAX_RECORDS: u32 = 1_000_000;

/// What a record holds.
#[derive(Clone, Copy)]
pub enum Body {
    /// The fields of the record, as they stand in it. The note is empty where the form has none.
    Fields {
        id: ArrayString<ID_LIMIT>,
        calendar: ArrayString<CALENDAR_LIMIT>,
        date: ArrayString<DATE_LIMIT>,
        note: ArrayString<NOTE_LIMIT>,
    },
    /// The record was refused before a calendar was looked for: `FieldCount` where it does not have three
    /// fields, or four under a sealed form, else `FieldTooLong` where one is over its limit in bytes,
    /// else `NotUtf8` where one is no UTF-8.
    Refused(Refusal),
}

/// A record of a register with its number, from 1 to 1,000,000; the header and the seal have none.
#[derive(Clone, Copy)]
pub struct Entry {
    number: u32,
    // Whether the texts were looked through, and hold no byte that calls for quotes in any table.
    bare: bool,
    body: Body,
    ghost from_one: { 1 ≤ number },
    pub ghost limited: { number ≤ record_limit },
    ghost held: { IsTrue (may_hold body) },
    pub ghost fit: { are_fit (body_seen body) ≡ true },
    ghost bared: { bare ≡ true → has_plain_texts (body_seen body) ≡ true },
}

impl Entry {
    /// The entry with this number and this body, or `None` exactly where the number is not from 1 to
    /// 1,000,000 or a refused body holds another refusal than `FieldCount`, `FieldTooLong` and
    /// `NotUtf8`.
    pub fn new(number: u32, body: Body) -> Option<Entry>
        ensures made { IsSome result ↔ ((1 ≤ number) × (number ≤ record_limit) × IsTrue (may_hold body)) }
        ensures value { IfSome result (λ e. (e.number ≡ number) × (e.body ≡ body)) }
    {
        if number == 0 || number > MAX_RECORDS || !is_allowed(&body) {
            return None;
        }
        Some(Entry {
            number,
            bare: false,
            body,
        })
    }

    /// The entry with this number of a record with these fields, in a register without seals; or `None` exactly where
    /// the number is not from 1 to 1,000,000.
    #[tactic(auto, using(crate::proofs::FieldLemmas::fit_body))]
    pub fn of_fields(number: u32, id: &[u8], calendar: &[u8], date: &[u8]) -> Option<Entry>
        ensures made { IsSome result ↔ ((1 ≤ number) × (number ≤ record_limit)) }
        ensures value { IfSome result (λ e. (e.number ≡ number)
            × (body_seen e.body ≡ body_of Form.Plain (id.now ∷ calendar.now ∷ date.now ∷ []))) }
    {
        if number == 0 || number > MAX_RECORDS {
            return None;
        }
        Some(Entry {
            number,
            bare: false,
            body: Body::of_fields(id, calendar, date),
        })
    }

    /// An entry before any was read: it has the number 1 and empty texts.
    #[tactic(auto, using(crate::proofs::FieldLemmas::fit_blank))]
    pub fn blank() -> Entry
        ensures number { result.number ≡ 1 }
        ensures texts { body_seen result.body ≡ Ok (record { id = []; calendar = []; date = []; note = [] }) }
    {
        Entry {
            number: 1,
            bare: false,
            body: Body::blank(),
        }
    }

    /// Makes this entry that of a record, where it lies: an entry is large. Returns true only where its calendar and
    /// its date are those of the entry before it.
    #[inline(always)]
    #[tactic(auto, using(crate::proofs::BareLemmas::bare_record, crate::proofs::FieldLemmas::fit_body))]
    pub(crate) fn set(&mut self, number: u32, csv_record: &ByteRecord, form: Form) -> bool
        requires from_one { 1 ≤ number }
        requires limited { number ≤ record_limit }
        ensures value { (self.new.number ≡ number)
            × (body_seen self.new.body ≡ body_of form (fields_of csv_record.now)) }
        ensures same_date { result ≡ true → HaveOneDate (body_seen self.old.body) (body_seen self.new.body) }
    {
        let plain = are_plain_by_chunks(csv_record.as_slice());
        self.number = number;
        self.bare = plain;
        self.body.set(csv_record, form, plain)
    }

    /// The number, from 1 to 1,000,000.
    pub fn number(&self) -> u32
        ensures value { result ≡ self.now.number }
        ensures in_range { (1 ≤ result) × (result ≤ record_limit) }
    {
        self.number
    }

    /// Whether the texts are known to hold no byte that calls for quotes in a table, whatever its delimiter.
    pub(crate) fn is_bare(&self) -> bool
        ensures { result ≡ true → has_plain_texts (body_seen self.now.body) ≡ true }
    {
        self.bare
    }

    /// The body.
    pub fn body(&self) -> &Body
        ensures value { result.now ≡ self.now.body }
        ensures held { IsTrue (may_hold result.now) }
    {
        &self.body
    }
}

/// Whether a byte is a space or a visible character of ASCII, and no delimiter and no quote: it calls for quotes in no
/// table. The code has no branches, so that a chunk of bytes is looked at as one.
fn is_plain(byte: u8) -> bool
    ensures { result ≡ is_plain_byte byte }
{
    (b' ' <= byte) & (byte <= b'~') & (byte != b',') & (byte != b';') & (byte != b'"')
}

/// Whether all bytes of a text are plain. The loop goes on to the end, since one of fixed length is fast.
#[inline(always)]
fn are_plain(text: &[u8]) -> bool
    ensures { result ≡ list_all is_plain_byte text.now }
{
    let mut plain = true;
    'bytes: for byte in text {
        plain &= is_plain(*byte);
    }
    plain
}

/// The same, chunk by chunk: a chunk takes no longer than two bytes alone. The last may overlap the one before it.
#[inline(always)]
#[tactic(auto, using(crate::proofs::BareLemmas::chunk_steps))]
fn are_plain_by_chunks(text: &[u8]) -> bool
    ensures { result ≡ true → IsPlain text.now }
{
    let Some((_, last)) = text.split_last_chunk::<CHUNK>() else {
        return are_plain(text);
    };
    let (front, _) = text.as_chunks::<CHUNK>();
    let mut plain = are_plain(last);
    'chunks: for chunk in front {
        plain &= are_plain(chunk);
    }
    plain
}

/// Whether a text is within its limit, which by its type it is.
#[tactic(auto, using(crate::proofs::FieldLemmas::text_steps))]
fn is_within<const N: usize>(text: &ArrayString<N>) -> bool
    ensures is { result ≡ true }
    ensures fits { length text.now.bytes ≤ N }
    ensures is_text { is_utf8 text.now.bytes ≡ true }
{
    text.as_str().len() <= N
}

/// Whether an entry may have this body.
fn is_allowed(body: &Body) -> bool
    ensures value { result ≡ may_hold body.now }
    ensures fit { result ≡ true → are_fit (body_seen body.now) ≡ true }
{
    match body {
        Body::Fields {
            id,
            calendar,
            date,
            note,
        } => is_within(id) && is_within(calendar) && is_within(date) && is_within(note),
        Body::Refused(refusal) => matches!(
            refusal,
            Refusal::FieldCount | Refusal::FieldTooLong | Refusal::NotUtf8
        ),
    }
}

/// Whether two texts of one length are one, byte by byte. An entry whose texts are lent to a call, as `==` does, is copied
/// twice into its lane, since LLVM does not know then that the lane is elsewhere.
#[inline(always)]
fn have_same_bytes(text: &[u8], other: &[u8]) -> bool
    requires { length text.now ≡ length other.now }
    ensures { (result ≡ true) ↔ (text.now ≡ other.now) }
{
    'bytes: for i in 0..text.len() {
        if text[i] != other[i] {
            return false;
        }
    }
    true
}

/// Whether a text is that of a field. Texts of one word or two are compared by words.
#[inline(always)]
fn is_same<const N: usize>(text: &ArrayString<N>, field: &[u8]) -> bool
    ensures { (result ≡ true) ↔ (text.now.bytes ≡ field.now) }
{
    let bytes = text.as_str().as_bytes();
    if bytes.len() != field.len() {
        return false;
    }
    if bytes.len() < WORD_LEN || bytes.len() > 2 * WORD_LEN {
        return have_same_bytes(bytes, field);
    }
    are_equal(bytes, field)
}

/// Whether a calendar's name and a date are these. The length of the name is compared first: it differs in most registers
/// of many calendars.
#[inline(always)]
fn have_date(
    calendar: &ArrayString<CALENDAR_LIMIT>,
    date: &ArrayString<DATE_LIMIT>,
    name: &[u8],
    text: &[u8],
) -> bool
    ensures { result ≡ true → (calendar.now.bytes ≡ name.now) × (date.now.bytes ≡ text.now) }
{
    calendar.len() == name.len() && is_same(date, text) && is_same(calendar, name)
}

/// Copies a field, which is UTF-8, to a text.
#[inline(always)]
#[tactic(auto, using(crate::proofs::FieldLemmas::text_steps))]
fn copy_text<const N: usize>(copy: &mut ArrayString<N>, field: &[u8])
    requires fits { length field.now ≤ N }
    requires is_text { is_utf8 field.now ≡ true }
    ensures { copy.new.bytes ≡ field.now }
{
    copy.clear();
    copy.push_str(unsafe { str::from_utf8_unchecked(field) });
}

impl Body {
    ghost use Rattle.register_records.specs.private.Seen.{fields_seen};

    /// A body of empty texts.
    fn blank() -> Body
        ensures texts { body_seen result ≡ Ok (record { id = []; calendar = []; date = []; note = [] }) }
        ensures held { IsTrue (may_hold result) }
    {
        Body::Fields {
            id: ArrayString::new(),
            calendar: ArrayString::new(),
            date: ArrayString::new(),
            note: ArrayString::new(),
        }
    }

    /// The body of a record of these fields, in a register without seals.
    #[tactic(auto, using(crate::proofs::FieldLemmas::no_bytes))]
    fn of_fields(id: &[u8], calendar: &[u8], date: &[u8]) -> Body
        ensures value { body_seen result ≡ body_of Form.Plain (id.now ∷ calendar.now ∷ date.now ∷ []) }
        ensures held { IsTrue (may_hold result) }
    {
        let fields = RecordFields {
            id,
            calendar,
            date,
            note: b"",
        };
        if let Some(refusal) = fields.refusal(false) {
            return Body::Refused(refusal);
        }
        let mut body = Body::blank();
        body.set_texts(&fields);
        body
    }

    /// Whether this calendar's name and this date stand in the body.
    #[inline(always)]
    pub(crate) fn has_date(&self, name: &[u8], text: &[u8]) -> bool
        ensures { result ≡ true → HasDate name.now text.now (body_seen self.now) }
    {
        match self {
            Body::Fields { calendar, date, .. } => have_date(calendar, date, name, text),
            Body::Refused(_) => false,
        }
    }

    /// Makes this body that of a record, which may be known to be plain. Returns true only where its calendar and its
    /// date are those of the body before it.
    #[inline(always)]
    fn set(&mut self, csv_record: &ByteRecord, form: Form, plain: bool) -> bool
        requires { plain ≡ true → IsPlain (text_of csv_record.now) }
        ensures value { body_seen self.new ≡ body_of form (fields_of csv_record.now) }
        ensures held { IsTrue (may_hold self.new) }
        ensures same_date { result ≡ true → HaveOneDate (body_seen self.old) (body_seen self.new) }
    {
        let Some(fields) = RecordFields::of(csv_record, form) else {
            *self = Body::Refused(Refusal::FieldCount);
            return false;
        };
        if let Some(refusal) = fields.refusal(plain) {
            *self = Body::Refused(refusal);
            return false;
        }
        self.set_texts(&fields)
    }

    /// Makes this the body of these fields, to which no refusal applies. Returns what [`Body::set`] does.
    #[inline(always)]
    fn set_texts(&mut self, fields: &RecordFields) -> bool
        requires { are_fit (Ok (fields_seen fields.now)) ≡ true }
        ensures value { body_seen self.new ≡ Ok (fields_seen fields.now) }
        ensures held { IsTrue (may_hold self.new) }
        ensures same_date { result ≡ true → HaveOneDate (body_seen self.old) (body_seen self.new) }
    {
        let was_refused = matches!(self, Body::Refused(_));
        if was_refused {
            *self = Body::blank();
        }
        let Body::Fields {
            id,
            calendar,
            date,
            note,
        } = self
        else {
            return false;
        };
        copy_text(id, fields.id);
        note.clear();
        // Most notes are empty: no call.
        if !fields.note.is_empty() {
            copy_text(note, fields.note);
        }
        if have_date(calendar, date, fields.calendar, fields.date) {
            return !was_refused;
        }
        copy_text(calendar, fields.calendar);
        copy_text(date, fields.date);
        false
    }
}
