//! Lines of fields, as csv's writer would write them.
//!
//! They are made by hand, in memory that is used again: the writer of `csv` can be had back only by consuming it. All
//! of the memory is filled once, so that a byte is put by a store, and a text by a copy.

ghost use Rattle.std.specs.Prelude.{◌≡◌, ◌≤◌, ◌<◌, ◌+◌, ◌++◌, ◌∷◌, [], List, true, false, length, ℕ};
ghost use Rattle.std.specs.Prelude.{◌==◌, IfOk, IsOk, OnOk, if◌then◌else◌, vec_len};
ghost use Rattle.std.specs.Fmt.{decimal};
ghost use Rattle.csv.specs.Writing as Spec;
ghost use Rattle.register_records.specs.LineRoom.{Begins, GainsFields, field_room, writing};
ghost use Rattle.register_records.specs.private.LineRoom.{number_room};
ghost use Rattle.register_records.specs.Lines.{line_text};
ghost use Rattle.register_records.specs.SetupRules.{is_delimiter};
ghost use Rattle.register_records.specs.declared.lines.TheConstants.{QUOTE};

use date_texts::{put_byte, put_bytes, put_decimal};
use std::alloc::{AllocError, Global};

const QUOTE: u8 = b'"';

/// Lines in the making, one behind the other, in memory that serves again. Only its own functions know its bytes. Room for
/// what is put has to be taken before.
#[derive(Drop)]
pub struct LineBuffer {
    // The bytes of the lines, and room behind them.
    bytes: Vec<u8>,
    // How many bytes the lines have.
    len: usize,
    // The byte between two fields.
    delimiter: u8,
    ghost held: { len ≤ vec_len bytes },
}

/// Whether a field with this byte must be quoted.
fn is_special(delimiter: u8, byte: u8) -> bool
    ensures { result ≡ Spec.needs_byte (writing delimiter) byte }
{
    byte == delimiter || byte == QUOTE || byte == b'\r' || byte == b'\n'
}

/// Whether a field must be quoted.
fn needs_quotes(delimiter: u8, field: &[u8]) -> bool
    ensures { result ≡ Spec.needs_quotes (writing delimiter) field.now }
{
    field.iter().any(|b| is_special(delimiter, *b))
}

impl LineBuffer {
    ghost use Rattle.register_records.specs.LineViews.{GrowsBy, line_bytes, line_capacity};

    /// No line yet, and no memory. This byte will stand between two fields.
    pub fn empty(alloc: Global, delimiter: u8) -> LineBuffer
        ensures delimiter { result.delimiter ≡ delimiter }
        ensures none { line_bytes result ≡ [] }
    {
        LineBuffer {
            bytes: Vec::new(alloc),
            len: 0,
            delimiter,
        }
    }

    /// No line yet, in memory for so many bytes. This byte will stand between two fields.
    pub(crate) fn new(alloc: Global, delimiter: u8, room: usize) -> Result<LineBuffer, AllocError>
        ensures delimiter { IfOk result (λ lines. lines.delimiter ≡ delimiter) }
        ensures none { IfOk result (λ lines. line_bytes lines ≡ []) }
        ensures len { IfOk result (λ lines. lines.len ≡ 0) }
        ensures room { IfOk result (λ lines. room ≤ line_capacity lines) }
    {
        let bytes = Vec::from_elem(alloc, 0, room)?;
        Ok(LineBuffer {
            bytes,
            len: 0,
            delimiter,
        })
    }

    /// The byte between two fields.
    pub fn delimiter(&self) -> u8
        ensures { result ≡ self.now.delimiter }
    {
        self.delimiter
    }

    /// The bytes so far.
    pub fn as_slice(&self) -> &[u8]
        ensures { result.now ≡ line_bytes self.now }
    {
        &self.bytes[..self.len]
    }

    /// How many they are.
    pub fn len(&self) -> usize
        ensures { result ≡ length (line_bytes self.now) }
    {
        self.len
    }

    /// Lets the lines go, and keeps their memory.
    pub fn clear(&mut self)
        ensures none { line_bytes self.new ≡ [] }
        ensures kept { self.new.delimiter ≡ self.old.delimiter }
        ensures capacity { line_capacity self.new ≡ line_capacity self.old }
    {
        self.len = 0;
    }

    /// The bytes, in memory of their own.
    pub fn into_bytes(self) -> Vec<u8>
        ensures { result.items ≡ line_bytes self }
    {
        let mut bytes = self.bytes;
        bytes.truncate(self.len);
        bytes
    }

    /// Takes memory for so many bytes more, where there is not enough.
    #[inline(always)]
    pub fn reserve(&mut self, room: usize) -> Result<(), AllocError>
        ensures value { line_bytes self.new ≡ line_bytes self.old }
        ensures kept { self.new.delimiter ≡ self.old.delimiter }
        ensures room { OnOk result (self.new.len + room ≤ line_capacity self.new) }
        ensures capacity { line_capacity self.old ≤ line_capacity self.new }
        ensures roomy { self.old.len + room ≤ line_capacity self.old → IsOk result }
    {
        if room <= self.bytes.len() - self.len {
            return Ok(());
        }
        self.grow(room)
    }

    /// Takes memory for so many bytes more. All that is taken is filled, so that it is not asked for again soon.
    #[cold]
    #[inline(never)]
    fn grow(&mut self, room: usize) -> Result<(), AllocError>
        requires { line_capacity self.old < self.old.len + room }
        ensures value { line_bytes self.new ≡ line_bytes self.old }
        ensures kept { (self.new.delimiter ≡ self.old.delimiter) × (self.new.len ≡ self.old.len) }
        ensures room { OnOk result (self.new.len + room ≤ line_capacity self.new) }
        ensures capacity { line_capacity self.old ≤ line_capacity self.new }
    {
        let Some(end) = self.len.checked_add(room) else {
            return Err(AllocError);
        };
        self.bytes.resize(end, 0)?;
        self.bytes.resize(self.bytes.capacity(), 0)
    }

    /// Begins a line by a field, quoted where it must be.
    #[inline(always)]
    #[tactic(auto, using(crate::proofs::LineLemmas::first_text))]
    pub fn begin_quotable(&mut self, field: &[u8])
        requires room { self.old.len + field_room (length field.now) ≤ line_capacity self.old }
        ensures value { Begins self.old.delimiter (line_bytes self.old) (field.now ∷ []) (line_bytes self.new) }
        ensures grows { GrowsBy (field_room (length field.now)) self.old self.new }
    {
        self.put_quotable(field);
    }

    /// Begins a line by a number in decimal, of which no digit is the delimiter.
    #[inline(always)]
    #[tactic(auto, using(crate::proofs::LineLemmas::only_number))]
    pub(crate) fn begin_by_number(&mut self, number: u32)
        requires separated { is_delimiter self.old.delimiter ≡ true }
        requires small { number ≤ 99_999_999 }
        requires room { self.old.len + number_room ≤ line_capacity self.old }
        ensures value { Begins self.old.delimiter (line_bytes self.old) (decimal number ∷ []) (line_bytes self.new) }
        ensures grows { GrowsBy number_room self.old self.new }
    {
        self.put_number(number);
    }

    /// Appends one more field of a line, quoted where it must be.
    #[inline(always)]
    #[tactic(auto, using(crate::proofs::LineLemmas::one_more))]
    pub fn field(&mut self, field: &[u8])
        requires room { self.old.len + (1 + field_room (length field.now)) ≤ line_capacity self.old }
        ensures value { GainsFields self.old.delimiter (field.now ∷ []) (line_bytes self.old) (line_bytes self.new) }
        ensures grows { GrowsBy (1 + field_room (length field.now)) self.old self.new }
    {
        self.put_byte(self.delimiter);
        self.put_quotable(field);
    }

    /// Appends one more field of a line, which needs no quotes.
    #[inline(always)]
    #[tactic(auto, using(crate::proofs::LineLemmas::one_more, crate::proofs::LineLemmas::plain_text))]
    pub(crate) fn unquoted(&mut self, field: &[u8])
        requires unquoted { Spec.needs_quotes (writing self.old.delimiter) field.now ≡ false }
        requires room { self.old.len + (1 + length field.now) ≤ line_capacity self.old }
        ensures value { GainsFields self.old.delimiter (field.now ∷ []) (line_bytes self.old) (line_bytes self.new) }
        ensures grows { GrowsBy (1 + length field.now) self.old self.new }
    {
        self.put_byte(self.delimiter);
        self.put(field);
    }

    /// Appends fields as they were written elsewhere, each behind the delimiter.
    #[inline(always)]
    #[tactic(auto, using(crate::proofs::LineLemmas::more_fields))]
    pub(crate) fn written(&mut self, bytes: &[u8])
        requires room { self.old.len + length bytes.now ≤ line_capacity self.old }
        ensures value { (fields : List (List ℕ)) → bytes.now ≡ Spec.fields_text (writing self.old.delimiter) fields
            → GainsFields self.old.delimiter fields (line_bytes self.old) (line_bytes self.new) }
        ensures grows { GrowsBy (length bytes.now) self.old self.new }
    {
        self.put(bytes);
    }

    /// Ends a line of two fields or more.
    #[inline(always)]
    #[tactic(auto, using(crate::proofs::LineLemmas::ended))]
    pub(crate) fn end(&mut self)
        requires room { self.old.len < line_capacity self.old }
        ensures value { (before : List ℕ) (fields : List (List ℕ)) → 2 ≤ length fields
            → Begins self.old.delimiter before fields (line_bytes self.old)
            → line_bytes self.new ≡ before ++ line_text self.old.delimiter fields }
        ensures grows { GrowsBy 1 self.old self.new }
    {
        self.put_byte(b'\n');
    }

    /// Ends the line that begins at this place. One that shows no byte, as a line of one empty field, is written as two
    /// quotes.
    #[inline(always)]
    #[tactic(auto, using(crate::proofs::LineLemmas::ended_from))]
    pub fn end_from(&mut self, begun: usize)
        requires room { self.old.len + 3 ≤ line_capacity self.old }
        ensures value { (before : List ℕ) (fields : List (List ℕ)) → length before ≡ begun
            → Begins self.old.delimiter before fields (line_bytes self.old)
            → line_bytes self.new ≡ before ++ line_text self.old.delimiter fields }
        ensures grows { GrowsBy 3 self.old self.new }
    {
        self.quote_blank(begun);
        self.put_byte(b'\n');
    }

    /// Appends two quotes where the line that begins at this place shows no byte.
    #[inline(always)]
    fn quote_blank(&mut self, begun: usize)
        requires { self.old.len + 2 ≤ line_capacity self.old }
        ensures value { line_bytes self.new
            ≡ line_bytes self.old ++ (if self.old.len == begun then QUOTE ∷ QUOTE ∷ [] else []) }
        ensures grows { GrowsBy 2 self.old self.new }
    {
        if self.len == begun {
            self.put_byte(QUOTE);
            self.put_byte(QUOTE);
        }
    }

    /// Appends bytes as they stand.
    #[inline(always)]
    fn put(&mut self, bytes: &[u8])
        requires { self.old.len + length bytes.now ≤ line_capacity self.old }
        ensures value { line_bytes self.new ≡ line_bytes self.old ++ bytes.now }
        ensures len { self.new.len ≡ self.old.len + length bytes.now }
        ensures grows { GrowsBy (length bytes.now) self.old self.new }
    {
        self.len = put_bytes(&mut self.bytes, self.len, bytes);
    }

    /// Appends a number in decimal.
    #[inline(always)]
    #[tactic(auto, using(crate::proofs::LineLemmas::number_length))]
    fn put_number(&mut self, number: u32)
        requires small { number ≤ 99_999_999 }
        requires room { self.old.len + number_room ≤ line_capacity self.old }
        ensures value { line_bytes self.new ≡ line_bytes self.old ++ decimal number }
        ensures grows { GrowsBy number_room self.old self.new }
    {
        self.len = put_decimal(&mut self.bytes, self.len, number);
    }

    /// Appends one byte.
    #[inline(always)]
    fn put_byte(&mut self, byte: u8)
        requires { self.old.len < line_capacity self.old }
        ensures value { line_bytes self.new ≡ line_bytes self.old ++ byte ∷ [] }
        ensures len { self.new.len ≡ self.old.len + 1 }
        ensures grows { GrowsBy 1 self.old self.new }
    {
        self.len = put_byte(&mut self.bytes, self.len, byte);
    }

    /// Appends a byte of a quoted field: a quote is doubled.
    #[tactic(auto, using(crate::proofs::LineLemmas::escape_steps))]
    fn put_escaped(&mut self, byte: u8)
        requires { self.old.len + 2 ≤ line_capacity self.old }
        ensures value { line_bytes self.new
            ≡ line_bytes self.old ++ Spec.escaped (writing self.old.delimiter) (byte ∷ []) }
        ensures grows { GrowsBy 2 self.old self.new }
    {
        if byte == QUOTE {
            self.put_byte(QUOTE);
            self.put_byte(QUOTE);
            return;
        }
        self.put_byte(byte);
    }

    /// Appends a field, quoted where it must be.
    // Not inlined, so that what most fields need stays small.
    #[inline(never)]
    fn put_quotable(&mut self, field: &[u8])
        requires { self.old.len + field_room (length field.now) ≤ line_capacity self.old }
        ensures value { line_bytes self.new
            ≡ line_bytes self.old ++ Spec.field_text (writing self.old.delimiter) field.now }
        ensures grows { GrowsBy (field_room (length field.now)) self.old self.new }
    {
        if !needs_quotes(self.delimiter, field) {
            self.put(field);
            return;
        }
        self.put_byte(QUOTE);
        'bytes: for b in field {
            self.put_escaped(*b);
        }
        self.put_byte(QUOTE);
    }
}
