//! What the fields of calendars mean, remembered from record to record.

ghost use Rattle.std.specs.Prelude.{◌≡◌, All, IfSome};
ghost use Rattle.written_dates.specs.Fields.{calendar_meant, entries};

use std::alloc::Global;
use written_dates::{CalendarMeaning, CalendarNames};

/// How many fields are remembered.
const MAX_MET: usize = 16;

/// A field that was met, and what it means.
#[derive(Drop)]
struct MetField {
    text: Vec<u8>,
    meaning: Option<CalendarMeaning>,
}

/// What fields mean by the names of a list. Most sheets have few calendars, so the last fields that differ are remembered
/// with what they mean: their bytes are compared before the names are looked through.
#[derive(Drop)]
pub(crate) struct MetCalendars<'a> {
    alloc: Global,
    pub names: &'a CalendarNames<'a>,
    met: Vec<MetField>,
    ghost known: { All (λ one. one.meaning ≡ calendar_meant (entries names.now) one.text.items) met.items },
}

impl<'a> MetCalendars<'a> {
    /// No field was met yet.
    pub fn none(alloc: Global, names: &'a CalendarNames<'a>) -> MetCalendars<'a>
        ensures { result.names.now ≡ names.now }
    {
        MetCalendars {
            alloc,
            names,
            met: Vec::new(alloc),
        }
    }

    /// What a field means that is remembered; the inner `None` where it is none of the names.
    fn met(&self, field: &[u8]) -> Option<Option<CalendarMeaning>>
        ensures { IfSome result (λ meaning. meaning ≡ calendar_meant (entries self.now.names.now) field.now) }
    {
        'met: for one in &self.met {
            if one.text.as_slice() == field {
                return Some(one.meaning);
            }
        }
        None
    }

    /// Forgets the fields, where too many are remembered.
    fn make_room(&mut self)
        ensures { self.new.names ≡ self.old.names }
    {
        if self.met.len() >= MAX_MET {
            self.met.clear();
        }
    }

    /// Remembers what a field means, where there is memory.
    fn remember(&mut self, field: &[u8], meaning: Option<CalendarMeaning>)
        requires { meaning ≡ calendar_meant (entries self.old.names.now) field.now }
        ensures { self.new.names ≡ self.old.names }
    {
        let mut text = Vec::new(self.alloc);
        if text.extend_from_slice(field).is_err() {
            return;
        }
        self.make_room();
        let _is_kept = self.met.push(MetField { text, meaning }).is_ok();
    }

    /// What a field means; `None` where it is none of the names.
    pub fn meant(&mut self, field: &[u8]) -> Option<CalendarMeaning>
        ensures meant { result ≡ calendar_meant (entries self.old.names.now) field.now }
        ensures names { self.new.names ≡ self.old.names }
    {
        if let Some(meaning) = self.met(field) {
            return meaning;
        }
        let meaning = self.names.meant(field);
        self.remember(field, meaning);
        meaning
    }
}
