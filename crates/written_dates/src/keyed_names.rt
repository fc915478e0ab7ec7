//! Names of calendars, to be found by their keys.

ghost use Rattle.std.specs.Prelude.{◌≡◌, ◌<◌, ◌+◌, Some, slice_get, length, IfOk};
ghost use Rattle.written_dates.specs.declared.fields.CalendarName.{CalendarName as NameValue};
ghost use Rattle.written_dates.specs.private.Keys.{IsIndexed, place_from, calendar_key};

use crate::fields::CalendarName;
use crate::names::key_of_word;
use std::alloc::{AllocError, Global};

/// Names of calendars: for each key the place of the first that has it, and behind each name that of the next one with
/// its key; where there is none, the number of names.
#[derive(Drop)]
pub(crate) struct KeyedNames<'a> {
    names: Vec<CalendarName<'a>>,
    firsts: Vec<usize>,
    nexts: Vec<usize>,
    ghost keyed: { IsIndexed calendar_key names.items firsts.items nexts.items 0 },
}

/// Where the names of each key begin, and behind each name where the next one of its key stands.
fn places(alloc: Global, names: &[CalendarName]) -> Result<(Vec<usize>, Vec<usize>), AllocError>
    ensures { IfOk result (λ places. IsIndexed calendar_key names.now places.0.items places.1.items 0) }
{
    let mut firsts = vec![in alloc; names.len(); 16384]?;
    let mut nexts = vec![in alloc; 0; names.len()]?;
    let mut place = names.len();
    'names: while place > 0 {
        place -= 1;
        let key = key_of_word(names[place].text);
        nexts[place] = firsts[key];
        firsts[key] = place;
    }
    Ok((firsts, nexts))
}

impl<'a> KeyedNames<'a> {
    /// These names.
    pub fn new(alloc: Global, names: Vec<CalendarName<'a>>) -> Result<KeyedNames<'a>, AllocError>
        ensures { IfOk result (λ keyed. keyed.names.items ≡ names.entry.items) }
    {
        let (firsts, nexts) = places(alloc, names.as_slice())?;
        Ok(KeyedNames {
            names,
            firsts,
            nexts,
        })
    }

    /// The names in order.
    pub fn as_slice(&self) -> &[CalendarName<'a>]
        ensures { result.now ≡ self.now.names.items }
    {
        self.names.as_slice()
    }

    /// The place of the first name that has a key, or the number of names.
    pub fn first_with(&self, key: usize) -> usize
        requires { key < 16384 }
        ensures { result ≡ place_from calendar_key key self.now.names.items 0 }
    {
        self.firsts[key]
    }

    /// The place of the next name that has the same key, or the number of names.
    pub fn next_behind(&self, place: usize) -> usize
        requires { place < length self.now.names.items }
        ensures value { (name : NameValue) → slice_get self.now.names.items place ≡ Some name
            → result ≡ place_from calendar_key (calendar_key name) self.now.names.items (place + 1) }
        ensures behind { place < result }
    {
        self.nexts[place]
    }
}
