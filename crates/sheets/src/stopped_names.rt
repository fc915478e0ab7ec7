//! The names that stopped dates, and how many each stopped.

ghost use Rattle.std.specs.Prelude.{◌≡◌, ◌<◌, ◌++◌, ◌∷◌, [], List, Some, IfNone, IfSome, OnOk, false, map};
ghost use Rattle.std.specs.Prelude.{option_to_list, slice_get, true};
ghost use Rattle.std.specs.List.{list_any};
ghost use Rattle.sheets.specs.DateStops.{NameStop as SeenName, name_in};
ghost use Rattle.sheets.specs.UnknownNames.{is_alike as alike, name_seen as count_seen};
ghost use Rattle.sheets.specs.UnknownViews.{if_stop, name_seen};
ghost use Rattle.sheets.specs.private.UnknownViews.{HasNames, HasRoom, named};

use crate::stops::{DateStop, NameStop, is_alike};
use date_texts::Calendar;
use std::alloc::{AllocError, Global};

/// A name that is not known.
#[derive(Drop)]
pub struct UnknownName {
    /// The name, as the first date has it that it stopped.
    pub name: Vec<u8>,
    /// The calendar of the dates in which this word stands; none where it stands for a calendar.
    pub calendar: Option<Calendar>,
    /// How many dates it stopped.
    pub count: u64,
}

/// The names that stopped dates so far.
#[derive(Drop)]
pub(crate) struct StoppedNames {
    /// The first of them, in the order of the first dates that they stopped.
    pub listed: Vec<UnknownName>,
    /// How many dates were stopped by others.
    pub more: u64,
}

/// A name, as what stopped a date.
fn stop_by(name: &UnknownName) -> NameStop<'_>
    ensures { name_seen result ≡ named name.now }
{
    NameStop {
        name: name.name.as_slice(),
        calendar: name.calendar,
    }
}

impl StoppedNames {
    /// The place of the name of a stop among those listed.
    fn place_of(&self, stop: NameStop<'_>) -> Option<usize>
        ensures some { IfSome result (λ place. (name : SeenName)
            × (slice_get (map named self.now.listed.items) place ≡ Some name)
            × (alike name (name_seen stop.entry) ≡ true)) }
        ensures none { IfNone result
            (list_any (λ name. alike name (name_seen stop.entry)) (map named self.now.listed.items) ≡ false) }
    {
        'names: for place in 0..self.listed.len() {
            if is_alike(stop_by(&self.listed[place]), stop) {
                return Some(place);
            }
        }
        None
    }

    /// Lists the name of a stop.
    fn list(&mut self, alloc: Global, stop: NameStop<'_>) -> Result<(), AllocError>
        ensures listed { OnOk result (map count_seen self.new.listed.items
            ≡ map count_seen self.old.listed.items ++ (stop.entry.name.now, stop.entry.calendar, 1) ∷ []) }
        ensures more { self.new.more ≡ self.old.more }
    {
        self.listed.push(UnknownName {
            name: stop.name.to_vec(alloc)?,
            calendar: stop.calendar,
            count: 1,
        })?;
        Ok(())
    }

    /// Counts a stop.
    fn count(&mut self, alloc: Global, stop: NameStop<'_>, most: usize) -> Result<(), AllocError>
        requires { HasRoom self.old }
        ensures { OnOk result ((stops : List SeenName) → HasNames most stops self.old
            → HasNames most (stops ++ name_seen stop.entry ∷ []) self.new) }
    {
        if let Some(place) = self.place_of(stop) {
            self.listed[place].count += 1;
            return Ok(());
        }
        if self.listed.len() >= most {
            self.more += 1;
            return Ok(());
        }
        self.list(alloc, stop)
    }

    /// Counts what stopped one more date, if something did. At most so many names are listed.
    pub fn add(
        &mut self,
        alloc: Global,
        stop: Option<DateStop<'_>>,
        most: usize,
    ) -> Result<(), AllocError>
        requires { HasRoom self.old }
        ensures { OnOk result ((stops : List SeenName) → HasNames most stops self.old
            → HasNames most (stops ++ option_to_list (name_in (if_stop stop.entry))) self.new) }
    {
        match stop {
            Some(DateStop::Name(name)) => self.count(alloc, name, most),
            _ => Ok(()),
        }
    }
}
