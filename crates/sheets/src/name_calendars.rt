//! The calendars that the third field of a list names.

ghost use Rattle.std.specs.Prelude.{◌≡◌, None, IfSome};
ghost use Rattle.sheets.specs.NameLists.{HasUnknown, HoldsIn};

use date_texts::calendar_named;
use written_dates::Calendars;

/// The calendars in which a name holds by this field; `None` exactly where it names something else.
pub(crate) fn calendars_said(field: &str) -> Option<Calendars>
    ensures some { IfSome result (λ calendars. HoldsIn field.now calendars) }
    ensures none { result ≡ None → HasUnknown field.now }
{
    if field.is_empty() {
        return Some(Calendars::ALL);
    }
    let mut calendars = Calendars::NONE;
    'names: for name in field.split(' ') {
        calendars = calendars.with(calendar_named(name)?);
    }
    Some(calendars)
}
