//! The calendars and targets that texts name.

ghost use Rattle.std.specs.Prelude.{◌≡◌, ◌↔◌, Some};
ghost use Rattle.date_texts.specs.Names.{IsNamed};
ghost use Rattle.date_texts.specs.Calendars.{calendar_name, target_name};
ghost use Rattle.date_texts.specs.declared.calendar.Calendar.{Calendar};
ghost use Rattle.date_texts.specs.declared.target.Target.{Target};

use crate::calendar::Calendar;
use crate::target::Target;
use crate::trim::trimmed;

/// The target of a name in small letters, as most registers write it.
fn target_spelled(name: &[u8]) -> Option<Target>
    ensures { (target : Target) → (result ≡ Some target) → name.now ≡ target_name target }
{
    let [first, .., last] = name else {
        return None;
    };
    // These two letters, or else the length, leave one target, whose name is then compared.
    let target = match (*first, *last) {
        (b'g', _) => Target::Date(Calendar::Gregorian),
        (b'i', b'o') => Target::Date(Calendar::Iso),
        (b'j', _) => Target::Date(Calendar::Julian),
        (b'c', _) => Target::Date(Calendar::Coptic),
        (b'e', b'c') => Target::Date(Calendar::Ethiopic),
        (b'e', _) => Target::Date(Calendar::Egyptian),
        (b'a', _) => Target::Date(Calendar::Armenian),
        (b'i', _) => Target::Date(Calendar::Islamic),
        (b'h', b'w') => Target::Date(Calendar::Hebrew),
        (b'l', _) => Target::Date(Calendar::Longcount),
        (b'f', _) => Target::Date(Calendar::French),
        (b'r', _) if name.len() == 5 => Target::Date(Calendar::Roman),
        (b'r', _) => Target::Date(Calendar::Republican),
        (b'h', _) => Target::Haab,
        (b't', _) => Target::Tzolkin,
        _ => return None,
    };
    if target.name().as_bytes() == name {
        Some(target)
    } else {
        None
    }
}

/// The target that a text names: the target's name in letters of either ASCII case, with any spaces and
/// tabs before and after it. `None` exactly where the text names no target.
#[inline(always)]
pub fn target_named(text: &str) -> Option<Target>
    ensures { (target : Target) → (result ≡ Some target) ↔ IsNamed text.now (target_name target) }
{
    let name = trimmed(text.as_bytes());
    if let Some(target) = target_spelled(name) {
        return Some(target);
    }
    Target::ALL
        .iter()
        .find(|target| target.name().as_bytes().eq_ignore_ascii_case(name))
        .copied()
}

/// The calendar that a text names, as [`target_named`] reads a name. `None` exactly where the text names
/// no calendar.
#[inline(always)]
pub fn calendar_named(text: &str) -> Option<Calendar>
    ensures { (calendar : Calendar) → (result ≡ Some calendar) ↔ IsNamed text.now (calendar_name calendar) }
{
    match target_named(text)? {
        Target::Date(calendar) => Some(calendar),
        Target::Haab => None,
        Target::Tzolkin => None,
    }
}
