//! The feasts that the second field of a list says.

ghost use Rattle.std.specs.Prelude.{◌≡◌, ◌↔◌, ℕ, ℤ, None, IfSome, true};
ghost use Rattle.std.specs.Fmt.{signed_decimal};
ghost use Rattle.church_year.specs.declared.feasts.Feast.{Feast as FeastValue};
ghost use Rattle.church_year.specs.declared.feasts.Anchor.{Anchor as AnchorValue};
ghost use Rattle.church_year.specs.declared.feasts.Season.{Season as SeasonValue};
ghost use Rattle.sheets.specs.NameMeanings.{IsFewDays, SaysFeast, season_name};
ghost use Rattle.sheets.specs.private.NameMeanings.{AreDays, IsDayAndDays};

use crate::name_meanings::number_said;
use church_year::{Anchor, Feast, Season};
use itoa::Buffer;

/// How many days a feast can be from another day.
const MOST_DAYS: i16 = 366;

/// Whether a text is this number in decimal.
fn is_decimal(text: &str, number: i16) -> bool
    ensures { (result ≡ true) ↔ (text.now ≡ signed_decimal number) }
{
    Buffer::new().format(number) == text
}

/// The number, which may be below 0, that a text in decimal says.
fn number_of(text: &str) -> Option<i16>
    ensures some { IfSome result (λ number. text.now ≡ signed_decimal number) }
    ensures none { result ≡ None → (number : ℤ) → IsFewDays number → ¬ (text.now ≡ signed_decimal number) }
{
    match text.parse::<i16>() {
        Ok(number) if is_decimal(text, number) => Some(number),
        _ => None,
    }
}

/// The number of days, a year at most, that a text in decimal says.
fn days_said(text: &str) -> Option<i16>
    ensures some { IfSome result (AreDays text.now) }
    ensures none { result ≡ None → (days : ℤ) → ¬ AreDays text.now days }
{
    let days = number_of(text)?;
    if days < -MOST_DAYS || days > MOST_DAYS {
        return None;
    }
    Some(days)
}

/// The season of this name.
pub(crate) fn season_said(name: &str) -> Option<Season>
    ensures some { IfSome result (λ season. name.now ≡ season_name season) }
    ensures none { result ≡ None → (season : Season) → ¬ (name.now ≡ season_name season) }
{
    match name {
        "epiphany" => Some(Season::Epiphany),
        "lent" => Some(Season::Lent),
        "easter" => Some(Season::Easter),
        "pentecost" => Some(Season::Pentecost),
        "trinity" => Some(Season::Trinity),
        "advent" => Some(Season::Advent),
        _ => None,
    }
}

/// The feast that `easter 0`, `easter -28` and the like say.
fn easter_said(field: &str) -> Option<Feast>
    ensures some { IfSome result (SaysFeast field.now) }
    ensures none { result ≡ None → (days : ℤ) → ¬ SaysFeast field.now (FeastValue.Day AnchorValue.Easter days) }
{
    let days = days_said(field.strip_prefix("easter ")?)?;
    Some(Feast::Day(Anchor::Easter, days))
}

/// The day of a month, and how many days from it, that `29` or `1 -5` says.
fn day_said(text: &str) -> Option<(u8, i16)>
    ensures some { IfSome result (λ r. IsDayAndDays text.now r.0 r.1) }
    ensures none { result ≡ None → (day : ℕ) (days : ℤ) → ¬ IsDayAndDays text.now day days }
{
    let Some((day, days)) = text.split_once(' ') else {
        return Some((number_said(text, 1, 31)? as u8, 0));
    };
    let day = number_said(day, 1, 31)?;
    let days = days_said(days)?;
    if days == 0 {
        return None;
    }
    Some((day as u8, days))
}

/// The feast that `feast 9-29` or `feast 3-1 -5` says.
fn fixed_said(field: &str) -> Option<Feast>
    ensures some { IfSome result (SaysFeast field.now) }
    ensures none { result ≡ None → (month day : ℕ) (days : ℤ)
        → ¬ SaysFeast field.now (FeastValue.Day (AnchorValue.Fixed month day) days) }
{
    let (month, behind) = field.strip_prefix("feast ")?.split_once('-')?;
    let month = number_said(month, 1, 12)?;
    let (day, days) = day_said(behind)?;
    Some(Feast::Day(Anchor::Fixed(month as u8, day), days))
}

/// The feast that `sunday advent 3` and the like say.
fn sunday_said(field: &str) -> Option<Feast>
    ensures some { IfSome result (SaysFeast field.now) }
    ensures none { result ≡ None → (season : SeasonValue) (number : ℕ)
        → ¬ SaysFeast field.now (FeastValue.Sunday season number) }
{
    let (season, number) = field.strip_prefix("sunday ")?.split_once(' ')?;
    let season = season_said(season)?;
    Some(Feast::Sunday(season, number_said(number, 1, 53)? as u8))
}

/// The feast that a field says.
pub(crate) fn feast_said(field: &str) -> Option<Feast>
    ensures some { IfSome result (SaysFeast field.now) }
    ensures none { result ≡ None → (feast : FeastValue) → ¬ SaysFeast field.now feast }
{
    if let Some(feast) = easter_said(field) {
        Some(feast)
    } else if let Some(feast) = fixed_said(field) {
        Some(feast)
    } else {
        sunday_said(field)
    }
}
