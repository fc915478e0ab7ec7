//! What items say as a day named by a feast.

ghost use Rattle.std.specs.Prelude.{◌≡◌};
ghost use Rattle.written_dates.specs.FeastRules.{weekday_first as weekday_spec, number_first as number_spec};
ghost use Rattle.written_dates.specs.FeastRules.{relation_first as relation_spec, season_after as season_spec};
ghost use Rattle.written_dates.specs.FeastRules.{named as named_spec};
ghost use Rattle.written_dates.specs.FeastRules.{numbered as numbered_spec, related as related_spec};
ghost use Rattle.written_dates.specs.FeastRules.{feasted as feasted_spec, in_season as in_season_spec};
ghost use Rattle.written_dates.specs.FeastRules.{ending as ending_spec, behind_front as front_spec};
ghost use Rattle.written_dates.specs.FeastRules.{behind_number as behind_number_spec, feast_naming as naming_spec};

use crate::items::{Item, Number, is_long};
use crate::meanings::Relation;
use church_year::{Anchor, Feast, Place, Season};
use day_numbers::Weekday;

/// A day of a year that is named by a feast.
#[derive(Clone, Copy)]
pub(crate) struct Naming {
    /// The year.
    pub year: Number,
    /// The feast.
    pub feast: Feast,
    /// Which day is meant.
    pub place: Place,
}

/// A weekday in front, if one is, and what follows.
pub(crate) fn weekday_first(items: &[Item]) -> (Option<Weekday>, &[Item])
    ensures { (result.0, result.1.now) ≡ weekday_spec items.now }
{
    match items {
        [Item::Weekday(weekday), rest @ ..] => (Some(*weekday), rest),
        _ => (None, items),
    }
}

/// A number in front, if one is, and what follows.
fn number_first(items: &[Item]) -> (Option<Number>, &[Item])
    ensures { (result.0, result.1.now) ≡ number_spec items.now }
{
    match items {
        [Item::Number(number), rest @ ..] => (Some(*number), rest),
        _ => (None, items),
    }
}

/// A relation in front, if one is, and what follows.
fn relation_first(items: &[Item]) -> (Option<Relation>, &[Item])
    ensures { (result.0, result.1.now) ≡ relation_spec items.now }
{
    match items {
        [Item::Relation(relation), rest @ ..] => (Some(*relation), rest),
        _ => (None, items),
    }
}

/// The season whose Sundays are counted after a feast.
fn season_after(feast: Feast) -> Option<Season>
    ensures { result ≡ season_spec feast }
{
    match feast {
        Feast::Day(Anchor::Fixed(month, day), days) => {
            if month == 1 && day == 6 && days == 0 {
                Some(Season::Epiphany)
            } else {
                None
            }
        }
        Feast::Day(Anchor::Easter, days) => {
            if days == 0 {
                Some(Season::Easter)
            } else if days == 49 {
                Some(Season::Pentecost)
            } else if days == 56 {
                Some(Season::Trinity)
            } else {
                None
            }
        }
        Feast::Sunday(_, _) => None,
    }
}

fn named(year: Number, feast: Feast, place: Place) -> Option<Naming>
    ensures { result ≡ named_spec year feast place }
{
    Some(Naming { year, feast, place })
}

/// The Sunday of a number in a season, unless a word for day stands beside the number.
fn numbered(number: Number, year: Number, season: Option<Season>) -> Option<Naming>
    ensures { result ≡ numbered_spec number year season }
{
    let season = season?;
    if is_long(number) || number.day || number.value > 255 {
        return None;
    }
    named(
        year,
        Feast::Sunday(season, number.value as u8),
        Place::Days(0),
    )
}

/// What a relation says of a feast.
fn related(
    weekday: Option<Weekday>,
    number: Option<Number>,
    relation: Relation,
    feast: Feast,
    year: Number,
) -> Option<Naming>
    ensures { result ≡ related_spec weekday number relation feast year }
{
    if let Some(number) = number {
        return match relation {
            Relation::After => numbered(number, year, season_after(feast)),
            _ => None,
        };
    }
    match weekday {
        None => match relation {
            Relation::Eve => named(year, feast, Place::Days(-1)),
            Relation::Morrow => named(year, feast, Place::Days(1)),
            Relation::Octave => named(year, feast, Place::Days(7)),
            _ => None,
        },
        Some(weekday) => match relation {
            Relation::After => named(year, feast, Place::After(weekday)),
            Relation::Before => named(year, feast, Place::Before(weekday)),
            _ => None,
        },
    }
}

/// What is said with a feast.
fn feasted(
    weekday: Option<Weekday>,
    number: Option<Number>,
    relation: Option<Relation>,
    feast: Feast,
    year: Number,
) -> Option<Naming>
    ensures { result ≡ feasted_spec weekday number relation feast year }
{
    if let Some(relation) = relation {
        return related(weekday, number, relation, feast, year);
    }
    match number {
        None => named(year, feast, Place::Days(0)),
        Some(_) => None,
    }
}

/// What is said with Sundays that are numbered.
fn in_season(
    number: Option<Number>,
    relation: Option<Relation>,
    season: Season,
    year: Number,
) -> Option<Naming>
    ensures { result ≡ in_season_spec number relation season year }
{
    if relation.is_some() {
        return None;
    }
    match number {
        Some(number) => numbered(number, year, Some(season)),
        None => None,
    }
}

/// What is said where a feast or Sundays stand before the year.
fn ending(
    weekday: Option<Weekday>,
    number: Option<Number>,
    relation: Option<Relation>,
    items: &[Item],
) -> Option<Naming>
    ensures { result ≡ ending_spec weekday number relation items.now }
{
    match items {
        [Item::Feast(feast), Item::Number(year)] => {
            feasted(weekday, number, relation, *feast, *year)
        }
        [Item::Sundays(season), Item::Number(year)] => {
            in_season(number, relation, *season, *year)
        }
        _ => None,
    }
}

/// What is said behind a weekday and a number.
fn behind_front(weekday: Option<Weekday>, number: Option<Number>, items: &[Item]) -> Option<Naming>
    ensures { result ≡ front_spec weekday number items.now }
{
    let (relation, rest) = relation_first(items);
    ending(weekday, number, relation, rest)
}

/// What is said behind a weekday and a number, or behind a number alone, which a weekday can follow.
fn behind_number(weekday: Option<Weekday>, number: Option<Number>, items: &[Item]) -> Option<Naming>
    ensures { result ≡ behind_number_spec weekday number items.now }
{
    match weekday {
        Some(weekday) => behind_front(Some(weekday), number, items),
        None => {
            let (weekday, rest) = weekday_first(items);
            behind_front(weekday, number, rest)
        }
    }
}

/// What items say as a day named by a feast.
pub(crate) fn naming_of(items: &[Item]) -> Option<Naming>
    ensures { result ≡ naming_spec items.now }
{
    let (weekday, behind) = weekday_first(items);
    let (number, rest) = number_first(behind);
    behind_number(weekday, number, rest)
}
