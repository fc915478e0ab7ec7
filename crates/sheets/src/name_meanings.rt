//! What the second field of a list says.

ghost use Rattle.std.specs.Prelude.{◌≡◌, ◌<◌, ◌^◌, ◌↔◌, ◌++◌, ℕ, ℤ, None, IfSome, codes, true};
ghost use Rattle.std.specs.Fmt.{decimal};
ghost use Rattle.date_texts.specs.Calendars.{calendar_name};
ghost use Rattle.date_texts.specs.Names.{IsNamed};
ghost use Rattle.date_texts.specs.declared.calendar.Calendar.{Calendar as CalendarValue};
ghost use Rattle.sheets.specs.private.MeaningViews.{is_bare, is_counted, is_named};
ghost use Rattle.sheets.specs.NameMeanings.{AreMonths, IsPart, era_name};
ghost use Rattle.sheets.specs.NameMeanings.{IsNumberIn, IsWordAndNumber, Says, SaysCalendar, SaysChange};
ghost use Rattle.sheets.specs.NameMeanings.{SaysMeaning, mark_name, relation_name, season_name, weekday_name, word_name};
ghost use Rattle.written_dates.specs.declared.fields.CalendarMeaning.{CalendarMeaning as CalendarMeaningValue};
ghost use Rattle.sheets.specs.declared.name_meanings.Means.{Means as MeansValue};
ghost use Rattle.written_dates.specs.declared.meanings.Meaning.{Meaning as MeaningValue};

use crate::feast_names::{feast_said, season_said};
use church_year::Season;
use date_texts::laws::one_date_text;
use date_texts::{Calendar, calendar_named, day_of_date, read_date};
use day_numbers::Weekday;
use itoa::Buffer;
use written_dates::{CalendarMeaning, Era, Mark, Meaning, Relation, Word};

/// The largest number that a name can mean.
const MAX_NUMBER: u32 = 999_999_999;

/// What a name means.
#[derive(Clone, Copy, PartialEq, Eq)]
pub enum Means {
    /// This, in dates.
    InDates(Meaning),
    /// This, where the calendar of a date stands.
    Calendar(CalendarMeaning),
    /// That is not said yet.
    Open,
}

/// Whether a text is this number in decimal.
fn is_decimal(text: &str, number: u32) -> bool
    ensures { (result ≡ true) ↔ (text.now ≡ decimal number) }
{
    Buffer::new().format(number) == text
}

/// The number that a text in decimal says.
fn number_of(text: &str) -> Option<u32>
    ensures some { IfSome result (λ number. text.now ≡ decimal number) }
    ensures none { result ≡ None → (number : ℕ) → number < 2 ^ 32 → ¬ (text.now ≡ decimal number) }
{
    match text.parse::<u32>() {
        Ok(number) if is_decimal(text, number) => Some(number),
        _ => None,
    }
}

/// The number within these bounds that a text in decimal says.
pub(crate) fn number_said(text: &str, least: u32, most: u32) -> Option<u32>
    ensures some { IfSome result (IsNumberIn least most text.now) }
    ensures none { result ≡ None → (number : ℕ) → ¬ IsNumberIn least most text.now number }
{
    let number = number_of(text)?;
    if number < least || number > most {
        return None;
    }
    Some(number)
}

/// The month that `month 1` to `month 13` say.
fn month_said(field: &str) -> Option<u8>
    ensures some { IfSome result (IsWordAndNumber (codes "month") 1 13 field.now) }
    ensures none { result ≡ None → (month : ℕ) → ¬ IsWordAndNumber (codes "month") 1 13 field.now month }
{
    Some(number_said(field.strip_prefix("month ")?, 1, 13)? as u8)
}

/// The day of the decade that `decade 1` to `decade 10` say.
fn decade_day_said(field: &str) -> Option<u8>
    ensures some { IfSome result (IsWordAndNumber (codes "decade") 1 10 field.now) }
    ensures none { result ≡ None → (day : ℕ) → ¬ IsWordAndNumber (codes "decade") 1 10 field.now day }
{
    Some(number_said(field.strip_prefix("decade ")?, 1, 10)? as u8)
}

/// The month and the later one that `months 3-5` and the like say.
fn months_said(field: &str) -> Option<(u8, u8)>
    ensures some { IfSome result (λ months. AreMonths field.now months.0 months.1) }
    ensures none { result ≡ None → (first last : ℕ) → ¬ AreMonths field.now first last }
{
    let (first, last) = field.strip_prefix("months ")?.split_once('-')?;
    let first = number_said(first, 1, 13)?;
    let last = number_said(last, first + 1, 13)?;
    Some((first as u8, last as u8))
}

/// The place of a part, and the number of parts, that `part 1/3` and the like say.
fn part_said(field: &str) -> Option<(u8, u8)>
    ensures some { IfSome result (λ part. IsPart field.now part.0 part.1) }
    ensures none { result ≡ None → (place parts : ℕ) → ¬ IsPart field.now place parts }
{
    let (place, parts) = field.strip_prefix("part ")?.split_once('/')?;
    let parts = number_said(parts, 2, 4)?;
    let place = number_said(place, 1, parts)?;
    Some((place as u8, parts as u8))
}

/// With what the first year of a century ends, by `century 0` or `century 1`.
fn century_said(field: &str) -> Option<u8>
    ensures some { IfSome result (IsWordAndNumber (codes "century") 0 1 field.now) }
    ensures none { result ≡ None → (first : ℕ) → ¬ IsWordAndNumber (codes "century") 0 1 field.now first }
{
    Some(number_said(field.strip_prefix("century ")?, 0, 1)? as u8)
}

/// The era that `year`, `year spanish` or `year creation` says.
fn era_said(field: &str) -> Option<Era>
    ensures some { IfSome result (λ era. field.now ≡ era_name era) }
    ensures none { result ≡ None → (era : Era) → ¬ (field.now ≡ era_name era) }
{
    match field {
        "year" => Some(Era::Calendar),
        "year spanish" => Some(Era::Spanish),
        "year creation" => Some(Era::Creation),
        _ => None,
    }
}

/// The mark that `K`, `N` or `I` says.
fn mark_said(field: &str) -> Option<Mark>
    ensures some { IfSome result (λ mark. field.now ≡ mark_name mark) }
    ensures none { result ≡ None → (mark : Mark) → ¬ (field.now ≡ mark_name mark) }
{
    match field {
        "K" => Some(Mark::Kalends),
        "N" => Some(Mark::Nones),
        "I" => Some(Mark::Ides),
        _ => None,
    }
}

/// The day of the week that `weekday 0`, for Sunday, to `weekday 6` say.
fn weekday_said(field: &str) -> Option<Weekday>
    ensures some { IfSome result (λ weekday. field.now ≡ weekday_name weekday) }
    ensures none { result ≡ None → (weekday : Weekday) → ¬ (field.now ≡ weekday_name weekday) }
{
    match field {
        "weekday 0" => Some(Weekday::Sunday),
        "weekday 1" => Some(Weekday::Monday),
        "weekday 2" => Some(Weekday::Tuesday),
        "weekday 3" => Some(Weekday::Wednesday),
        "weekday 4" => Some(Weekday::Thursday),
        "weekday 5" => Some(Weekday::Friday),
        "weekday 6" => Some(Weekday::Saturday),
        _ => None,
    }
}

/// How a day stands to a feast.
fn relation_said(field: &str) -> Option<Relation>
    ensures some { IfSome result (λ relation. field.now ≡ relation_name relation) }
    ensures none { result ≡ None → (relation : Relation) → ¬ (field.now ≡ relation_name relation) }
{
    match field {
        "after" => Some(Relation::After),
        "before" => Some(Relation::Before),
        "eve" => Some(Relation::Eve),
        "morrow" => Some(Relation::Morrow),
        "octave" => Some(Relation::Octave),
        _ => None,
    }
}

/// The word of texts that say no single day, or none at all.
fn word_said(field: &str) -> Option<Word>
    ensures some { IfSome result (λ word. field.now ≡ word_name word) }
    ensures none { result ≡ None → (word : Word) → ¬ (field.now ≡ word_name word) }
{
    match field {
        "about" => Some(Word::About),
        "from" => Some(Word::From),
        "to" => Some(Word::To),
        "between" => Some(Word::Between),
        "and" => Some(Word::And),
        "undated" => Some(Word::Undated),
        _ => None,
    }
}

/// The season whose Sundays `sundays advent` and the like say.
fn sundays_said(field: &str) -> Option<Season>
    ensures some { IfSome result (λ season. field.now ≡ codes "sundays " ++ season_name season) }
    ensures none { result ≡ None → (season : Season) → ¬ (field.now ≡ codes "sundays " ++ season_name season) }
{
    season_said(field.strip_prefix("sundays ")?)
}

/// What a field that is one text alone says of a name in dates.
fn bare_said(field: &str) -> Option<Meaning>
    ensures some { IfSome result (SaysMeaning field.now) }
    ensures none { result ≡ None → (meaning : MeaningValue) → is_bare meaning ≡ true → ¬ SaysMeaning field.now meaning }
{
    match field {
        "" => Some(Meaning::Nothing),
        "day" => Some(Meaning::DayWord),
        "month 12-13" => Some(Meaning::Adar),
        "last day" => Some(Meaning::LastDay),
        "decade" => Some(Meaning::Decade),
        _ => None,
    }
}

/// What a field that says numbers says of a name in dates.
fn counted_said(field: &str) -> Option<Meaning>
    ensures some { IfSome result (SaysMeaning field.now) }
    ensures none { result ≡ None → (meaning : MeaningValue) → is_counted meaning ≡ true
        → ¬ SaysMeaning field.now meaning }
{
    if let Some(number) = number_said(field, 0, MAX_NUMBER) {
        Some(Meaning::Number(number))
    } else if let Some(month) = month_said(field) {
        Some(Meaning::Month(month))
    } else if let Some((first, last)) = months_said(field) {
        Some(Meaning::Months(first, last))
    } else if let Some((place, parts)) = part_said(field) {
        Some(Meaning::Part(place, parts))
    } else if let Some(day) = decade_day_said(field) {
        Some(Meaning::DecadeDay(day))
    } else {
        Some(Meaning::Century(century_said(field)?))
    }
}

/// What a field that says one of some names says of a name in dates.
fn named_said(field: &str) -> Option<Meaning>
    ensures some { IfSome result (SaysMeaning field.now) }
    ensures none { result ≡ None → (meaning : MeaningValue) → is_named meaning ≡ true
        → ¬ SaysMeaning field.now meaning }
{
    if let Some(era) = era_said(field) {
        Some(Meaning::YearWord(era))
    } else if let Some(word) = word_said(field) {
        Some(Meaning::Word(word))
    } else if let Some(mark) = mark_said(field) {
        Some(Meaning::Mark(mark))
    } else if let Some(weekday) = weekday_said(field) {
        Some(Meaning::Weekday(weekday))
    } else if let Some(relation) = relation_said(field) {
        Some(Meaning::Relation(relation))
    } else if let Some(season) = sundays_said(field) {
        Some(Meaning::Sundays(season))
    } else {
        Some(Meaning::Feast(feast_said(field)?))
    }
}

/// What a field says of a name in dates.
fn meaning_said(field: &str) -> Option<Meaning>
    ensures some { IfSome result (SaysMeaning field.now) }
    ensures none { result ≡ None → (meaning : MeaningValue) → ¬ SaysMeaning field.now meaning }
{
    if let Some(meaning) = bare_said(field) {
        Some(meaning)
    } else if let Some(meaning) = counted_said(field) {
        Some(meaning)
    } else {
        named_said(field)
    }
}

/// The number of the day from which on the Gregorian calendar is in use, by `julian/gregorian:` and its date.
fn change_said(field: &str) -> Option<i64>
    requires { (calendar : CalendarValue) → ¬ (IsNamed field.now (calendar_name calendar)) }
    ensures some { IfSome result (SaysChange field.now) }
    ensures none { result ≡ None → (from : ℤ) → ¬ SaysChange field.now from }
{
    one_date_text();
    let text = field.strip_prefix("julian/gregorian:")?;
    let Ok(date) = read_date(Calendar::Gregorian, text) else {
        return None;
    };
    match day_of_date(&date) {
        Ok(day) => Some(day.number()),
        Err(_) => None,
    }
}

/// What a word says of the calendar of dates: the name of a calendar, `both`, or `julian/gregorian:` and the Gregorian
/// date of the day from which on that calendar is in use. `None` exactly where it says nothing of it.
pub fn calendar_said(word: &str) -> Option<CalendarMeaning>
    ensures some { IfSome result (SaysCalendar word.now) }
    ensures none { result ≡ None → (meaning : CalendarMeaningValue) → ¬ SaysCalendar word.now meaning }
{
    if let Some(calendar) = calendar_named(word) {
        Some(CalendarMeaning::One(calendar))
    } else if word == "both" {
        Some(CalendarMeaning::Both)
    } else {
        Some(CalendarMeaning::Changed(change_said(word)?))
    }
}

/// What a field says; `None` exactly where it says nothing.
pub(crate) fn means_said(field: &str) -> Option<Means>
    ensures some { IfSome result (λ means. Says field.now means) }
    ensures none { result ≡ None → (means : MeansValue) → ¬ Says field.now means }
{
    if field == "?" {
        Some(Means::Open)
    } else if let Some(meaning) = meaning_said(field) {
        Some(Means::InDates(meaning))
    } else {
        Some(Means::Calendar(calendar_said(field)?))
    }
}
