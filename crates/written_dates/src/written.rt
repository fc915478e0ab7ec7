//! What is written for a text.

ghost use Rattle.std.specs.Prelude.{◌≡◌, ◌++◌, ◌∷◌, ◌+◌, OnOk, Option, Some, None, unwrap_or};
ghost use Rattle.std.specs.Fmt.{decimal};
ghost use Rattle.std.specs.List.{list_all};
ghost use Rattle.written_dates.specs.Calendars.{form as form_spec};
ghost use Rattle.written_dates.specs.Tokens.{tokens};
ghost use Rattle.written_dates.specs.Signs.{three_runs as runs_spec};
ghost use Rattle.written_dates.specs.SignViews.{seen_runs};
ghost use Rattle.written_dates.specs.private.SignViews.{seen_text};
ghost use Rattle.written_dates.specs.Written.{if_short as if_short_spec, rule_in as rule_in_spec, unless_said as unless_said_spec};
ghost use Rattle.written_dates.specs.Written.{counted as counted_spec, from_creation as creation_spec, lacks_month as lacks_month_spec};
ghost use Rattle.written_dates.specs.Written.{short_rule as rule_spec, joined, dated, letter, stood, numbers};
ghost use Rattle.written_dates.specs.Written.{is_turned as turned_spec, unless_turned};
ghost use Rattle.written_dates.specs.Written.{church_of as church_spec, feast_of as feast_spec};
ghost use Rattle.written_dates.specs.Written.{month_and_day as month_and_day_spec, has_year as has_year_spec};
ghost use Rattle.written_dates.specs.Written.{date_in as date_in_spec, date_of as date_spec, agrees as agrees_spec};
ghost use Rattle.written_dates.specs.Written.{if_agreed as agreed_spec, reading_by, items_answer as items_answer_spec};
ghost use Rattle.written_dates.specs.Written.{is_half_year as half_spec, lacks_church as lacks_spec};
ghost use Rattle.written_dates.specs.Written.{answer as answer_spec, answer_text};
ghost use Rattle.church_year.specs.FeastDates.{feast_date_in};
ghost use Rattle.written_dates.specs.declared.rules.Reading.TheVariants.{Civil};
ghost use Rattle.written_dates.specs.Written.{civil_text, written as written_spec};
ghost use Rattle.written_dates.specs.Written.{before_time as before_spec, begins_at_midnight as midnight_spec, dated_text as dated_text_spec};
ghost use Rattle.written_dates.specs.Written.{is_dated as dated_spec, is_found as found_spec};

use crate::calendars::{Form, form_of};
use crate::items::{Item, Number, items_of, number_of_digits};
use crate::meanings::{Era, Mark};
use crate::names::Names;
use crate::rules::{InYear, Order, Reading, civil_of, is_year_first, roman_of};
use crate::signs::{begins_with_dash, runs_behind_minus, signs_of, three_runs};
use crate::times::timeless;
use crate::weekdays::{is_decade_day, is_on, numbered_weekday};
use church_year::{Church, Feast, Place, feast_date};
use date_texts::Calendar;
use itoa::Buffer;
use std::alloc::AllocError;

/// What is done with short years.
#[derive(Clone, Copy, PartialEq, Eq)]
pub enum Short {
    /// The date is left empty.
    Refuse,
    /// The year is kept.
    Keep,
    /// So many years are added.
    Add(u32),
}

/// How dates are read.
#[derive(Clone, Copy, PartialEq, Eq)]
pub struct Choice {
    /// In which order three numbers stand.
    pub order: Order,
    /// What is done with short Gregorian and Julian years.
    pub short_years: Short,
    /// What is done with short Hebrew years.
    pub short_hebrew_years: Short,
    /// What is done with short Islamic, Coptic, Ethiopic and Armenian years.
    pub short_other_years: Short,
    /// Whether the year of a Roman date is that of its day.
    pub charters: bool,
}

/// What is found in a text.
#[derive(Clone, Copy)]
pub enum Answer {
    /// No date: the text stays.
    Stays,
    /// A year that the French Republic did not have: the text stays.
    NoSuchYear,
    /// A year, a month and a day that are not on a weekday which stands in the text too: the text stays.
    OtherWeekday(u64, u32, u32),
    /// A date whose year is short, where these are refused.
    Refused,
    /// A year, a month and a day.
    Date(u64, u32, u32),
    /// A year, a month, a mark and a count.
    RomanDate(u64, u32, Mark, u32),
}

/// What is done with a year that is short if it is below `bound` and has at most so many digits.
fn if_short(bound: u32, digits: usize, year: Number, rule: Short) -> Short
    ensures { result ≡ if_short_spec bound digits year rule }
{
    if year.value < bound && year.digits <= digits {
        rule
    } else {
        Short::Keep
    }
}

/// What is done with a short year by its word: behind one for year it is not refused, and of another era it is kept.
fn unless_said(era: Option<Era>, rule: Short) -> Short
    ensures { result ≡ unless_said_spec era rule }
{
    match (era, rule) {
        (None, rule) => rule,
        (Some(Era::Calendar), Short::Add(more)) => Short::Add(more),
        _ => Short::Keep,
    }
}

/// The rule for years of a calendar, if these are short below `bound` and with at most so many digits.
fn rule_in(choice: &Choice, calendar: Calendar, year: Number) -> Short
    ensures { result ≡ rule_in_spec choice.now calendar year }
{
    match calendar {
        Calendar::Gregorian | Calendar::Julian => if_short(100, 2, year, choice.short_years),
        Calendar::Hebrew => if_short(1000, 3, year, choice.short_hebrew_years),
        Calendar::Islamic | Calendar::Coptic | Calendar::Ethiopic | Calendar::Armenian => {
            if_short(100, 2, year, choice.short_other_years)
        }
        _ => Short::Keep,
    }
}

/// What is done with a year. The French Republic had short years alone.
pub fn short_rule(choice: &Choice, calendar: Calendar, year: Number) -> Short
    ensures { result ≡ rule_spec choice.now calendar year }
{
    unless_said(year.year, rule_in(choice, calendar, year))
}

/// Appends a year, a month and a day with dashes between them.
fn push_joined(out: &mut Vec<u8>, year: &[u8], month: &[u8], day: &[u8]) -> Result<(), AllocError>
    ensures { OnOk result (out.new.items ≡ out.old.items ++ joined year.now month.now day.now) }
{
    out.extend_from_slice(year)?;
    out.push(b'-')?;
    out.extend_from_slice(month)?;
    out.push(b'-')?;
    out.extend_from_slice(day)?;
    Ok(())
}

/// Appends a year, a month and a day in plain numbers.
///
/// # Errors
///
/// `AllocError` where `out` could not grow; then it may have gained a part.
pub fn push_dated(out: &mut Vec<u8>, year: u64, month: u32, day: u32) -> Result<(), AllocError>
    ensures { OnOk result (out.new.items ≡ out.old.items ++ dated year month day) }
{
    let mut year_buffer = Buffer::new();
    let mut month_buffer = Buffer::new();
    let mut day_buffer = Buffer::new();
    push_joined(
        out,
        year_buffer.format(year).as_bytes(),
        month_buffer.format(month).as_bytes(),
        day_buffer.format(day).as_bytes(),
    )
}

/// Whether the year is last of three runs of digits that a register would have first.
fn is_turned(order: Order, first: &[u8], last: &[u8]) -> bool
    ensures { result ≡ turned_spec order first.now last.now }
{
    !is_year_first(order) && first.len() <= 2 && last.len() >= 3
}

/// The three runs of digits of a date that stands as registers have it.
pub fn standing(order: Order, text: &[u8]) -> Option<(&[u8], &[u8], &[u8])>
    ensures { seen_runs result ≡ unless_turned order (runs_spec (tokens 0 text.now)) }
{
    let (first, middle, last) = three_runs(text)?;
    if is_turned(order, first, last) {
        return None;
    }
    Some((first, middle, last))
}

fn mark_letter(mark: Mark) -> u8
    ensures { result ≡ letter mark }
{
    match mark {
        Mark::Kalends => b'K',
        Mark::Nones => b'N',
        Mark::Ides => b'I',
    }
}

/// Appends a Roman date.
fn push_roman(
    out: &mut Vec<u8>,
    year: u64,
    month: u32,
    mark: Mark,
    count: u32,
) -> Result<(), AllocError>
    ensures { OnOk result (out.new.items
        ≡ out.old.items ++ joined (decimal year) (decimal month) (letter mark ∷ decimal count)) }
{
    let mut year_buffer = Buffer::new();
    let mut month_buffer = Buffer::new();
    let mut count_buffer = Buffer::new();
    push_joined(
        out,
        year_buffer.format(year).as_bytes(),
        month_buffer.format(month).as_bytes(),
        &[mark_letter(mark)],
    )?;
    out.extend_from_slice(count_buffer.format(count).as_bytes())?;
    Ok(())
}

/// The church that reckons in a calendar.
fn church_of(calendar: Calendar) -> Option<Church>
    ensures { result ≡ church_spec calendar }
{
    match calendar {
        Calendar::Gregorian => Some(Church::Gregorian),
        Calendar::Julian => Some(Church::Julian),
        _ => None,
    }
}

/// The month and the day of a day named by a feast, where the year, which may be any number, has it.
#[tactic(auto, using(crate::proofs::FeastRuleLemmas::never_named))]
fn feast_in(church: Church, year: u64, feast: Feast, place: Place) -> Option<(u8, u8)>
    ensures { result ≡ feast_date_in church year feast place }
{
    if year > 9_999 {
        return None;
    }
    match feast_date(church, year as u16, feast, place) {
        Some(date) => Some((date.month(), date.day())),
        None => None,
    }
}

/// The same in the church of a calendar, if one reckons in it.
fn feast_of(church: Option<Church>, year: u64, feast: Feast, place: Place) -> Option<(u32, u32)>
    ensures { result ≡ feast_spec church year feast place }
{
    let church = church?;
    match feast_in(church, year, feast, place) {
        Some((month, day)) => Some((month as u32, day as u32)),
        None => None,
    }
}

/// The month and the day of a day that is named in a year.
fn month_and_day(calendar: Calendar, year: u64, day: InYear) -> Option<(u32, u32)>
    ensures { result ≡ month_and_day_spec calendar year day }
{
    match day {
        InYear::Day(month, day) => Some((month, day)),
        InYear::NumberedWeekday(number, weekday, month) => {
            match numbered_weekday(calendar, year, month, weekday, number) {
                Some(day) => Some((month, day)),
                None => None,
            }
        }
        InYear::Feast(feast, place) => feast_of(church_of(calendar), year, feast, place),
    }
}

/// Whether a calendar can have a year in words.
pub fn has_year(calendar: Calendar, year: u64) -> bool
    ensures { result ≡ has_year_spec calendar year }
{
    match calendar {
        Calendar::French | Calendar::Republican => year <= 99,
        _ => true,
    }
}

/// The date of a day that is named in this year.
fn date_in(calendar: Calendar, year: u64, day: InYear) -> Answer
    ensures { result ≡ date_in_spec calendar year day }
{
    if !has_year(calendar, year) {
        return Answer::NoSuchYear;
    }
    match month_and_day(calendar, year, day) {
        Some((month, day)) => Answer::Date(year, month, day),
        None => Answer::Stays,
    }
}

/// Whether a year stands by name and is not whole: none below 100 is Gregorian or Julian.
pub fn is_half_year(calendar: Calendar, year: Number) -> bool
    ensures { result ≡ half_spec calendar year }
{
    match calendar {
        Calendar::Gregorian | Calendar::Julian => year.named && year.value < 100,
        _ => false,
    }
}

/// Whether a feast names a day where no church reckons.
fn lacks_church(church: Option<Church>, day: InYear) -> bool
    ensures { result ≡ lacks_spec church day }
{
    match day {
        InYear::Feast(_, _) => church.is_none(),
        _ => false,
    }
}

/// The year that one from the creation is in a month.
fn from_creation(year: u32, month: u32) -> u32
    ensures { result ≡ creation_spec year month }
{
    if month >= 9 {
        year.saturating_sub(5_509)
    } else {
        year.saturating_sub(5_508)
    }
}

/// The year of the calendar that a year is, of a day that is named in it.
fn counted(year: Number, day: InYear) -> u32
    ensures { result ≡ counted_spec year day }
{
    match (year.year, day) {
        (Some(Era::Spanish), _) => year.value.saturating_sub(38),
        (Some(Era::Creation), InYear::Day(month, _)) => from_creation(year.value, month),
        (Some(Era::Creation), InYear::NumberedWeekday(_, _, month)) => {
            from_creation(year.value, month)
        }
        _ => year.value,
    }
}

/// Whether a year begins in September, and a feast is named, whose month it does not have.
fn lacks_month(era: Option<Era>, day: InYear) -> bool
    ensures { result ≡ lacks_month_spec era day }
{
    matches!((era, day), (Some(Era::Creation), InYear::Feast(_, _)))
}

/// The date of a year, and of a day that is named in it.
fn civil_date(choice: &Choice, calendar: Calendar, year: Number, day: InYear) -> Answer
    ensures { result ≡ date_spec choice.now calendar (Some (Civil year day)) }
{
    if is_half_year(calendar, year)
        || lacks_church(church_of(calendar), day)
        || lacks_month(year.year, day)
    {
        return Answer::Stays;
    }
    let counted = counted(year, day) as u64;
    match short_rule(choice, calendar, year) {
        Short::Refuse => Answer::Refused,
        Short::Keep => date_in(calendar, counted, day),
        Short::Add(more) => date_in(calendar, counted + more as u64, day),
    }
}

/// The date that a reading says.
fn date_of(choice: &Choice, calendar: Calendar, reading: Option<Reading>) -> Answer
    ensures { result ≡ date_spec choice.now calendar reading }
{
    match reading {
        None => Answer::Stays,
        Some(Reading::Civil(year, day)) => civil_date(choice, calendar, year, day),
        Some(Reading::Roman(year, month, mark, count)) => {
            Answer::RomanDate(year, month, mark, count)
        }
    }
}

/// Whether a weekday, or a day of a decade, that is named is that of a date.
pub fn agrees(calendar: Calendar, year: u64, month: u32, day: u32, item: Item) -> bool
    ensures { result ≡ agrees_spec calendar year month day item }
{
    match item {
        Item::Weekday(weekday) => is_on(calendar, year, month, day, weekday),
        Item::DecadeDay(number) => is_decade_day(calendar, month, day, number),
        _ => true,
    }
}

/// Whether every weekday among the items is that of a date.
fn all_agree(calendar: Calendar, year: u64, month: u32, day: u32, items: &[Item]) -> bool
    ensures { result ≡ list_all (agrees_spec calendar year month day) items.now }
{
    items
        .iter()
        .all(|item| agrees(calendar, year, month, day, *item))
}

/// What is found, if every weekday among the items is that of the date.
fn if_agreed(calendar: Calendar, items: &[Item], answer: Answer) -> Answer
    ensures { result ≡ agreed_spec calendar items.now answer }
{
    match answer {
        Answer::Date(year, month, day) => {
            if all_agree(calendar, year, month, day, items) {
                Answer::Date(year, month, day)
            } else {
                Answer::OtherWeekday(year, month, day)
            }
        }
        _ => answer,
    }
}

/// What items of a text say in a calendar.
fn reading_of(choice: &Choice, calendar: Calendar, text: &[u8], items: &[Item]) -> Option<Reading>
    ensures { result ≡ reading_by (form_spec calendar) choice.now (tokens 0 text.now) items.now }
{
    match form_of(calendar) {
        Form::Civil => civil_of(text, choice.order, items),
        Form::Roman => roman_of(choice.charters, items),
        Form::Other => None,
    }
}

/// The date that items of a text say.
fn items_answer(choice: &Choice, calendar: Calendar, text: &[u8], items: &[Item]) -> Answer
    ensures { result ≡ items_answer_spec choice.now calendar (tokens 0 text.now) items.now }
{
    let reading = reading_of(choice, calendar, text, items);
    if_agreed(calendar, items, date_of(choice, calendar, reading))
}

/// The date that a text says.
#[tactic(auto, unfolding(crate::specs::Written::answer))]
pub fn answer_of(choice: &Choice, calendar: Calendar, names: &Names, text: &[u8]) -> Answer
    ensures { result ≡ answer_spec choice.now calendar names.now.listed.now text.now }
{
    let (other, minus) = signs_of(text);
    if other || minus || begins_with_dash(text) {
        return Answer::Stays;
    }
    match items_of::<5>(text, names, calendar) {
        None => Answer::Stays,
        Some(found) => items_answer(choice, calendar, text, found.as_slice()),
    }
}

/// Appends what is written for what a text says.
///
/// # Errors
///
/// `AllocError` where `out` could not grow; then it may have gained a part.
pub fn push_answer(out: &mut Vec<u8>, text: &[u8], answer: Answer) -> Result<(), AllocError>
    ensures { OnOk result (out.new.items ≡ out.old.items ++ answer_text text.now answer) }
{
    match answer {
        Answer::Stays | Answer::NoSuchYear | Answer::OtherWeekday(_, _, _) => {
            out.extend_from_slice(text)?;
            Ok(())
        }
        Answer::Refused => Ok(()),
        Answer::Date(year, month, day) => push_dated(out, year, month, day),
        Answer::RomanDate(year, month, mark, count) => push_roman(out, year, month, mark, count),
    }
}

/// The numbers that three runs of digits spell.
fn numbers_of(year: &[u8], month: &[u8], day: &[u8]) -> Option<(Number, Number, Number)>
    ensures { result ≡ numbers (year.now, month.now, day.now) }
{
    let year = number_of_digits(year)?;
    let month = number_of_digits(month)?;
    let day = number_of_digits(day)?;
    Some((year, month, day))
}

/// Appends what is written for a date that stands as registers have it, by the rule for short years. A year of more than
/// three digits is not short, so its numbers are not looked at.
///
/// # Errors
///
/// `AllocError` where `out` could not grow; then it may have gained a part.
pub fn push_stood(
    out: &mut Vec<u8>,
    choice: &Choice,
    calendar: Calendar,
    year: &[u8],
    month: &[u8],
    day: &[u8],
) -> Result<(), AllocError>
    ensures { OnOk result (out.new.items ≡ out.old.items
        ++ stood choice.now calendar (joined year.now month.now day.now) (numbers (year.now, month.now, day.now))) }
{
    if year.len() > 3 {
        return push_joined(out, year, month, day);
    }
    let Some((y, m, d)) = numbers_of(year, month, day) else {
        return push_joined(out, year, month, day);
    };
    match short_rule(choice, calendar, y) {
        Short::Refuse => Ok(()),
        Short::Keep => push_joined(out, year, month, day),
        Short::Add(more) => push_dated(out, y.value as u64 + more as u64, m.value, d.value),
    }
}

/// Appends what is written in a calendar with years, months and days for a text that is no date as registers have it, but
/// that may stand behind a minus.
fn push_unstood(
    out: &mut Vec<u8>,
    choice: &Choice,
    calendar: Calendar,
    names: &Names,
    text: &[u8],
) -> Result<(), AllocError>
    ensures { OnOk result (unless_turned choice.now.order (runs_spec (tokens 0 text.now)) ≡ None
        → out.new.items ≡ out.old.items ++ civil_text choice.now calendar names.now.listed.now text.now) }
{
    if let Some((year, month, day)) = runs_behind_minus(text) {
        out.push(b'-')?;
        return push_joined(out, year, month, day);
    }
    push_answer(out, text, answer_of(choice, calendar, names, text))
}

/// Appends what is written in such a calendar. Most dates of registers stand as they have them.
fn push_civil(
    out: &mut Vec<u8>,
    choice: &Choice,
    calendar: Calendar,
    names: &Names,
    text: &[u8],
) -> Result<(), AllocError>
    ensures { OnOk result (out.new.items ≡ out.old.items
        ++ civil_text choice.now calendar names.now.listed.now text.now) }
{
    if let Some((year, month, day)) = standing(choice.order, text) {
        return push_stood(out, choice, calendar, year, month, day);
    }
    push_unstood(out, choice, calendar, names, text)
}

/// Appends what is written in such a calendar for a text without a time of day behind a date. Registers have no times, so
/// their dates are written at once.
fn push_timeless(
    out: &mut Vec<u8>,
    choice: &Choice,
    calendar: Calendar,
    names: &Names,
    text: &[u8],
) -> Result<(), AllocError>
    ensures { OnOk result (out.new.items ≡ out.old.items
        ++ civil_text choice.now calendar names.now.listed.now
        (dated_text_spec choice.now calendar names.now.listed.now text.now)) }
{
    if let Some((year, month, day)) = standing(choice.order, text) {
        return push_stood(out, choice, calendar, year, month, day);
    }
    match dated_before(choice, calendar, names, text) {
        Some(before) => push_civil(out, choice, calendar, names, before),
        None => push_unstood(out, choice, calendar, names, text),
    }
}

/// Whether a date is found, if it be one whose short year is refused.
pub fn is_found(answer: Answer) -> bool
    ensures { result ≡ found_spec answer }
{
    match answer {
        Answer::Date(_, _, _) | Answer::Refused => true,
        _ => false,
    }
}

/// Whether a text is a date as registers have it, or says one.
#[tactic(auto, unfolding(crate::specs::Written::is_dated))]
fn is_dated(choice: &Choice, calendar: Calendar, names: &Names, text: &[u8]) -> bool
    ensures { result ≡ dated_spec choice.now calendar names.now.listed.now text.now }
{
    standing(choice.order, text).is_some() || is_found(answer_of(choice, calendar, names, text))
}

/// Whether the days of a calendar begin at midnight, and not in the evening or at dawn.
fn begins_at_midnight(calendar: Calendar) -> bool
    ensures { result ≡ midnight_spec calendar }
{
    match calendar {
        Calendar::Gregorian | Calendar::Julian | Calendar::French | Calendar::Republican => true,
        _ => false,
    }
}

/// The text before a time of day at the end of one that is no date with it, and has no minus, in a calendar whose days
/// begin at midnight. Most texts end with no time.
#[tactic(auto, unfolding(crate::specs::Written::before_time))]
pub(crate) fn before_time<'a>(
    choice: &Choice,
    calendar: Calendar,
    names: &Names,
    text: &'a [u8],
) -> Option<&'a [u8]>
    ensures { seen_text result ≡ before_spec choice.now calendar names.now.listed.now text.now }
{
    if !begins_at_midnight(calendar) {
        return None;
    }
    let before = timeless(text)?;
    let (_, minus) = signs_of(text);
    if minus || is_dated(choice, calendar, names, text) {
        return None;
    }
    Some(before)
}

/// The date before a time of day.
#[tactic(auto, unfolding(crate::specs::Written::dated_text))]
fn dated_before<'a>(
    choice: &Choice,
    calendar: Calendar,
    names: &Names,
    text: &'a [u8],
) -> Option<&'a [u8]>
    ensures { unwrap_or (seen_text result) text.now ≡ dated_text_spec choice.now calendar names.now.listed.now text.now }
{
    let before = before_time(choice, calendar, names, text)?;
    if is_dated(choice, calendar, names, before) {
        return Some(before);
    }
    None
}

/// The text that is read: without a time of day behind a date.
pub fn dated_text<'a>(
    choice: &Choice,
    calendar: Calendar,
    names: &Names,
    text: &'a [u8],
) -> &'a [u8]
    ensures { result.now ≡ dated_text_spec choice.now calendar names.now.listed.now text.now }
{
    match dated_before(choice, calendar, names, text) {
        Some(before) => before,
        None => text,
    }
}

/// Appends what is written for a date as people write it: the date as registers have it, nothing where its year is short
/// and such years are refused, and the text as it is where it says no date. `calendar` is that of the record, `None`
/// where no calendar has the name that stands there; of the names those count that hold in it.
///
/// # Errors
///
/// `AllocError` where `out` could not grow; then it may have gained a part.
#[tactic(auto, using(crate::proofs::RuleLemmas::never_read))]
pub fn write_date(
    out: &mut Vec<u8>,
    text: &[u8],
    calendar: Option<Calendar>,
    names: &Names,
    choice: &Choice,
) -> Result<(), AllocError>
    ensures { OnOk result (out.new.items
        ≡ out.old.items ++ written_spec choice.now calendar names.now.listed.now text.now) }
{
    let Some(calendar) = calendar else {
        out.extend_from_slice(text)?;
        return Ok(());
    };
    match form_of(calendar) {
        Form::Civil => push_timeless(out, choice, calendar, names, text),
        Form::Roman => {
            let text = dated_text(choice, calendar, names, text);
            push_answer(out, text, answer_of(choice, calendar, names, text))
        }
        // Such dates are never read.
        Form::Other => {
            out.extend_from_slice(dated_text(choice, calendar, names, text))?;
            Ok(())
        }
    }
}
