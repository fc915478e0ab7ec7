//! The items of a text: numbers, months, marks, and what names a day by a feast.

ghost use Rattle.std.specs.Prelude.{◌≡◌, ◌<◌, ◌≤◌, ◌+◌, ◌∷◌, [], ◌++◌, true, false, drop, length, Some, None, IfSome, IfNone, List};
ghost use Rattle.std.specs.Prelude.{option_to_list};
ghost use Rattle.written_dates.specs.Tokens.{piece};
ghost use Rattle.written_dates.specs.private.Keys.{first_text};
ghost use Rattle.written_dates.specs.Names.{names_in};
ghost use Rattle.written_dates.specs.Parts.{parts};
ghost use Rattle.written_dates.specs.Items.{number_of_digits as digits_spec, number_of as number_spec};
ghost use Rattle.written_dates.specs.Items.{longest as longest_spec, is_long as long_spec, items, before, meant};
ghost use Rattle.written_dates.specs.Items.{is_of_calendar as of_calendar_spec};
ghost use Rattle.written_dates.specs.Unknown.{first_unknown};
ghost use Rattle.written_dates.specs.Sums.{adds_up as adds_up_spec, found_items, joined_item as joined_spec};
ghost use Rattle.written_dates.specs.Sums.{before_year as before_year_spec, sum_of as sum_of_spec};
ghost use Rattle.written_dates.specs.Sums.{behind_year as behind_year_spec, has_sum as has_sum_spec, has_year_of as has_year_spec};
ghost use Rattle.written_dates.specs.Sums.{with_day as with_day_spec, with_year as with_year_spec};
ghost use Rattle.written_dates.specs.private.ItemViews.{resumed};

use crate::meanings::{Era, Mark, Meaning, Name, Relation, Word};
use crate::names::{Names, key_of_word};
use crate::parts::{next_part, stands};
use crate::roman::roman_number;
use crate::tokens::{Kind, Token};
use arrayvec::ArrayVec;
use church_year::{Feast, Season};
use date_texts::Calendar;
use day_numbers::Weekday;

/// A number, and with how many digits it stands; none where it is a Roman one or a name.
#[derive(Clone, Copy)]
pub struct Number {
    /// The number.
    pub value: u32,
    /// How many digits it has.
    pub digits: usize,
    /// Whether it stands by name.
    pub named: bool,
    /// What years it counts, where a word for year stands beside it.
    pub year: Option<Era>,
    /// Whether a word for day stands beside it.
    pub day: bool,
}

/// A part of a date.
#[derive(Clone, Copy)]
pub enum Item {
    /// A number.
    Number(Number),
    /// A word for year.
    YearWord(Era),
    /// A word for day.
    DayWord,
    /// A part of a year, from a month to a month.
    Months(u8, u8),
    /// A part of a year or a century, by its place among so many that are alike.
    Part(u8, u8),
    /// The last day of a month.
    LastDay,
    /// A century, whose first year ends with 00 or 01.
    Century(u8),
    /// Ten years.
    Decade,
    /// A month by name.
    Month(u8),
    /// Adar, which is month 12, or months 12 and 13.
    Adar,
    /// A mark.
    Mark(Mark),
    /// A day of the week.
    Weekday(Weekday),
    /// A day of the decade in the calendar of the French Republic.
    DecadeDay(u8),
    /// Which day is meant where a feast is named.
    Relation(Relation),
    /// A feast.
    Feast(Feast),
    /// Sundays that are numbered.
    Sundays(Season),
    /// A word of texts that say no single day.
    Word(Word),
}

/// The number that one to nine digits spell.
pub(crate) fn number_of_digits(text: &[u8]) -> Option<Number>
    ensures { result ≡ digits_spec text.now }
{
    if text.len() > 9 {
        return None;
    }
    let mut value: u32 = 0;
    'digits: for digit in text {
        if !digit.is_ascii_digit() {
            return None;
        }
        value = 10 * value + (*digit - b'0') as u32;
    }
    Some(Number {
        value,
        digits: text.len(),
        named: false,
        year: None,
        day: false,
    })
}

/// The number that a part is.
fn number_of(part: Token) -> Option<Number>
    ensures { result ≡ number_spec (piece part.entry) }
{
    if let Kind::Digit = part.kind {
        return number_of_digits(part.text);
    }
    match roman_number(part.text) {
        Some(value) => Some(Number {
            value,
            digits: 0,
            named: false,
            year: None,
            day: false,
        }),
        None => None,
    }
}

/// The longer of the best name so far, with how many parts it has, what it means and what follows it, and of this one, if
/// it holds in the calendar and stands in front of the text.
fn longer<'a>(
    text: &'a [u8],
    count: usize,
    meaning: Meaning,
    rest: &'a [u8],
    name: &Name,
    calendar: Calendar,
) -> (usize, Meaning, &'a [u8])
    requires rest { parts rest.now ≡ drop count (parts text.now) }
    requires shorter { count + length rest.now ≤ length text.now }
    ensures value { (result.0, result.1)
        ≡ longest_spec (parts text.now) (count, meaning) (names_in calendar (name.now ∷ [])) }
    ensures rest { parts result.2.now ≡ drop result.0 (parts text.now) }
    ensures shorter { result.0 + length result.2.now ≤ length text.now }
{
    if name.calendars.has(calendar) {
        if let Some((more, after)) = stands(name.text, text) {
            if count < more {
                return (more, name.meaning, after);
            }
        }
    }
    (count, meaning, rest)
}

/// The longest name that stands in front of a text, of those that hold in the calendar: how many parts it has, or 0
/// where none stands there, what it means, and what follows. Its first part has these bytes.
fn longest<'a>(
    text: &'a [u8],
    first: &[u8],
    names: &Names,
    calendar: Calendar,
) -> (usize, Meaning, &'a [u8])
    requires { first.now ≡ first_text (parts text.now) }
    ensures value { (result.0, result.1)
        ≡ longest_spec (parts text.now) (0, Meaning.Nothing) (names_in calendar names.now.listed.now) }
    ensures rest { parts result.2.now ≡ drop result.0 (parts text.now) }
    ensures shorter { result.0 + length result.2.now ≤ length text.now }
{
    let mut count = 0;
    let mut meaning = Meaning::Nothing;
    let mut rest = text;
    let mut place = names.first_with(key_of_word(first));
    'names: while place < names.listed.len() {
        (count, meaning, rest) = longer(text, count, meaning, rest, &names.listed[place], calendar);
        place = names.next_behind(place);
    }
    (count, meaning, rest)
}

/// Whether no word for the years of another era stands beside a number.
pub fn is_of_calendar(era: Option<Era>) -> bool
    ensures { result ≡ of_calendar_spec era }
{
    match era {
        Some(Era::Spanish) | Some(Era::Creation) => false,
        _ => true,
    }
}

/// Whether a number can be no day and no month.
pub fn is_long(number: Number) -> bool
    ensures { result ≡ long_spec number }
{
    number.year.is_some() || number.digits >= 3 || (number.digits == 0 && number.value >= 100)
}

/// The item that a name means, if it means one.
fn item_of(meaning: Meaning) -> Option<Item>
    ensures { option_to_list result ≡ meant meaning }
{
    match meaning {
        Meaning::Nothing => None,
        Meaning::Month(month) => Some(Item::Month(month)),
        Meaning::Adar => Some(Item::Adar),
        Meaning::Number(value) => Some(Item::Number(Number {
            value,
            digits: 0,
            named: true,
            year: None,
            day: false,
        })),
        Meaning::YearWord(era) => Some(Item::YearWord(era)),
        Meaning::DayWord => Some(Item::DayWord),
        Meaning::Months(first, last) => Some(Item::Months(first, last)),
        Meaning::Part(place, parts) => Some(Item::Part(place, parts)),
        Meaning::LastDay => Some(Item::LastDay),
        Meaning::Century(first) => Some(Item::Century(first)),
        Meaning::Decade => Some(Item::Decade),
        Meaning::Mark(mark) => Some(Item::Mark(mark)),
        Meaning::Weekday(weekday) => Some(Item::Weekday(weekday)),
        Meaning::DecadeDay(number) => Some(Item::DecadeDay(number)),
        Meaning::Relation(relation) => Some(Item::Relation(relation)),
        Meaning::Feast(feast) => Some(Item::Feast(feast)),
        Meaning::Sundays(season) => Some(Item::Sundays(season)),
        Meaning::Word(word) => Some(Item::Word(word)),
    }
}

/// The item in front of a text, if it means one, and what follows; nothing where a word is not known.
pub(crate) fn item_in_front<'a>(
    text: &'a [u8],
    part: Token,
    after: &'a [u8],
    names: &Names,
    calendar: Calendar,
) -> Option<(Option<Item>, &'a [u8])>
    requires first { parts text.now ≡ piece part ∷ parts after.now }
    requires shorter { length after.now < length text.now }
    ensures some { IfSome result (λ front. items (names_in calendar names.now.listed.now) 0 (parts text.now)
        ≡ before (option_to_list front.0) (items (names_in calendar names.now.listed.now) 0 (parts front.1.now))) }
    ensures shorter { IfSome result (λ front. length front.1.now < length text.now) }
    ensures none { IfNone result (items (names_in calendar names.now.listed.now) 0 (parts text.now) ≡ None) }
    ensures known { IfSome result (λ front. first_unknown (names_in calendar names.now.listed.now) 0 (parts text.now)
        ≡ first_unknown (names_in calendar names.now.listed.now) 0 (parts front.1.now)) }
    ensures unknown { IfNone result
        (first_unknown (names_in calendar names.now.listed.now) 0 (parts text.now) ≡ Some (piece part.entry)) }
{
    let (count, meaning, rest) = longest(text, part.text, names, calendar);
    if count > 0 {
        return Some((item_of(meaning), rest));
    }
    match number_of(part) {
        Some(number) => Some((Some(Item::Number(number)), after)),
        None => None,
    }
}

impl Default for Item {
    fn default() -> Item {
        Item::Month(0)
    }
}

/// Whether two numbers by name are one number: thousands and one below 1000, or hundreds and one below 100.
fn adds_up(a: Number, b: Number) -> bool
    ensures { result ≡ adds_up_spec a b }
{
    a.named
        && b.named
        && 0 < a.value
        && a.value < 10_000
        && 0 < b.value
        && ((a.value % 1000 == 0 && b.value < 1000) || (a.value % 100 == 0 && b.value < 100))
}

/// Whether a year of an era, if it is one, is a year that this has.
fn has_sum(era: Option<Era>, year: u32) -> bool
    ensures { result ≡ has_sum_spec era year }
{
    match era {
        None => true,
        Some(era) => has_year_of(era, year),
    }
}

/// The one number that two numbers are, if they add up; as a year one that its era has.
fn sum_of(a: Number, b: Number) -> Option<Item>
    ensures { result ≡ sum_of_spec a b }
{
    if !adds_up(a, b) || !has_sum(a.year, a.value + b.value) {
        return None;
    }
    Some(Item::Number(Number {
        value: a.value + b.value,
        digits: 0,
        named: true,
        year: a.year,
        day: a.day,
    }))
}

/// A number beside a word for year.
fn with_year(era: Era, n: Number) -> Item
    ensures { result ≡ with_year_spec era n }
{
    Item::Number(Number {
        value: n.value,
        digits: n.digits,
        named: n.named,
        year: Some(era),
        day: n.day,
    })
}

/// A number beside a word for day, unless it is long.
fn with_day(n: Number) -> Option<Item>
    ensures { result ≡ with_day_spec n }
{
    if is_long(n) {
        return None;
    }
    Some(Item::Number(Number {
        value: n.value,
        digits: n.digits,
        named: n.named,
        year: n.year,
        day: true,
    }))
}

/// Whether an era has a year.
fn has_year_of(era: Era, year: u32) -> bool
    ensures { result ≡ has_year_spec era year }
{
    match era {
        Era::Calendar => true,
        Era::Spanish => 38 < year && year <= 1_460,
        Era::Creation => 5_508 < year && year <= 7_208,
    }
}

/// The year behind a word for year, if its era has it.
fn behind_year(era: Era, n: Number) -> Option<Item>
    ensures { result ≡ behind_year_spec era n }
{
    if has_year_of(era, n.value) {
        Some(with_year(era, n))
    } else {
        None
    }
}

/// The year before a word for year, if it is long.
fn before_year(era: Era, n: Number) -> Option<Item>
    ensures { result ≡ before_year_spec era n }
{
    if !is_long(n) {
        return None;
    }
    match era {
        Era::Calendar => Some(Item::Number(n)),
        _ => behind_year(era, n),
    }
}

/// The one item that two items are, if they belong together.
fn joined_item(a: Item, b: Item) -> Option<Item>
    ensures { result ≡ joined_spec a b }
{
    match a {
        Item::Number(a) => match b {
            Item::Number(b) => sum_of(a, b),
            Item::YearWord(era) => before_year(era, a),
            Item::DayWord => with_day(a),
            _ => None,
        },
        Item::YearWord(era) => match b {
            Item::Number(b) => behind_year(era, b),
            _ => None,
        },
        Item::DayWord => match b {
            Item::Number(b) => with_day(b),
            Item::Weekday(weekday) => Some(Item::Weekday(weekday)),
            Item::Feast(feast) => Some(Item::Feast(feast)),
            _ => None,
        },
        _ => None,
    }
}

/// Adds an item, and says whether there was room.
fn try_add<const N: usize>(found: &mut ArrayVec<Item, N>, item: Item) -> bool
    ensures room { result ≡ true → found.new.items ≡ found.old.items ++ item ∷ [] }
    ensures full { result ≡ false → N ≤ length found.old.items }
{
    found.try_push(item).is_ok()
}

/// Adds an item, or joins it with the last one where they belong together, and says whether there was room.
fn push_item<const N: usize>(found: &mut ArrayVec<Item, N>, item: Item) -> bool
    ensures room { result ≡ true → (rest : List Item)
        → resumed found.old.items (item ∷ rest) ≡ resumed found.new.items rest }
    ensures full { result ≡ false → (rest : List Item) → N < length (resumed found.old.items (item ∷ rest)) }
{
    let Some(last) = found.pop() else {
        return try_add(found, item);
    };
    if let Some(sum) = joined_item(last, item) {
        return try_add(found, sum);
    }
    if !try_add(found, last) {
        return false;
    }
    try_add(found, item)
}

/// Adds an item, if there is one, and says whether there was room.
fn add_item<const N: usize>(found: &mut ArrayVec<Item, N>, item: Option<Item>) -> bool
    ensures room { result ≡ true → (rest : List Item)
        → resumed found.old.items (option_to_list item ++ rest) ≡ resumed found.new.items rest }
    ensures full { result ≡ false → (rest : List Item)
        → N < length (resumed found.old.items (option_to_list item ++ rest)) }
{
    match item {
        Some(item) => push_item(found, item),
        None => true,
    }
}

/// The items of a text in a calendar, in which those that belong together are one; `None` where a word is not known, or
/// more than `N` items stand.
pub fn items_of<const N: usize>(
    text: &[u8],
    names: &Names,
    calendar: Calendar,
) -> Option<ArrayVec<Item, N>>
    ensures some { IfSome result (λ found.
        found_items calendar names.now.listed.now text.now ≡ Some found.items) }
    ensures none { IfNone result ((found : List Item)
        → found_items calendar names.now.listed.now text.now ≡ Some found → N < length found) }
{
    let mut found: ArrayVec<Item, N> = ArrayVec::new();
    let mut rest = text;
    'items: while let Some((part, after)) = next_part(rest) {
        let Some((item, behind)) = item_in_front(rest, part, after, names, calendar) else {
            return None;
        };
        if !add_item(&mut found, item) {
            return None;
        }
        rest = behind;
    }
    Some(found)
}
