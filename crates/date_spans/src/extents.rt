//! How much of a calendar items say.

ghost use Rattle.std.specs.Prelude.{◌≡◌, ◌≤◌, [], true, false, length, map, IfNone, IfSome};
ghost use Rattle.std.specs.List.{list_any};
ghost use Rattle.written_dates.specs.Rules.{plain_reading};
ghost use Rattle.date_spans.specs.Extents.{are_numbers as numbers_spec};
ghost use Rattle.date_spans.specs.Extents.{as_month as month_spec, day_by as day_spec, day_in_adar as in_day_spec, day_reading as reading_spec};
ghost use Rattle.date_spans.specs.Extents.{extent_of as extent_spec, if_long as long_spec, if_year as year_spec, in_adar as adar_spec};
ghost use Rattle.date_spans.specs.Extents.{is_adar as is_adar_spec, is_letter as letter_spec, is_of_month as of_month_spec};
ghost use Rattle.date_spans.specs.Extents.{month_or_year as short_spec, named_extent as named_spec, plain_extent as plain_spec};
ghost use Rattle.date_spans.specs.Extents.{said_day as said_day_spec, two_numbers as two_spec, weekday_among as among_spec};
ghost use Rattle.date_spans.specs.Extents.{with_weekday as weekday_spec, year_in as year_in_spec};
ghost use Rattle.date_spans.specs.Extents.{century as century_spec, decade as decade_spec, whole_year as whole_spec};
ghost use Rattle.date_spans.specs.Extents.{has_twelve_months as twelve_spec, if_part, is_part, part_of_century as part_of_century_spec};
ghost use Rattle.date_spans.specs.Extents.{part_of_year as part_of_year_spec};
ghost use Rattle.date_spans.specs.Extents.{are_in_order as order_spec, before_creation as before_creation_spec};
ghost use Rattle.date_spans.specs.Extents.{day_of_year as day_of_year_spec, from_creation as creation_spec};
ghost use Rattle.date_spans.specs.Extents.{from_spanish as spanish_spec, in_calendar as in_calendar_spec};
ghost use Rattle.date_spans.specs.Extents.{years_before as before_spec};

use arrayvec::ArrayVec;
use date_texts::Calendar;
use written_dates::{
    Era, InYear, Item, Number, Order, Reading, beside_weekday, has_year, is_half_year, is_long,
    is_of_calendar, is_year_first, plain_of,
};

/// A day of a year, and what has to be so for it.
#[derive(Clone, Copy)]
pub struct SaidDay {
    /// The year.
    pub year: Number,
    /// The month.
    pub month: u32,
    /// The day of the month.
    pub day: u32,
    /// Whether its month is Adar, which a leap year has twice.
    pub adar: bool,
    /// The weekday, or the day of a decade, that stands beside it.
    pub beside: Option<Item>,
}

/// A day, a month or a year.
#[derive(Clone, Copy)]
pub enum Extent {
    /// A day.
    Day(SaidDay),
    /// A year and a month.
    Month(Number, u32),
    /// Adar of a year: month 12, and month 13 too where the year has one.
    Adar(Number),
    /// A year.
    Year(Number),
    /// The last day of a month of a year.
    LastDay(Number, u32),
    /// A part of a year, from a month to a month, of some that are alike.
    PartOfYear(Number, u32, u32),
    /// From a month of a year to a month of the same one or of the next.
    Months(Number, u32, Number, u32),
    /// From a year to a year.
    Years(Number, Number),
}

/// What the signs of a text say of the numbers between them.
#[derive(Clone, Copy)]
pub struct Signs {
    /// Whether a slash stands in the text: a year and a month behind it may be two years.
    pub slashed: bool,
    /// Whether they are not those of one date in three numbers.
    pub mixed: bool,
}

/// Whether a number is a Roman one of one letter that is long.
pub fn is_letter(number: Number) -> bool
    ensures { result ≡ letter_spec number }
{
    number.year.is_none()
        && number.digits == 0
        && (number.value == 100 || number.value == 500 || number.value == 1000)
}

fn if_long(year: Number, said: Extent) -> Option<Extent>
    ensures { result ≡ long_spec year said }
{
    if is_long(year) && !is_letter(year) {
        Some(said)
    } else {
        None
    }
}

/// Whether a number may be that of a month.
fn is_of_month(number: Number) -> bool
    ensures { result ≡ of_month_spec number }
{
    !is_long(number) && !number.named && !number.day
}

/// A month and a year in numbers.
fn two_numbers(slashed: bool, order: Order, a: Number, b: Number) -> Option<Extent>
    ensures { result ≡ two_spec slashed order a b }
{
    if is_year_first(order) {
        if is_of_month(b) && !slashed {
            if_long(a, Extent::Month(a, b.value))
        } else {
            None
        }
    } else if is_of_month(a) {
        if_long(b, Extent::Month(b, a.value))
    } else {
        None
    }
}

/// A year by its number alone.
fn whole_year(year: u32) -> Number
    ensures { result ≡ whole_spec year }
{
    Number {
        value: year,
        digits: 0,
        named: false,
        year: Some(Era::Calendar),
        day: false,
    }
}

/// Some that are alike, of a year or a century.
#[derive(Clone, Copy)]
struct Parts {
    /// The place of one among them.
    place: u32,
    /// How many they are.
    count: u32,
}

/// The whole as its only part.
const WHOLE: Parts = Parts { place: 1, count: 1 };

/// One of two, three or four parts.
fn parts_of(place: u8, count: u8) -> Option<Parts>
    ensures some { IfSome result (λ parts. (is_part place count ≡ true) × (parts.place ≡ place) × (parts.count ≡ count)
        × (1 ≤ place) × (place ≤ count) × (count ≤ 4)) }
    ensures none { IfNone result (is_part place count ≡ false) }
{
    if place < 1 || place > count || count < 2 || count > 4 {
        return None;
    }
    Some(Parts {
        place: place as u32,
        count: count as u32,
    })
}

/// A part of the second to the thirtieth century, whose first year ends with 00 or 01.
fn part_of_century(parts: Parts, number: Number, first: u8) -> Option<Extent>
    requires place { 1 ≤ parts.place }
    requires count { parts.place ≤ parts.count }
    requires few { parts.count ≤ 4 }
    ensures { result ≡ part_of_century_spec parts.place parts.count number first }
{
    if is_long(number) || number.day || number.value < 2 || number.value > 30 || first > 1 {
        return None;
    }
    let year = 100 * (number.value - 1) + first as u32;
    let before = 100 * (parts.place - 1) / parts.count;
    let up_to = 100 * parts.place / parts.count;
    Some(Extent::Years(whole_year(year + before), whole_year(year + up_to - 1)))
}

/// A century.
fn century(number: Number, first: u8) -> Option<Extent>
    ensures { result ≡ century_spec number first }
{
    part_of_century(WHOLE, number, first)
}

/// One of the parts of a century.
fn century_part(place: u8, count: u8, number: Number, first: u8) -> Option<Extent>
    ensures { result ≡ if_part place count (part_of_century_spec place count number first) }
{
    part_of_century(parts_of(place, count)?, number, first)
}

/// A part of a year of twelve months.
fn part_of_year(place: u8, count: u8, year: Number) -> Option<Extent>
    ensures { result ≡ part_of_year_spec place count year }
{
    let parts = parts_of(place, count)?;
    let from = 12 * (parts.place - 1) / parts.count + 1;
    let to = 12 * parts.place / parts.count;
    if_long(year, Extent::PartOfYear(year, from, to))
}

/// Ten years, of which the first ends with 0, and not with 00, which may mean a hundred.
fn decade(number: Number) -> Option<Extent>
    ensures { result ≡ decade_spec number }
{
    let year = number.value;
    if (100..=99_999).contains(&year)
        && year % 10 == 0
        && year % 100 != 0
        && is_of_calendar(number.year)
    {
        Some(Extent::Years(whole_year(year), whole_year(year + 9)))
    } else {
        None
    }
}

/// A part of a year.
fn part_of(year: Number, from: u8, to: u8) -> Option<Extent>
    ensures { result ≡ long_spec year (Extent.Months year from year to) }
{
    if_long(year, Extent::Months(year, from as u32, year, to as u32))
}

/// A month or a year.
fn month_or_year(slashed: bool, order: Order, items: &[Item]) -> Option<Extent>
    ensures { result ≡ short_spec slashed order items.now }
{
    match items {
        [Item::Number(a)] => if_long(*a, Extent::Year(*a)),
        [Item::Month(m), Item::Number(a)] => if_long(*a, Extent::Month(*a, *m as u32)),
        [Item::Number(a), Item::Month(m)] => if_long(*a, Extent::Month(*a, *m as u32)),
        [Item::Months(from, to), Item::Number(a)] => part_of(*a, *from, *to),
        [Item::Number(a), Item::Months(from, to)] => part_of(*a, *from, *to),
        [Item::Century(first), Item::Number(n)] => century(*n, *first),
        [Item::Number(n), Item::Century(first)] => century(*n, *first),
        [
            Item::Part(place, parts),
            Item::Century(first),
            Item::Number(n),
        ] => { century_part(*place, *parts, *n, *first) }
        [
            Item::Part(place, parts),
            Item::Number(n),
            Item::Century(first),
        ] => { century_part(*place, *parts, *n, *first) }
        [Item::Part(place, parts), Item::Number(a)] => part_of_year(*place, *parts, *a),
        [Item::LastDay, Item::Month(m), Item::Number(a)] => {
            if_long(*a, Extent::LastDay(*a, *m as u32))
        }
        [Item::Number(n), Item::Decade] => decade(*n),
        [Item::Number(a), Item::Number(b)] => two_numbers(slashed, order, *a, *b),
        _ => None,
    }
}

/// Whether items are three numbers.
fn are_numbers(items: &[Item]) -> bool
    ensures { result ≡ numbers_spec items.now }
{
    match items {
        [Item::Number(_), Item::Number(_), Item::Number(_)] => true,
        _ => false,
    }
}

/// What three items say as a day, whatever signs stand between them.
#[tactic(auto, using(crate::proofs::ExtentLemmas::without_signs))]
fn unsigned_reading(order: Order, items: &[Item]) -> Option<Reading>
    ensures { result ≡ plain_reading [] order items.now }
{
    plain_of(&[], order, items)
}

/// What three items say as a day, if they are no numbers whose signs differ.
fn day_reading(mixed: bool, order: Order, items: &[Item]) -> Option<Reading>
    ensures { result ≡ reading_spec mixed order items.now }
{
    if mixed && are_numbers(items) {
        return None;
    }
    unsigned_reading(order, items)
}

/// A day by its numbers.
pub fn said_day(year: Number, month: u32, day: u32) -> SaidDay
    ensures { result ≡ said_day_spec year month day }
{
    SaidDay {
        year,
        month,
        day,
        adar: false,
        beside: None,
    }
}

/// A day whose year is long.
fn day_by(reading: Option<Reading>) -> Option<Extent>
    ensures { result ≡ day_spec reading }
{
    match reading {
        Some(Reading::Civil(year, InYear::Day(month, day))) => {
            if_long(year, Extent::Day(said_day(year, month, day)))
        }
        _ => None,
    }
}

/// What items say by numbers and months by name.
fn named_extent(signs: Signs, order: Order, items: &[Item]) -> Option<Extent>
    ensures { result ≡ named_spec signs order items.now }
{
    match month_or_year(signs.slashed, order, items) {
        Some(said) => Some(said),
        None => day_by(day_reading(signs.mixed, order, items)),
    }
}

fn is_adar(item: Item) -> bool
    ensures { result ≡ is_adar_spec item }
{
    match item {
        Item::Adar => true,
        _ => false,
    }
}

/// Whether Adar is among items.
fn has_adar(items: &[Item]) -> bool
    ensures { result ≡ list_any is_adar_spec items.now }
{
    items.iter().any(|item| is_adar(*item))
}

fn as_month(item: Item) -> Item
    ensures { result ≡ month_spec item }
{
    match item {
        Item::Adar => Item::Month(12),
        _ => item,
    }
}

/// Items in which Adar is month 12.
fn as_months(items: &[Item]) -> ArrayVec<Item, 16>
    requires { length items.now ≤ 16 }
    ensures { result.items ≡ map month_spec items.now }
{
    let mut months: ArrayVec<Item, 16> = ArrayVec::new();
    'items: for item in items {
        let _ = months.try_push(as_month(*item));
    }
    months
}

fn day_in_adar(said: SaidDay) -> SaidDay
    ensures { result ≡ in_day_spec said }
{
    SaidDay {
        year: said.year,
        month: said.month,
        day: said.day,
        adar: true,
        beside: said.beside,
    }
}

/// What is said of Adar where it is said of month 12.
fn in_adar(said: Option<Extent>) -> Option<Extent>
    ensures { result ≡ adar_spec true said }
{
    match said {
        Some(Extent::Month(year, _)) => Some(Extent::Adar(year)),
        Some(Extent::Day(said)) => Some(Extent::Day(day_in_adar(said))),
        _ => None,
    }
}

/// What items without a weekday say.
#[tactic(auto, using(crate::proofs::ExtentLemmas::no_adar))]
pub fn plain_extent(signs: Signs, order: Order, items: &[Item]) -> Option<Extent>
    requires { length items.now ≤ 16 }
    ensures { result ≡ plain_spec signs order items.now }
{
    if !has_adar(items) {
        return named_extent(signs, order, items);
    }
    let months = as_months(items);
    in_adar(named_extent(signs, order, months.as_slice()))
}

/// The weekday, or the day of a decade, in front of items or behind three.
pub fn weekday_among(items: &[Item]) -> Option<Item>
    ensures { result ≡ among_spec items.now }
{
    match items {
        [Item::Weekday(weekday), ..] => Some(Item::Weekday(*weekday)),
        [Item::DecadeDay(number), ..] => Some(Item::DecadeDay(*number)),
        [_, _, _, Item::Weekday(weekday)] => Some(Item::Weekday(*weekday)),
        [_, _, _, Item::DecadeDay(number)] => Some(Item::DecadeDay(*number)),
        _ => None,
    }
}

/// What is said with a weekday, which stands beside a day alone.
pub fn with_weekday(weekday: Option<Item>, said: Option<Extent>) -> Option<Extent>
    ensures { result ≡ weekday_spec weekday said }
{
    let Some(item) = weekday else {
        return said;
    };
    match said {
        Some(Extent::Day(day)) => Some(Extent::Day(SaidDay {
            year: day.year,
            month: day.month,
            day: day.day,
            adar: day.adar,
            beside: Some(item),
        })),
        _ => None,
    }
}

/// The year of what is said.
pub fn year_in(said: Extent) -> Number
    ensures { result ≡ year_in_spec said }
{
    match said {
        Extent::Day(day) => day.year,
        Extent::Month(year, _) => year,
        Extent::Adar(year) => year,
        Extent::Year(year) => year,
        Extent::LastDay(year, _) => year,
        Extent::PartOfYear(year, _, _) => year,
        Extent::Months(year, _, _, _) => year,
        Extent::Years(year, _) => year,
    }
}

/// So many years before, by the calendar's own count, written in full.
fn years_before(years: u32, number: Number) -> Number
    ensures { result ≡ before_spec years number }
{
    Number {
        value: number.value.saturating_sub(years),
        digits: 4,
        named: number.named,
        year: Some(Era::Calendar),
        day: number.day,
    }
}

/// The same day of another year.
pub fn day_of_year(said: SaidDay, year: Number) -> SaidDay
    ensures { result ≡ day_of_year_spec said year }
{
    SaidDay {
        year,
        month: said.month,
        day: said.day,
        adar: said.adar,
        beside: said.beside,
    }
}

/// What is said of a Spanish year, of 38 years before.
fn from_spanish(said: Extent) -> Option<Extent>
    ensures { result ≡ spanish_spec said }
{
    match said {
        Extent::Day(day) => Some(Extent::Day(day_of_year(day, years_before(38, day.year)))),
        Extent::Month(year, month) => Some(Extent::Month(years_before(38, year), month)),
        Extent::LastDay(year, month) => Some(Extent::LastDay(years_before(38, year), month)),
        Extent::Year(year) => Some(Extent::Year(years_before(38, year))),
        Extent::PartOfYear(year, from, to) => {
            Some(Extent::PartOfYear(years_before(38, year), from, to))
        }
        Extent::Months(year, from, last, to) => Some(Extent::Months(
            years_before(38, year),
            from,
            years_before(38, last),
            to,
        )),
        _ => None,
    }
}

/// How many years before the year of a month one from the creation is counted.
fn before_creation(month: u32) -> u32
    ensures { result ≡ before_creation_spec month }
{
    if month >= 9 { 5_509 } else { 5_508 }
}

/// What is said of a year from the creation, by the calendar's own count.
fn from_creation(said: Extent) -> Option<Extent>
    ensures { result ≡ creation_spec said }
{
    match said {
        Extent::Day(day) => {
            let year = years_before(before_creation(day.month), day.year);
            Some(Extent::Day(day_of_year(day, year)))
        }
        Extent::Month(year, month) => Some(Extent::Month(
            years_before(before_creation(month), year),
            month,
        )),
        Extent::LastDay(year, month) => Some(Extent::LastDay(
            years_before(before_creation(month), year),
            month,
        )),
        Extent::Year(year) => Some(Extent::Months(
            years_before(5_509, year),
            9,
            years_before(5_508, year),
            8,
        )),
        Extent::Months(year, from, last, to) => {
            if before_creation(from) != before_creation(to) {
                return None;
            }
            Some(Extent::Months(
                years_before(before_creation(from), year),
                from,
                years_before(before_creation(to), last),
                to,
            ))
        }
        _ => None,
    }
}

/// What is said of a year of an era, by the calendar's own count.
fn in_calendar(era: Option<Era>, said: Extent) -> Option<Extent>
    ensures { result ≡ in_calendar_spec era said }
{
    match era {
        Some(Era::Spanish) => from_spanish(said),
        Some(Era::Creation) => from_creation(said),
        _ => Some(said),
    }
}

/// Whether each year of a calendar has twelve months, and begins with the first.
fn has_twelve_months(calendar: Calendar) -> bool
    ensures { result ≡ twelve_spec calendar }
{
    matches!(
        calendar,
        Calendar::Gregorian | Calendar::Julian | Calendar::Islamic
    )
}

/// Whether months of one year stand in this order in it; and parts are those of twelve.
fn are_in_order(calendar: Calendar, said: Extent) -> bool
    ensures { result ≡ order_spec calendar said }
{
    match (calendar, said) {
        (Calendar::Hebrew, Extent::Months(_, from, _, to)) => {
            (from < 7 && to < 7) || (from >= 7 && to >= 7)
        }
        (_, Extent::PartOfYear(_, _, _)) => has_twelve_months(calendar),
        _ => true,
    }
}

/// What is said, where the calendar can have its year in words, and the year is written whole.
pub fn if_year(calendar: Calendar, said: Option<Extent>) -> Option<Extent>
    ensures { result ≡ year_spec calendar said }
{
    let said = said?;
    let year = year_in(said);
    if has_year(calendar, year.value as u64)
        && !is_half_year(calendar, year)
        && are_in_order(calendar, said)
    {
        in_calendar(year.year, said)
    } else {
        None
    }
}

/// What items without words say.
#[tactic(auto, using(crate::proofs::ExtentLemmas::few_beside))]
pub fn extent_of(calendar: Calendar, signs: Signs, order: Order, items: &[Item]) -> Option<Extent>
    requires { length items.now ≤ 16 }
    ensures { result ≡ extent_spec calendar signs order items.now }
{
    let plain = plain_extent(signs, order, beside_weekday(items));
    if_year(calendar, with_weekday(weekday_among(items), plain))
}
