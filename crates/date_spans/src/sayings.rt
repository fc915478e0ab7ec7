//! What items with words say.

ghost use Rattle.std.specs.Prelude.{◌≡◌, ◌≤◌, ◌+◌, ◌++◌, drop, length, option_map, position};
ghost use Rattle.date_spans.specs.Extents.{year_in as year_spec};
ghost use Rattle.date_spans.specs.FeastSides.{bare_side as bare_spec};
ghost use Rattle.date_spans.specs.Sayings.{all_alike as alike_spec, before_slash as slash_spec, both as both_spec};
ghost use Rattle.date_spans.specs.Sayings.{by_word as word_spec};
ghost use Rattle.date_spans.specs.Sayings.{completed as completed_spec, dual_by as dual_spec, undated as undated_spec};
ghost use Rattle.date_spans.specs.Sayings.{is_about as about_spec, is_about_word as about_word_spec};
ghost use Rattle.date_spans.specs.Sayings.{is_before_new_year as before_spec, is_between as between_spec};
ghost use Rattle.date_spans.specs.Sayings.{is_dual_by as is_dual_by_spec, is_dual_of as is_dual_spec};
ghost use Rattle.date_spans.specs.Sayings.{is_julian as julian_spec, is_next as next_spec, kind_of as kind_spec};
ghost use Rattle.date_spans.specs.Sayings.{left_of as left_spec, left_side as side_spec, next_year as next_year_spec};
ghost use Rattle.date_spans.specs.Sayings.{of_dual as of_dual_spec, opens_sides as opens_spec, parted as parted_spec};
ghost use Rattle.date_spans.specs.Sayings.{parts_sides as parts_spec, parts_word as parts_word_spec};
ghost use Rattle.date_spans.specs.Sayings.{piece as piece_spec, range_of as range_spec, said_by as said_spec};
ghost use Rattle.date_spans.specs.Sayings.{said_of_dual as said_dual_spec, said_of_sides as sides_spec};
ghost use Rattle.date_spans.specs.Sayings.{ends_with_year as ends_spec, in_later_year as later_spec};
ghost use Rattle.date_spans.specs.Sayings.{is_next_in_short as short_next_spec};
ghost use Rattle.date_spans.specs.Sayings.{said_of_short as said_short_spec, short_by as short_spec};
ghost use Rattle.date_spans.specs.Sayings.{without_about as without_spec};
ghost use Rattle.date_spans.specs.Sayings.{are_mixed as mixed_spec, is_long_number as long_number_spec};
ghost use Rattle.date_spans.specs.Sayings.{is_of_other_era as other_era_spec};
ghost use Rattle.std.specs.List.{list_any};

use crate::extents::{
    Extent, Signs, day_of_year, extent_of, if_year, weekday_among, with_weekday, year_in,
};
use crate::feast_sides::{bare_side, in_year_of, side_of};
use arrayvec::ArrayVec;
use date_texts::Calendar;
use written_dates::{Item, Number, Order, Relation, Word, beside_weekday, is_long, is_of_calendar};

/// The signs of two sides.
#[derive(Clone, Copy)]
pub struct RangeSigns {
    /// Those of the left side.
    pub left: Signs,
    /// Those of the left side with what it lacks of the right one.
    pub shared: Signs,
    /// Those of the right side.
    pub right: Signs,
}

/// What a text says.
#[derive(Clone, Copy)]
pub enum Said {
    /// This much.
    One(Extent),
    /// From the first to the last.
    Range(Extent, Extent),
    /// Between the first and the last.
    Between(Extent, Extent),
    /// What lies before it.
    Before(Extent),
    /// What lies after it.
    After(Extent),
    /// From it on.
    From(Extent),
    /// Up to it.
    Until(Extent),
    /// No date is known.
    Undated,
}

/// What kind of saying it is.
#[derive(Clone, Copy, PartialEq, Eq, Debug)]
pub enum Kind {
    /// A day, a month or a year.
    One,
    /// From one to another.
    Range,
    /// Between two.
    Between,
    /// What lies before.
    Before,
    /// What lies after.
    After,
    /// From then on.
    From,
    /// Up to then.
    Until,
    /// No date is known.
    Undated,
    /// Nothing that is read.
    Unread,
}

/// The kind of a saying.
pub fn kind_of(said: Said) -> Kind
    ensures { result ≡ kind_spec said }
{
    match said {
        Said::One(_) => Kind::One,
        Said::Range(_, _) => Kind::Range,
        Said::Between(_, _) => Kind::Between,
        Said::Before(_) => Kind::Before,
        Said::After(_) => Kind::After,
        Said::From(_) => Kind::From,
        Said::Until(_) => Kind::Until,
        Said::Undated => Kind::Undated,
    }
}

/// Whether a word says `about`.
fn is_about_word(word: Word) -> bool
    ensures { result ≡ about_word_spec word }
{
    match word {
        Word::About => true,
        _ => false,
    }
}

/// Whether an item says `about`.
pub fn is_about(item: Item) -> bool
    ensures { result ≡ about_spec item }
{
    match item {
        Item::Word(word) => is_about_word(word),
        _ => false,
    }
}

/// Items behind a word for `about`, if it is in front.
fn without_about(items: &[Item]) -> &[Item]
    ensures { result.now ≡ without_spec items.now }
{
    match items {
        [first, rest @ ..] if is_about(*first) => rest,
        _ => items,
    }
}

/// What a side says by itself.
fn piece(calendar: Calendar, signs: Signs, order: Order, items: &[Item]) -> Option<Extent>
    requires { length items.now ≤ 16 }
    ensures { result ≡ piece_spec calendar signs order items.now }
{
    side_of(calendar, signs, order, without_about(items))
}

fn both(between: bool, first: Option<Extent>, last: Option<Extent>) -> Option<Said>
    ensures { result ≡ both_spec between first last }
{
    match (first, last) {
        (Some(first), Some(last)) => {
            if between {
                Some(Said::Between(first, last))
            } else {
                Some(Said::Range(first, last))
            }
        }
        _ => None,
    }
}

/// What items say with those behind them that another side has more.
fn joined(
    calendar: Calendar,
    signs: Signs,
    order: Order,
    items: &[Item],
    lacked: &[Item],
) -> Option<Extent>
    requires { length items.now + length lacked.now ≤ 16 }
    ensures { result ≡ bare_spec calendar signs order (items.now ++ lacked.now) }
{
    let mut whole: ArrayVec<Item, 16> = ArrayVec::new();
    let _ = whole.try_extend_from_slice(items);
    let _ = whole.try_extend_from_slice(lacked);
    bare_side(calendar, signs, order, whole.as_slice())
}

/// What items say with those of the right side behind as many as they are.
#[tactic(auto, using(crate::proofs::ExtentLemmas::complete_already))]
fn with_lacked(
    calendar: Calendar,
    signs: Signs,
    order: Order,
    items: &[Item],
    right: &[Item],
) -> Option<Extent>
    requires items { length items.now ≤ 16 }
    requires right { length right.now ≤ 16 }
    ensures { result ≡ bare_spec calendar signs order (items.now ++ drop (length items.now) right.now) }
{
    if items.len() >= right.len() {
        return bare_side(calendar, signs, order, items);
    }
    let (_, lacked) = right.split_at(items.len());
    joined(calendar, signs, order, items, lacked)
}

/// What items say with what they lack of those of the right side, or a feast in its year.
fn completed(
    calendar: Calendar,
    signs: Signs,
    order: Order,
    items: &[Item],
    right: &[Item],
) -> Option<Extent>
    requires items { length items.now ≤ 16 }
    requires right { length right.now ≤ 16 }
    ensures { result ≡ completed_spec calendar signs order items.now right.now }
{
    if items.is_empty() {
        return None;
    }
    match with_lacked(calendar, signs, order, items, right) {
        Some(said) => Some(said),
        None => in_year_of(calendar, items, right),
    }
}

/// What the left of two sides says.
#[tactic(auto, using(crate::proofs::ExtentLemmas::few_beside))]
pub fn left_of(
    calendar: Calendar,
    signs: RangeSigns,
    order: Order,
    left: &[Item],
    right: &[Item],
) -> Option<Extent>
    requires left { length left.now ≤ 16 }
    requires right { length right.now ≤ 16 }
    ensures { result ≡ left_spec calendar signs order left.now right.now }
{
    if let Some(said) = side_of(calendar, signs.left, order, left) {
        return Some(said);
    }
    let said = completed(
        calendar,
        signs.shared,
        order,
        beside_weekday(left),
        beside_weekday(right),
    );
    if_year(calendar, with_weekday(weekday_among(left), said))
}

/// Whether a number is long.
fn is_long_number(item: Item) -> bool
    ensures { result ≡ long_number_spec item }
{
    match item {
        Item::Number(number) => is_long(number),
        _ => false,
    }
}

/// Whether a number is a year of another era than the calendar's.
fn is_of_other_era(item: Item) -> bool
    ensures { result ≡ other_era_spec item }
{
    match item {
        Item::Number(number) => !is_of_calendar(number.year),
        _ => false,
    }
}

/// Whether a number among items is long.
fn has_long_number(items: &[Item]) -> bool
    ensures { result ≡ list_any long_number_spec items.now }
{
    items.iter().any(|item| is_long_number(*item))
}

/// Whether a year of another era is among items.
fn has_other_era(items: &[Item]) -> bool
    ensures { result ≡ list_any other_era_spec items.now }
{
    items.iter().any(|item| is_of_other_era(*item))
}

/// Whether the left of two sides has a year, and one of them has years of another era, but not both.
fn are_mixed(left: &[Item], right: &[Item]) -> bool
    ensures { result ≡ mixed_spec left.now right.now }
{
    if !has_long_number(left) {
        return false;
    }
    if has_other_era(left) {
        !has_other_era(right)
    } else {
        has_other_era(right)
    }
}

/// From one side to the other, or between both.
fn range_of(
    between: bool,
    calendar: Calendar,
    signs: RangeSigns,
    order: Order,
    left: &[Item],
    right: &[Item],
) -> Option<Said>
    requires left { length left.now ≤ 16 }
    requires right { length right.now ≤ 16 }
    ensures { result ≡ range_spec between calendar signs order left.now right.now }
{
    if are_mixed(left, right) {
        return None;
    }
    let first = left_of(
        calendar,
        signs,
        order,
        without_about(left),
        without_about(right),
    );
    both(between, first, piece(calendar, signs.right, order, right))
}

/// Whether a word parts two sides.
fn parts_word(between: bool, word: Word) -> bool
    ensures { result ≡ parts_word_spec between word }
{
    match word {
        Word::To => true,
        Word::And => between,
        _ => false,
    }
}

/// Whether an item parts two sides.
fn parts_sides(between: bool, item: Item) -> bool
    ensures { result ≡ parts_spec between item }
{
    match item {
        Item::Word(word) => parts_word(between, word),
        _ => false,
    }
}

/// Where the first word stands that parts two sides.
fn word_place(between: bool, items: &[Item]) -> Option<usize>
    ensures { result ≡ position (parts_spec between) items.now }
{
    items.iter().position(|item| parts_sides(between, *item))
}

/// The same signs for both sides.
fn all_alike(signs: Signs) -> RangeSigns
    ensures { result ≡ alike_spec signs }
{
    RangeSigns {
        left: signs,
        shared: signs,
        right: signs,
    }
}

/// Two sides with a word between them, or one side alone.
fn parted(
    between: bool,
    calendar: Calendar,
    signs: Signs,
    order: Order,
    alone: Option<Said>,
    items: &[Item],
) -> Option<Said>
    requires { length items.now ≤ 16 }
    ensures { result ≡ parted_spec between calendar signs order alone items.now }
{
    match word_place(between, items) {
        None => alone,
        Some(place) => range_of(
            between,
            calendar,
            all_alike(signs),
            order,
            &items[..place],
            &items[place + 1..],
        ),
    }
}

fn one(said: Option<Extent>) -> Option<Said>
    ensures { result ≡ option_map Said.One said }
{
    match said {
        Some(said) => Some(Said::One(said)),
        None => None,
    }
}

fn from(said: Option<Extent>) -> Option<Said>
    ensures { result ≡ option_map Said.From said }
{
    match said {
        Some(said) => Some(Said::From(said)),
        None => None,
    }
}

/// How the items of a text are read: in a calendar and an order, with the signs that the text has as one side, and as
/// two that a word parts.
#[derive(Clone, Copy)]
pub struct Way {
    /// The calendar.
    pub calendar: Calendar,
    /// The order of three numbers.
    pub order: Order,
    /// The signs of one side.
    pub one: Signs,
    /// The signs of two.
    pub two: Signs,
}

/// That no date is known, if nothing stands behind its word.
fn undated(rest: &[Item]) -> Option<Said>
    ensures { result ≡ undated_spec rest.now }
{
    if rest.is_empty() {
        Some(Said::Undated)
    } else {
        None
    }
}

/// What items with this word in front say.
fn by_word(way: Way, word: Word, rest: &[Item], whole: &[Item]) -> Option<Said>
    requires rest { length rest.now ≤ 16 }
    requires whole { length whole.now ≤ 16 }
    ensures { result ≡ word_spec way.calendar way.one way.two way.order word rest.now whole.now }
{
    match word {
        Word::To => Some(Said::Until(piece(way.calendar, way.one, way.order, rest)?)),
        Word::From => {
            let alone = from(piece(way.calendar, way.one, way.order, rest));
            parted(false, way.calendar, way.two, way.order, alone, rest)
        }
        Word::Between => parted(true, way.calendar, way.two, way.order, None, rest),
        Word::And => None,
        Word::Undated => undated(rest),
        Word::About => {
            let alone = one(piece(way.calendar, way.one, way.order, whole));
            parted(false, way.calendar, way.two, way.order, alone, whole)
        }
    }
}

/// What the items of a text say.
pub fn said_by(way: Way, items: &[Item]) -> Option<Said>
    requires { length items.now ≤ 16 }
    ensures { result ≡ said_spec way.calendar way.one way.two way.order items.now }
{
    match items {
        [Item::Relation(Relation::Before), rest @ ..] => {
            Some(Said::Before(piece(way.calendar, way.one, way.order, rest)?))
        }
        [Item::Relation(Relation::After), rest @ ..] => {
            Some(Said::After(piece(way.calendar, way.one, way.order, rest)?))
        }
        [Item::Word(word), rest @ ..] => by_word(way, *word, rest, items),
        _ => {
            let alone = one(piece(way.calendar, way.one, way.order, items));
            parted(false, way.calendar, way.two, way.order, alone, items)
        }
    }
}

/// Whether a word may stand in front of the left of two sides.
fn opens_sides(word: Word) -> bool
    ensures { result ≡ opens_spec word }
{
    match word {
        Word::From | Word::Between => true,
        _ => false,
    }
}

/// Items behind a word that opens the left of two sides, if it is in front.
fn left_side(items: &[Item]) -> &[Item]
    ensures { result.now ≡ side_spec items.now }
{
    match items {
        [Item::Word(word), rest @ ..] if opens_sides(*word) => rest,
        _ => items,
    }
}

/// Whether `between` is in front.
fn is_between(items: &[Item]) -> bool
    ensures { result ≡ between_spec items.now }
{
    match items {
        [Item::Word(Word::Between), ..] => true,
        _ => false,
    }
}

/// What the items before and behind a dash say.
pub fn said_of_sides(
    calendar: Calendar,
    signs: RangeSigns,
    order: Order,
    left: &[Item],
    right: &[Item],
) -> Option<Said>
    requires left { length left.now ≤ 16 }
    requires right { length right.now ≤ 16 }
    ensures { result ≡ sides_spec calendar signs order left.now right.now }
{
    range_of(
        is_between(left),
        calendar,
        signs,
        order,
        left_side(left),
        right,
    )
}

/// Whether a number says the year after a year.
fn is_next(year: Number, next: Number) -> bool
    ensures { result ≡ next_spec year next }
{
    year.value < 99_999
        && (next.value == year.value + 1
            || (next.digits == 2 && next.value == (year.value + 1) % 100))
}

fn is_julian(calendar: Calendar) -> bool
    ensures { result ≡ julian_spec calendar }
{
    match calendar {
        Calendar::Julian => true,
        _ => false,
    }
}

/// Whether a date is before 25 March.
fn is_before_new_year(month: u32, day: u32) -> bool
    ensures { result ≡ before_spec month day }
{
    month < 3 || (month == 3 && day < 25)
}

/// The year after a year.
fn next_year(year: Number) -> Number
    requires { year.value ≤ 99_999 }
    ensures { result ≡ next_year_spec year }
{
    Number {
        value: year.value + 1,
        digits: year.digits,
        named: year.named,
        year: year.year,
        day: year.day,
    }
}

/// A day or a month that two years have, in the later of them.
fn in_later_year(calendar: Calendar, said: Extent) -> Option<Said>
    requires { (year_spec said).value ≤ 99_999 }
    ensures { result ≡ later_spec calendar said }
{
    match said {
        Extent::Month(y, month) if is_julian(calendar) && month < 3 => {
            Some(Said::One(Extent::Month(next_year(y), month)))
        }
        Extent::Day(day) if is_julian(calendar) && is_before_new_year(day.month, day.day) => {
            Some(Said::One(Extent::Day(day_of_year(day, next_year(day.year)))))
        }
        _ => None,
    }
}

/// What a dual year says.
fn of_dual(calendar: Calendar, next: Number, left: Extent) -> Option<Said>
    ensures { result ≡ of_dual_spec calendar next left }
{
    if !is_next(year_in(left), next) {
        return None;
    }
    match left {
        Extent::Year(y) => Some(Said::Range(Extent::Year(y), Extent::Year(next_year(y)))),
        _ => in_later_year(calendar, left),
    }
}

fn dual_by(calendar: Calendar, left: Option<Extent>, right: &[Item]) -> Option<Said>
    ensures { result ≡ dual_spec calendar left right.now }
{
    match (left, right) {
        (Some(left), [Item::Number(next)]) => of_dual(calendar, *next, left),
        _ => None,
    }
}

fn is_dual_by(left: Option<Extent>, right: &[Item]) -> bool
    ensures { result ≡ is_dual_by_spec left right.now }
{
    match (left, right) {
        (Some(left), [Item::Number(next)]) => is_next(year_in(left), *next),
        _ => false,
    }
}

/// What is said before the slash of a dual year.
fn before_slash(calendar: Calendar, signs: Signs, order: Order, items: &[Item]) -> Option<Extent>
    requires { length items.now ≤ 16 }
    ensures { result ≡ slash_spec calendar signs order items.now }
{
    if has_other_era(items) {
        return None;
    }
    extent_of(calendar, signs, order, without_about(items))
}

/// Whether the number behind a slash is the year after the one before it.
pub fn is_dual_of(
    calendar: Calendar,
    signs: Signs,
    order: Order,
    left: &[Item],
    right: &[Item],
) -> bool
    requires { length left.now ≤ 16 }
    ensures { result ≡ is_dual_spec calendar signs order left.now right.now }
{
    is_dual_by(before_slash(calendar, signs, order, left), right)
}

/// What the items before and behind a slash say.
pub fn said_of_dual(
    calendar: Calendar,
    signs: Signs,
    order: Order,
    left: &[Item],
    right: &[Item],
) -> Option<Said>
    requires { length left.now ≤ 16 }
    ensures { result ≡ said_dual_spec calendar signs order left.now right.now }
{
    dual_by(calendar, before_slash(calendar, signs, order, left), right)
}

/// Whether a number says the year after a year by its last digit or its last two.
fn is_next_in_short(year: Number, next: Number) -> bool
    ensures { result ≡ short_next_spec year next }
{
    year.value < 99_999
        && ((next.digits == 1 && next.value == year.value % 10 + 1)
            || (next.digits == 2 && next.value == (year.value + 1) % 100))
}

/// Whether a year is the last of items.
fn ends_with_year(items: &[Item]) -> bool
    ensures { result ≡ ends_spec items.now }
{
    match items.last() {
        Some(Item::Number(year)) => is_long(*year),
        _ => false,
    }
}

fn short_by(calendar: Calendar, left: Option<Extent>, right: &[Item]) -> Option<Said>
    ensures { result ≡ short_spec calendar left right.now }
{
    match (left, right) {
        (Some(left), [Item::Number(next)]) => {
            if is_next_in_short(year_in(left), *next) {
                in_later_year(calendar, left)
            } else {
                None
            }
        }
        _ => None,
    }
}

/// What the items before and behind a slash or a dash say, where the number behind it is the year after, written shorter.
pub fn said_of_short(
    calendar: Calendar,
    signs: Signs,
    order: Order,
    left: &[Item],
    right: &[Item],
) -> Option<Said>
    requires { length left.now ≤ 16 }
    ensures { result ≡ said_short_spec calendar signs order left.now right.now }
{
    if !ends_with_year(left) {
        return None;
    }
    short_by(calendar, before_slash(calendar, signs, order, left), right)
}
