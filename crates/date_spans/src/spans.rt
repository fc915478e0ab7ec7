//! The first and the last day that a text can mean.

ghost use Rattle.std.specs.Prelude.{◌≡◌, ℕ, false, true, IfOk, List, Some};
ghost use Rattle.std.specs.List.{list_any};
ghost use Rattle.written_dates.specs.declared.calendars.Form.TheVariants.{Civil};
ghost use Rattle.written_dates.specs.Calendars.{form as form_spec};
ghost use Rattle.written_dates.specs.declared.meanings.Name.{Name};
ghost use Rattle.written_dates.specs.Written.{written};
ghost use Rattle.date_spans.specs.Sayings.{is_about as is_about_spec};
ghost use Rattle.date_spans.specs.Spans.{AreEndsOf, IsDayOrText, IsInferred, IsPlainSpan, IsSpan, IsSpanByForm};
ghost use Rattle.date_spans.specs.private.Spans.{IsDateAlone};
ghost use Rattle.date_spans.specs.Spans.{inferred as inferred_spec};
ghost use Rattle.date_spans.specs.Spans.{has_about as about_spec, is_known as known_spec, is_read as read_spec};
ghost use Rattle.date_spans.specs.Spans.{as_whole as whole_spec, at_dash as dash_spec, at_slash as slash_spec};
ghost use Rattle.date_spans.specs.Spans.{at_short as short_spec, in_short as in_short_spec, said_or_short as or_short_spec};
ghost use Rattle.date_spans.specs.Spans.{is_dual as dual_spec};
ghost use Rattle.date_spans.specs.Sides.{cut_sides as cut_spec};
ghost use Rattle.date_spans.specs.Spans.{marks as new_marks, marks_of as marks_spec, said_by_sides as by_sides_spec};
ghost use Rattle.date_spans.specs.Sides.{one_side as one_spec};
ghost use Rattle.date_spans.specs.Spans.{said_in as said_spec, stands as stands_spec};
ghost use Rattle.date_spans.specs.Sides.{two_sides as two_spec, words_in as words_spec};

use crate::brackets::{bracketed, joined};
use crate::cuts::{Cut, has_slash, has_slash_byte, is_open, sides, unmarked};
use crate::ends::{Numbers, if_held, set_date, set_ends, set_text};
use crate::extents::Signs;
use crate::items::{items_in, words_in};
use crate::sayings::{
    Kind, RangeSigns, Said, Way, is_about, is_dual_of, kind_of, said_by, said_of_dual,
    said_of_short, said_of_sides,
};
use crate::styles::day_in_styles;
use date_texts::Calendar;
use std::alloc::AllocError;
use written_dates::{
    Answer, Choice, Form, Item, Names, answer_of, count_bars, dated_text, form_of, has_mixed_signs,
    has_other_signs_between, is_found, push_answer, push_stood, runs_behind_minus, signs_of,
    standing, write_date,
};

/// What else a text says of its day.
#[derive(Clone, Copy, PartialEq, Eq, Debug)]
pub struct Marks {
    /// What kind of saying it is.
    pub kind: Kind,
    /// That it is about then.
    pub about: bool,
    /// That it is not certain.
    pub uncertain: bool,
    /// That a part of it stands in brackets.
    pub inferred: bool,
}

/// Of what is not read.
const UNREAD: Marks = Marks {
    kind: Kind::Unread,
    about: false,
    uncertain: false,
    inferred: false,
};

/// Of a date.
const DATE: Marks = Marks {
    kind: Kind::One,
    about: false,
    uncertain: false,
    inferred: false,
};

/// The signs of a text that is one side.
pub fn one_side(text: &[u8]) -> Signs
    ensures { result ≡ one_spec text.now }
{
    Signs {
        slashed: has_slash(text),
        mixed: has_mixed_signs(text),
    }
}

/// The signs of a text of two sides that a word parts.
fn two_sides(text: &[u8]) -> Signs
    ensures { result ≡ two_spec text.now }
{
    let bars = count_bars(text);
    Signs {
        slashed: has_slash(text),
        mixed: has_other_signs_between(text) || bars == 1 || bars == 2,
    }
}

/// The signs of the sides of a text at a dash.
fn cut_sides(text: &[u8], left: &[u8], right: &[u8]) -> RangeSigns
    ensures { result ≡ cut_spec text.now left.now right.now }
{
    let slashed = has_slash(text);
    let right_mixed = has_mixed_signs(right);
    RangeSigns {
        left: Signs {
            slashed,
            mixed: has_mixed_signs(left),
        },
        shared: Signs {
            slashed,
            mixed: right_mixed || count_bars(left) as u64 + count_bars(right) as u64 == 1,
        },
        right: Signs {
            slashed,
            mixed: right_mixed,
        },
    }
}

/// What the sides of a text at its only such dash say.
#[tactic(auto, unfolding(crate::specs::Spans::at_dash))]
fn said_at_dash(
    cut: Cut,
    choice: &Choice,
    calendar: Calendar,
    names: &Names,
    text: &[u8],
) -> Option<Said>
    ensures { result ≡ dash_spec cut choice.now calendar names.now.listed.now text.now }
{
    let (left, right) = sides(cut, text)?;
    let before = items_in(calendar, names, left)?;
    let behind = items_in(calendar, names, right)?;
    said_of_sides(
        calendar,
        cut_sides(text, left, right),
        choice.order,
        before.as_slice(),
        behind.as_slice(),
    )
}

/// What the sides of a text at its only slash say.
#[tactic(auto, unfolding(crate::specs::Spans::at_slash))]
fn said_at_slash(choice: &Choice, calendar: Calendar, names: &Names, text: &[u8]) -> Option<Said>
    ensures { result ≡ slash_spec choice.now calendar names.now.listed.now text.now }
{
    let (left, right) = sides(Cut::Slash, text)?;
    let before = items_in(calendar, names, left)?;
    let behind = items_in(calendar, names, right)?;
    said_of_dual(
        calendar,
        one_side(left),
        choice.order,
        before.as_slice(),
        behind.as_slice(),
    )
}

/// What a text says as a whole.
#[tactic(auto, unfolding(crate::specs::Spans::as_whole))]
fn said_of_whole(choice: &Choice, calendar: Calendar, names: &Names, text: &[u8]) -> Option<Said>
    ensures { result ≡ whole_spec choice.now calendar names.now.listed.now text.now }
{
    let found = items_in(calendar, names, text)?;
    let way = Way {
        calendar,
        order: choice.order,
        one: one_side(text),
        two: two_sides(text),
    };
    said_by(way, found.as_slice())
}

/// Whether the only slash of a text has a year before it and the year after that behind it. Most texts have none, which
/// their bytes tell.
#[tactic(auto, unfolding(crate::specs::Spans::is_dual), using(crate::proofs::CutLemmas::no_sides))]
fn is_dual(choice: &Choice, calendar: Calendar, names: &Names, text: &[u8]) -> bool
    ensures { result ≡ dual_spec choice.now calendar names.now.listed.now text.now }
{
    if !has_slash_byte(text) {
        return false;
    }
    let Some((left, right)) = sides(Cut::Slash, text) else {
        return false;
    };
    let Some(before) = items_in(calendar, names, left) else {
        return false;
    };
    match items_in(calendar, names, right) {
        Some(behind) => is_dual_of(
            calendar,
            one_side(left),
            choice.order,
            before.as_slice(),
            behind.as_slice(),
        ),
        None => false,
    }
}

/// What a text says as a whole, or by its sides at a dash.
fn said_by_sides(choice: &Choice, calendar: Calendar, names: &Names, text: &[u8]) -> Option<Said>
    ensures { result ≡ by_sides_spec choice.now calendar names.now.listed.now text.now }
{
    if let Some(said) = said_of_whole(choice, calendar, names, text) {
        return Some(said);
    }
    if let Some(said) = said_at_dash(Cut::Dash, choice, calendar, names, text) {
        return Some(said);
    }
    said_at_dash(Cut::WideDash, choice, calendar, names, text)
}

/// What the sides of a text say at its only such token, where the number behind it is the year after, written shorter.
#[tactic(auto, unfolding(crate::specs::Spans::at_short))]
fn said_at_short(
    cut: Cut,
    choice: &Choice,
    calendar: Calendar,
    names: &Names,
    text: &[u8],
) -> Option<Said>
    ensures { result ≡ short_spec cut choice.now calendar names.now.listed.now text.now }
{
    let (left, right) = sides(cut, text)?;
    let before = items_in(calendar, names, left)?;
    let behind = items_in(calendar, names, right)?;
    said_of_short(
        calendar,
        one_side(left),
        choice.order,
        before.as_slice(),
        behind.as_slice(),
    )
}

/// What a text says by a dual year that is written shorter.
#[tactic(auto, unfolding(crate::specs::Spans::in_short))]
fn said_in_short(choice: &Choice, calendar: Calendar, names: &Names, text: &[u8]) -> Option<Said>
    ensures { result ≡ in_short_spec choice.now calendar names.now.listed.now text.now }
{
    if let Some(said) = said_at_short(Cut::Slash, choice, calendar, names, text) {
        return Some(said);
    }
    if sides(Cut::WideDash, text).is_some() {
        return None;
    }
    said_at_short(Cut::Dash, choice, calendar, names, text)
}

/// What a text without a dual year in full says.
#[tactic(auto, unfolding(crate::specs::Spans::said_or_short))]
fn said_or_short(choice: &Choice, calendar: Calendar, names: &Names, text: &[u8]) -> Option<Said>
    ensures { result ≡ or_short_spec choice.now calendar names.now.listed.now text.now }
{
    match said_by_sides(choice, calendar, names, text) {
        Some(said) => Some(said),
        None => said_in_short(choice, calendar, names, text),
    }
}

/// What a text says.
#[tactic(auto, unfolding(crate::specs::Spans::said_in))]
fn said_in(choice: &Choice, calendar: Calendar, names: &Names, text: &[u8]) -> Option<Said>
    ensures { result ≡ said_spec choice.now calendar names.now.listed.now text.now }
{
    let (other, _) = signs_of(text);
    if other || is_open(text) {
        return None;
    }
    if is_dual(choice, calendar, names, text) {
        return if_held(
            choice,
            calendar,
            said_at_slash(choice, calendar, names, text),
        );
    }
    if_held(
        choice,
        calendar,
        said_or_short(choice, calendar, names, text),
    )
}

/// Whether a text is a date as registers have it.
fn stands(choice: &Choice, text: &[u8]) -> bool
    ensures { result ≡ stands_spec choice.now text.now }
{
    runs_behind_minus(text).is_some() || standing(choice.order, text).is_some()
}

/// Makes a buffer what is written for a text, if that is a date, in a calendar with years, months and days; and says
/// whether it is.
#[tactic(auto, using(crate::proofs::SpanLemmas::stood, crate::proofs::SpanLemmas::read, crate::proofs::SpanLemmas::answered))]
fn set_written(
    out: &mut Vec<u8>,
    choice: &Choice,
    calendar: Calendar,
    names: &Names,
    text: &[u8],
) -> Result<bool, AllocError>
    requires { form_spec calendar ≡ Civil }
    ensures { IfOk result (λ known. (known ≡ known_spec choice.now calendar names.now.listed.now text.now)
        × (known ≡ true → out.new.items ≡ written choice.now (Some calendar) names.now.listed.now text.now)) }
{
    out.clear();
    if stands(choice, text) {
        write_date(out, text, Some(calendar), names, choice)?;
        return Ok(true);
    }
    let answer = answer_of(choice, calendar, names, text);
    push_answer(out, text, answer)?;
    Ok(is_found(answer))
}

/// Whether a word for `about` is among items.
fn is_among(items: &[Item]) -> bool
    ensures { result ≡ list_any is_about_spec items.now }
{
    items.iter().any(|item| is_about(*item))
}

/// Whether a word for `about` stands in a text.
fn has_about(calendar: Calendar, names: &Names, text: &[u8]) -> bool
    ensures { result ≡ about_spec (words_spec calendar names.now.listed.now text.now) }
{
    match words_in(calendar, names, text) {
        None => false,
        Some(found) => is_among(found.as_slice()),
    }
}

/// Makes two buffers the date that is written for a text.
fn set_date_twice(
    first: &mut Vec<u8>,
    last: &mut Vec<u8>,
    text: &[u8],
    calendar: Option<Calendar>,
    names: &Names,
    choice: &Choice,
    marks: Marks,
) -> Result<Marks, AllocError>
    ensures { IfOk result (λ found. (first.new.items ≡ written choice.now calendar names.now.listed.now text.now)
        × (last.new.items ≡ written choice.now calendar names.now.listed.now text.now) × (found ≡ marks)) }
{
    first.clear();
    write_date(first, text, calendar, names, choice)?;
    set_text(last, first.as_slice())?;
    Ok(marks)
}

/// Makes two buffers a text that is not read.
fn set_unread(first: &mut Vec<u8>, last: &mut Vec<u8>, text: &[u8]) -> Result<Marks, AllocError>
    ensures { IfOk result (λ found. (first.new.items ≡ text.now) × (last.new.items ≡ text.now)
        × (found ≡ new_marks Kind.Unread false false)) }
{
    set_text(first, text)?;
    set_text(last, text)?;
    Ok(UNREAD)
}

/// What else is said.
fn marks_of(said: Said, turned: bool, about: bool, uncertain: bool) -> Marks
    ensures { result ≡ marks_spec said turned about uncertain }
{
    if turned {
        return UNREAD;
    }
    Marks {
        kind: kind_of(said),
        about,
        uncertain,
        inferred: false,
    }
}

/// Makes two buffers a date, where there is one, and else the text.
fn set_day_or_text(
    first: &mut Vec<u8>,
    last: &mut Vec<u8>,
    text: &[u8],
    day: Option<Numbers>,
    uncertain: bool,
    about: bool,
) -> Result<Marks, AllocError>
    ensures { IfOk result (λ found. (kept : List ℕ)
        → IsDayOrText day text.now (kept, uncertain, about) first.new.items last.new.items found) }
{
    if day.is_none() {
        return set_unread(first, last, text);
    }
    set_date(first, day)?;
    set_date(last, day)?;
    Ok(Marks {
        kind: Kind::One,
        about,
        uncertain,
        inferred: false,
    })
}

/// Makes two buffers the ends of what a text says; where it says nothing, its day in both styles, or the text. `kept` is
/// the text without a sign at its end.
fn set_said(
    first: &mut Vec<u8>,
    last: &mut Vec<u8>,
    text: &[u8],
    kept: &[u8],
    uncertain: bool,
    about: bool,
    calendar: Calendar,
    names: &Names,
    choice: &Choice,
) -> Result<Marks, AllocError>
    ensures { IfOk result (λ found. AreEndsOf choice.now calendar names.now.listed.now text.now
        (kept.now, uncertain, about) (said_spec choice.now calendar names.now.listed.now kept.now)
        first.new.items last.new.items found) }
{
    let Some(said) = said_in(choice, calendar, names, kept) else {
        let day = day_in_styles(choice, calendar, names, kept);
        return set_day_or_text(first, last, text, day, uncertain, about);
    };
    let turned = set_ends(first, last, choice, calendar, text, said)?;
    let about = about || has_about(calendar, names, kept);
    Ok(marks_of(said, turned, about, uncertain))
}

/// Makes two buffers the date that a text is as registers have it, whatever the names; and says whether it is one. Most
/// dates of sheets that programs write stand so, and have no slash and no time of day.
fn set_standing(
    first: &mut Vec<u8>,
    last: &mut Vec<u8>,
    choice: &Choice,
    calendar: Calendar,
    text: &[u8],
) -> Result<bool, AllocError>
    requires { form_spec calendar ≡ Civil }
    ensures { IfOk result (λ stood. stood ≡ true → (names : List Name) → IsDateAlone choice.now calendar names text.now
        first.new.items last.new.items) }
{
    if has_slash_byte(text) {
        return Ok(false);
    }
    let Some((year, month, day)) = standing(choice.order, text) else {
        return Ok(false);
    };
    first.clear();
    push_stood(first, choice, calendar, year, month, day)?;
    set_text(last, first.as_slice())?;
    Ok(true)
}

/// Makes two buffers the first and the last day of a text in which no brackets count.
#[tactic(auto, using(crate::proofs::SpanLemmas::dual_is_no_date, crate::proofs::SpanLemmas::date_by_known))]
fn set_plain(
    first: &mut Vec<u8>,
    last: &mut Vec<u8>,
    text: &[u8],
    calendar: Calendar,
    names: &Names,
    choice: &Choice,
) -> Result<Marks, AllocError>
    requires { form_spec calendar ≡ Civil }
    ensures { IfOk result (λ found. IsPlainSpan choice.now calendar names.now.listed.now text.now
        first.new.items last.new.items found) }
{
    let (unmarked, uncertain, about) = unmarked(text);
    if set_standing(first, last, choice, calendar, unmarked)? {
        return Ok(Marks {
            kind: Kind::One,
            about,
            uncertain,
            inferred: false,
        });
    }
    let kept = dated_text(choice, calendar, names, unmarked);
    if is_dual(choice, calendar, names, kept) {
        return set_said(
            first, last, text, kept, uncertain, about, calendar, names, choice,
        );
    }
    if set_written(first, choice, calendar, names, kept)? {
        set_text(last, first.as_slice())?;
        return Ok(Marks {
            kind: Kind::One,
            about,
            uncertain,
            inferred: false,
        });
    }
    set_said(
        first, last, text, kept, uncertain, about, calendar, names, choice,
    )
}

/// Whether a saying is read.
fn is_read(kind: Kind) -> bool
    ensures { result ≡ read_spec kind }
{
    match kind {
        Kind::Unread => false,
        _ => true,
    }
}

/// Of what is inferred.
fn inferred(marks: Marks) -> Marks
    ensures { result ≡ inferred_spec marks }
{
    Marks {
        kind: marks.kind,
        about: marks.about,
        uncertain: marks.uncertain,
        inferred: true,
    }
}

/// Makes two buffers the first and the last day of what a text is without its brackets; where this says nothing, the
/// text stays.
fn set_inferred(
    first: &mut Vec<u8>,
    last: &mut Vec<u8>,
    text: &[u8],
    bare: &[u8],
    calendar: Calendar,
    names: &Names,
    choice: &Choice,
) -> Result<Marks, AllocError>
    requires { form_spec calendar ≡ Civil }
    ensures { IfOk result (λ found. IsInferred choice.now calendar names.now.listed.now text.now bare.now
        first.new.items last.new.items found) }
{
    let marks = set_plain(first, last, bare, calendar, names, choice)?;
    if is_read(marks.kind) {
        return Ok(inferred(marks));
    }
    set_unread(first, last, text)
}

/// Makes two buffers the first and the last day of a text in a calendar with years, months and days.
fn set_civil(
    first: &mut Vec<u8>,
    last: &mut Vec<u8>,
    text: &[u8],
    calendar: Calendar,
    names: &Names,
    choice: &Choice,
) -> Result<Marks, AllocError>
    requires { form_spec calendar ≡ Civil }
    ensures { IfOk result (λ found. IsSpanByForm Civil choice.now calendar names.now.listed.now text.now
        first.new.items last.new.items found) }
{
    let Some((front, within, behind)) = bracketed(text) else {
        return set_plain(first, last, text, calendar, names, choice);
    };
    let bare = joined(first, front, within, behind)?;
    set_inferred(first, last, text, bare.as_slice(), calendar, names, choice)
}

/// Makes `first` and `last` the first and the last day that a text can mean, as date texts of registers: the date that it
/// is, or those of the month, the year or the range that it says. What the buffers held is gone. An end that is open, or
/// whose year is short where such years are refused, is empty; where the text says nothing, both are the text. A date
/// that the calendar does not have is written all the same. `calendar` is that of the record, `None` where no calendar
/// has the name that stands there; of the names those count that hold in it. A text of which a part stands in brackets
/// is read without these: `12 May [1706]`.
///
/// # Errors
///
/// `AllocError` where a buffer could not grow; then they may hold anything.
pub fn write_span(
    first: &mut Vec<u8>,
    last: &mut Vec<u8>,
    text: &[u8],
    calendar: Option<Calendar>,
    names: &Names,
    choice: &Choice,
) -> Result<Marks, AllocError>
    ensures { IfOk result (λ found. IsSpan choice.now calendar names.now.listed.now text.now
        first.new.items last.new.items found) }
{
    let Some(known) = calendar else {
        return set_unread(first, last, text);
    };
    match form_of(known) {
        Form::Civil => set_civil(first, last, text, known, names, choice),
        Form::Roman => set_date_twice(first, last, text, calendar, names, choice, DATE),
        Form::Other => set_date_twice(first, last, text, calendar, names, choice, DATE),
    }
}
