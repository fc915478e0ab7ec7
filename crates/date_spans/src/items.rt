//! The items of a text, up to sixteen.

ghost use Rattle.std.specs.Prelude.{◌≡◌, option_map};
ghost use Rattle.date_spans.specs.Sides.{items_in as items_spec, words_in as words_spec};

use crate::cuts::is_open;
use arrayvec::ArrayVec;
use date_texts::Calendar;
use written_dates::{Item, Names, items_of, signs_of};

/// The items of a text in a calendar; nothing where a word is not known, or more than sixteen items stand.
#[tactic(auto, using(crate::proofs::ItemLemmas::few_items, crate::proofs::ItemLemmas::many_items))]
pub fn words_in(calendar: Calendar, names: &Names, text: &[u8]) -> Option<ArrayVec<Item, 16>>
    ensures { option_map (λ found. found.items) result ≡ words_spec calendar names.now.listed.now text.now }
{
    match items_of::<16>(text, names, calendar) {
        Some(found) => {
            let items = found.as_slice();
            prove!(items.len() <= 16);
            Some(found)
        }
        None => None,
    }
}

/// The items of a text, or of a side; nothing either where a dash or a slash opens or ends it, or a minus may stand in it.
#[tactic(auto, unfolding(crate::specs::Sides::items_in))]
pub fn items_in(calendar: Calendar, names: &Names, text: &[u8]) -> Option<ArrayVec<Item, 16>>
    ensures { option_map (λ found. found.items) result ≡ items_spec calendar names.now.listed.now text.now }
{
    let (_, minus) = signs_of(text);
    if minus || is_open(text) {
        return None;
    }
    words_in(calendar, names, text)
}
