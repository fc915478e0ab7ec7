//! The targets of a setup and of a row, with the rank of each among all targets: two lists are compared by these.

ghost use Rattle.std.specs.Prelude.{◌≡◌, ◌≤◌, ◌↔◌, length, true};
ghost use Rattle.date_texts.specs.Calendars.{default_targets};
ghost use Rattle.date_texts.specs.declared.target.TheConstants.{MAX_TARGETS};
ghost use Rattle.register_records.specs.ShortLists.{items_in};
ghost use Rattle.register_records.specs.declared.target_lists.TheConstants.{RANK_ROOM};
ghost use Rattle.register_records.specs.private.TargetRanks.{rank_of, ranks_in};

use crate::short_lists::ShortList;
use date_texts::laws::{all_targets, default_targets};
use date_texts::{MAX_TARGETS, Target, WORD_LEN, word};

/// How many words, of which each is compared at once, have room for the rank of each target.
const RANK_WORDS: usize = (MAX_TARGETS + WORD_LEN - 1) / WORD_LEN;

/// Room for the ranks.
const RANK_ROOM: usize = RANK_WORDS * WORD_LEN;

/// Targets in order, and the rank of each, with 0 behind the last.
#[derive(Clone, Copy)]
pub(crate) struct TargetList {
    items: ShortList<Target>,
    ranks: [u8; RANK_ROOM],
    // Whether they are known to be the default ones in their order.
    pub(crate) are_default: bool,
    ghost ranked: { ranks ≡ ranks_in RANK_ROOM (items_in items) },
    ghost default: { are_default ≡ true → items_in items ≡ default_targets },
}

impl TargetList {
    /// The list of these targets.
    pub fn new(targets: &[Target]) -> TargetList
        requires { length targets.now ≤ MAX_TARGETS }
        ensures { items_in result.items ≡ targets.now }
    {
        default_targets();
        let list = TargetList::listed(targets);
        let are_default = list.is_same(&TargetList::listed(&Target::DEFAULT));
        TargetList {
            items: list.items,
            ranks: list.ranks,
            are_default,
        }
    }

    /// The same, without a look at whether they are the default ones.
    fn listed(targets: &[Target]) -> TargetList
        requires { length targets.now ≤ MAX_TARGETS }
        ensures { items_in result.items ≡ targets.now }
    {
        let mut items = ShortList::new(Target::Haab);
        let mut ranks = [0; RANK_ROOM];
        'targets: for i in 0..targets.len() {
            items.push(targets[i]);
            ranks[i] = rank(targets[i]);
        }
        TargetList {
            items,
            ranks,
            are_default: false,
        }
    }

    /// The targets.
    pub fn as_slice(&self) -> &[Target]
        ensures value { result.now ≡ items_in self.now.items }
        ensures few { length result.now ≤ MAX_TARGETS }
    {
        self.items.as_slice()
    }

    /// Whether the other list has the same targets in the same order.
    pub fn is_same(&self, other: &TargetList) -> bool
        ensures { (result ≡ true) ↔ (items_in self.now.items ≡ items_in other.now.items) }
    {
        let mut is_same = true;
        'words: for i in 0..RANK_WORDS {
            let at = i * WORD_LEN;
            is_same &= word(&self.ranks[at..at + WORD_LEN])
                == word(&other.ranks[at..at + WORD_LEN]);
        }
        is_same
    }
}

/// The rank of a target among all targets, from 1.
fn rank(target: Target) -> u8
    ensures { result ≡ rank_of target }
{
    all_targets();
    'ranks: for i in 0..MAX_TARGETS {
        if Target::ALL[i].name() == target.name() {
            return i as u8 + 1;
        }
    }
    unreachable!()
}
