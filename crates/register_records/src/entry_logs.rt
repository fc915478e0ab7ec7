//! The entries that a reader has given, which clauses alone read.

ghost use Rattle.std.specs.Prelude.{◌≡◌, ◌++◌, ◌∷◌, []};
ghost use Rattle.register_records.specs.Seen.{entry_seen};

use crate::entries::Entry;
use std::marker::Model;
use std::snapshot::Snapshot;

/// An entry that was given, and those given before it.
#[derive(Drop)]
#[cycle(entry_log)]
struct Given {
    before: Snapshot<EntryLog>,
    entry: Snapshot<Entry>,
}

/// The entries given, in order. It keeps none of them in memory: a log takes one byte.
#[derive(Drop)]
#[cycle(entry_log)]
pub(crate) struct EntryLog {
    last: Option<Given>,
}

impl Model for EntryLog {
    ghost use Rattle.std.proofs.Common.{arith, length-append};
    ghost use Rattle.std.specs.Prelude.{◌++◌, ◌∷◌, [], List, length};
    ghost use Rattle.std.specs.Option.{option_map_or};
    ghost use Rattle.register_records.specs.Entries.{Numbered};
    ghost use Rattle.register_records.specs.Seen.{entry_seen};

    ghost Value = { List Numbered };

    ghost view = { λ log.
        option_map_or (λ given. given.before.value ++ entry_seen given.entry.value ∷ []) log.last [] };

    ghost size = { length };

    ghost size_decreases = { λ log h. Prim.grind (arith, length-append) };
}

impl EntryLog {
    /// The log of no entry.
    pub fn new() -> EntryLog
        ensures { result ≡ [] }
    {
        EntryLog { last: None }
    }

    /// Notes one more entry.
    pub fn push(&mut self, entry: &Entry)
        ensures { self.new ≡ self.old ++ entry_seen entry.now ∷ [] }
    {
        self.last = Some(Given {
            before: Snapshot::of(self),
            entry: Snapshot::of(entry),
        });
    }
}
