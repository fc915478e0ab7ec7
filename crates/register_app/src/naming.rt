//! Gives tables their names once their sources have ended.

ghost use Rattle.std.specs.Prelude.{◌≡◌, ◌≢◌, ◌⊎◌, ℕ, Bool, List, false, if◌then◌else◌, map};
ghost use Rattle.std.specs.Io.KnownBytes.{Appends};
ghost use Rattle.register_app.specs.Namings.{AreNamed, IsUnnamedLine};
ghost use Rattle.programs.specs.Places.{place_name};

use programs::{FileStore, INCOMPLETE, NOT_BEGUN, Place, own_line, report_out_of_memory};
use register_arguments::NAME;
use register_records::{Output, send};
use std::alloc::Global;

/// Reports that a table has not got its name, or that memory ran out for the line. A fault of `errors` is let go: there is
/// nowhere else to report it.
fn report_unnamed<E: Output>(alloc: Global, errors: &mut E, name: &str)
    ensures line { (line : List ℕ) × IsUnnamedLine name.now line × (E.has_failed errors.new ≡ false
        → (E.has_failed errors.old ≡ false) × Appends (E.contents errors.old) (E.contents errors.new) line) }
    ensures mark { E.own_mark errors.new ≡ E.own_mark errors.old }
{
    match own_line(alloc, NAME, "cannot name ", name) {
        Ok(line) => {
            let _ = send(errors, line.as_bytes());
        }
        Err(_) => report_out_of_memory(NAME, errors),
    }
}

/// Gives each table its name, reports each that does not get it, and returns whether all have theirs.
fn give_names<R, W: Output, P: FileStore<R, W>, E: Output>(
    alloc: Global,
    store: &P,
    errors: &mut E,
    places: &[Place],
) -> bool
    ensures named { AreNamed E.Output (P.is_named store.now) (map place_name places.now) result errors.old errors.new }
    ensures mark { E.own_mark errors.new ≡ E.own_mark errors.old }
{
    let mut are_named = true;
    'places: for place in places {
        if !store.give_name(place) {
            report_unnamed(alloc, errors, place.name());
            are_named = false;
        }
    }
    are_named
}

/// Gives the tables of a run that has ended with this status their names, if it began, and returns the status: the same,
/// unless a table has not got its name.
pub fn name_tables<R, W: Output, P: FileStore<R, W>, E: Output>(
    alloc: Global,
    store: &P,
    errors: &mut E,
    places: &[Place],
    ended: u8,
) -> u8
    ensures named { ended ≢ 3 → (all : Bool)
        × AreNamed E.Output (P.is_named store.now) (map place_name places.now) all errors.old errors.new
        × (result ≡ (if all then ended else 1)) }
    ensures unbegun { ended ≡ 3 → (result ≡ 3) × (errors.new ≡ errors.old) }
    ensures begun { result ≡ 3 → ended ≡ 3 }
    ensures statuses { (result ≡ ended) ⊎ (result ≡ 1) }
    ensures mark { E.own_mark errors.new ≡ E.own_mark errors.old }
{
    if ended == NOT_BEGUN {
        return NOT_BEGUN;
    }
    if give_names(alloc, store, errors, places) {
        ended
    } else {
        INCOMPLETE
    }
}
