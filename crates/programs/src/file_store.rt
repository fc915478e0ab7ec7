//! What holds the files of a run.

ghost use Rattle.std.specs.Prelude.{◌≡◌, ℕ, List, IfOk, false, true};
ghost use Rattle.programs.specs.Openings.{IsNewlyMade};
ghost use Rattle.programs.specs.OutputNames.{AreTwoOutputs, IsApartFrom};
ghost use Rattle.programs.specs.Places.{place_name};

use crate::places::Place;
use register_records::Output;
use std::io;

/// What the program opens its sources in and makes their outputs in: `R` is a source, and `W` an output.
pub trait FileStore<R, W: Output> {
    // This source is the file of this name.
    ghost is_opened: { Self → List ℕ → R → Type 0 };

    // This output goes to the file that has this name or is to get it, and has this mark.
    ghost is_made: { Self → List ℕ → ℕ → W → Type 0 };

    // The file that was made for this name has it.
    ghost is_named: { Self → List ℕ → Type 0 };

    // The store says that these two names are those of two files.
    ghost are_apart: { Self → List ℕ → List ℕ → Type 0 };

    /// Opens the file of this name to be read from its beginning.
    fn open(&self, name: &str) -> io::Result<R>
        ensures { IfOk result (is_opened self.now name.now) };

    /// Makes the file of an output, or empties it, and gives the output that goes there: with this mark, no bytes and no
    /// fault yet. It has the second name of its place, where the store can give it the first one later, else the first.
    fn make(&self, place: &mut Place, mark: u32) -> io::Result<W>
        ensures made { IfOk result (IsNewlyMade W.Output (is_made self.now) (place_name place.old) mark) }
        ensures kept { place_name place.new ≡ place_name place.old };

    /// Gives the file of an output its name, unless it has that already, and returns whether it has it.
    fn give_name(&self, place: &Place) -> bool
        ensures { result ≡ true → is_named self.now (place_name place.now) };

    /// Whether two names are those of one file, as far as can be known.
    fn are_one_file(&self, name: &str, other: &str) -> bool
        ensures { result ≡ false → are_apart self.now name.now other.now };
}

/// Whether a name is one of an output's, as far as can be known.
pub fn is_of_output<R, W: Output, P: FileStore<R, W>>(store: &P, name: &str, place: &Place) -> bool
    ensures { result ≡ false → IsApartFrom (P.are_apart store.now) name.now (place_name place.now) }
{
    store.are_one_file(name, place.name()) || store.are_one_file(name, place.part())
}

/// Whether two outputs have a name of one file, as far as can be known.
pub fn share_file<R, W: Output, P: FileStore<R, W>>(store: &P, place: &Place, other: &Place) -> bool
    ensures { result ≡ false
        → AreTwoOutputs (P.are_apart store.now) (place_name place.now) (place_name other.now) }
{
    is_of_output(store, place.name(), other) || is_of_output(store, place.part(), other)
}
