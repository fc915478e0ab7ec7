//! Opens the files of a command line.

ghost use Rattle.std.specs.Prelude.{◌≡◌, ◌<◌, ◌^◌, ◌++◌, ℕ, List, Some, false, length};
ghost use Rattle.std.specs.Prelude.{IfErr, IfOk, OnOk, map, slice_get};
ghost use Rattle.std.specs.String.{string_bytes};
ghost use Rattle.programs.specs.Openings.{AreMade, AreNotSources, AreOpened, AreTwoFiles, IsNewlyMade, IsNoSource, IsOfFiles};
ghost use Rattle.programs.specs.Openings.{output_names};
ghost use Rattle.programs.specs.OutputNames.{AreTwoOutputs};
ghost use Rattle.programs.specs.Places.{place_name};

use crate::file_store::{FileStore, is_of_output, share_file};
use crate::places::{Place, joined};
use register_records::Output;
use std::alloc::{AllocError, Global};

/// What the name of a table has at the end, after the name of its register.
const SUFFIX: &str = ".out.csv";

/// Why the files of a command line are not opened.
#[derive(Clone, Copy, Debug)]
pub enum FileFault<'a> {
    /// A file that could not be opened.
    CannotOpen(&'a str),
    /// A file whose output could not be made.
    CannotMake(&'a str),
    /// Memory ran out.
    OutOfMemory,
}

/// The outputs of a command line, in its order, and where each goes.
struct Made<W> {
    outputs: Vec<W>,
    places: Vec<Place>,
}

/// The sources of a command line with the output of each, in its order, and where each output goes.
pub struct Opened<R, W> {
    pub sources: Vec<R>,
    pub outputs: Vec<W>,
    pub places: Vec<Place>,
}

/// The name of a file's output.
pub fn output_name(alloc: Global, file: &str) -> Result<String, AllocError>
    ensures { IfOk result (λ name. string_bytes name ≡ file.now ++ SUFFIX.now) }
{
    joined(alloc, file, SUFFIX)
}

/// Opens each file.
fn open_sources<'a, R: Drop, W: Output, P: FileStore<R, W>>(
    alloc: Global,
    store: &P,
    files: &[&'a str],
) -> Result<Vec<R>, FileFault<'a>>
    ensures opened { IfOk result (λ sources. AreOpened (P.is_opened store.now) (map (λ file. file.now) files.now)
        sources.items) }
    ensures named { IfErr result (IsOfFiles (map (λ file. file.now) files.now)) }
{
    let mut sources = Vec::new(alloc);
    'files: for &file in files {
        let Ok(source) = store.open(file) else {
            return Err(FileFault::CannotOpen(file));
        };
        if sources.push(source).is_err() {
            return Err(FileFault::OutOfMemory);
        }
    }
    Ok(sources)
}

/// Whether an output has a name of a file that another output goes to.
fn is_taken<R, W: Output, P: FileStore<R, W>>(store: &P, places: &[Place], place: &Place) -> bool
    ensures { result ≡ false → (k : ℕ) (other : List ℕ) → slice_get (map place_name places.now) k ≡ Some other
        → AreTwoOutputs (P.are_apart store.now) other (place_name place.now) }
{
    'places: for other in places {
        if share_file(store, other, place) {
            return true;
        }
    }
    false
}

/// Whether an output has a name of one of the files.
fn is_source<R, W: Output, P: FileStore<R, W>>(store: &P, files: &[&str], place: &Place) -> bool
    ensures { result ≡ false
        → IsNoSource (P.are_apart store.now) (map (λ file. file.now) files.now) (place_name place.now) }
{
    'files: for &other in files {
        if is_of_output(store, other, place) {
            return true;
        }
    }
    false
}

/// Refuses the first file whose output has a name of one of the files, as where it is a link to it.
fn check_sources_kept<'a, R, W: Output, P: FileStore<R, W>>(
    alloc: Global,
    store: &P,
    files: &[&'a str],
) -> Result<(), FileFault<'a>>
    ensures kept { OnOk result (AreNotSources (P.are_apart store.now) (map (λ file. file.now) files.now)) }
    ensures named { IfErr result (IsOfFiles (map (λ file. file.now) files.now)) }
{
    'files: for &file in files {
        let Ok(place) = Place::new(alloc, file, SUFFIX) else {
            return Err(FileFault::OutOfMemory);
        };
        if is_source(store, files, &place) {
            return Err(FileFault::CannotMake(file));
        }
    }
    Ok(())
}

/// Makes the output of each file.
fn make_outputs<'a, R, W: Output + Drop, P: FileStore<R, W>>(
    alloc: Global,
    store: &P,
    files: &[&'a str],
) -> Result<Made<W>, FileFault<'a>>
    requires few { length files.now < 2 ^ 32 }
    ensures made { IfOk result (λ made. AreMade (IsNewlyMade W.Output
        (P.is_made store.now)) (map (λ file. file.now) files.now) made.outputs.items) }
    ensures placed { IfOk result (λ made. map place_name made.places.items
        ≡ output_names (map (λ file. file.now) files.now)) }
    ensures apart { OnOk result (AreTwoFiles (P.are_apart store.now) (map (λ file. file.now) files.now)) }
    ensures named { IfErr result (IsOfFiles (map (λ file. file.now) files.now)) }
{
    let mut outputs = Vec::new(alloc);
    let mut places = Vec::new(alloc);
    let mut mark = 0;
    'files: for &file in files {
        let Ok(mut place) = Place::new(alloc, file, SUFFIX) else {
            return Err(FileFault::OutOfMemory);
        };
        mark += 1;
        let Ok(output) = store.make(&mut place, mark) else {
            return Err(FileFault::CannotMake(file));
        };
        if is_taken(store, places.as_slice(), &place) {
            return Err(FileFault::CannotMake(file));
        }
        if outputs.push(output).is_err() || places.push(place).is_err() {
            return Err(FileFault::OutOfMemory);
        }
    }
    Ok(Made { outputs, places })
}

/// Opens all files, and then makes the output of each. The mark of an output is its place, from 1.
///
/// # Errors
///
/// `CannotOpen` for the first file that cannot be opened, before any output is made; `CannotMake` for the first whose
/// output would go to one of the files, before any output is made too, or else for the first whose output cannot be made
/// or goes to the file of an earlier one; `OutOfMemory` where memory ran out.
pub fn open_files<'a, R: Drop, W: Output + Drop, P: FileStore<R, W>>(
    alloc: Global,
    store: &P,
    files: &[&'a str],
) -> Result<Opened<R, W>, FileFault<'a>>
    requires few { length files.now < 2 ^ 32 }
    ensures opened { IfOk result (λ o. AreOpened (P.is_opened store.now) (map (λ file. file.now) files.now)
        o.sources.items) }
    ensures made { IfOk result (λ o. AreMade (IsNewlyMade W.Output
        (P.is_made store.now)) (map (λ file. file.now) files.now) o.outputs.items) }
    ensures placed { IfOk result (λ o. map place_name o.places.items
        ≡ output_names (map (λ file. file.now) files.now)) }
    ensures kept { IfOk result (λ o. AreNotSources (P.are_apart store.now) (map (λ file. file.now) files.now)) }
    ensures apart { IfOk result (λ o. AreTwoFiles (P.are_apart store.now) (map (λ file. file.now) files.now)) }
    ensures named { IfErr result (IsOfFiles (map (λ file. file.now) files.now)) }
{
    let sources = open_sources(alloc, store, files)?;
    check_sources_kept(alloc, store, files)?;
    let Made { outputs, places } = make_outputs(alloc, store, files)?;
    Ok(Opened {
        sources,
        outputs,
        places,
    })
}
