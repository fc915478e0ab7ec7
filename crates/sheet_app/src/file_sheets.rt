//! The sheets of a command line: opens the files, and makes the outputs of each.

ghost use Rattle.std.specs.Prelude.{◌≡◌, ◌++◌, ◌∷◌, [], All, AllPairs, IfErr, IfOk, OnOk, false, flat_map, map, codes};
ghost use Rattle.std.specs.List.{AllZip, range_with_len};
ghost use Rattle.std.specs.String.{string_bytes};
ghost use Rattle.programs.specs.OutputNames.{AreTwoOutputs, IsApartFrom};
ghost use Rattle.programs.specs.Places.{place_name};
ghost use Rattle.sheet_arguments.specs.Requests.{task_of};
ghost use Rattle.sheet_app.specs.FileSheets.{AreApartOutputs, IsMadeFor, IsNoInput, ending_of, names_ending};
ghost use Rattle.sheet_app.specs.private.FileSheets.{IsNewSheet};
ghost use Rattle.sheet_app.specs.FileSheets.{endings_by as endings_spec, part_endings, register_ending};
ghost use Rattle.sheet_app.specs.FileSheets.{register_endings};
ghost use Rattle.sheet_app.specs.private.FileSheets.{sheet_name, source_name};
ghost use Rattle.sheet_app.specs.ProgramFaults.{IsFaultOfFiles};
ghost use Rattle.sheet_app.specs.private.SheetViews.{IsOfInputs, IsOfOutputs};

use itoa::Buffer;
use programs::{FileStore, Place, is_of_output, share_file};
use register_records::Output;
use sheet_arguments::Job;
use sheets::Spans;
use std::alloc::{AllocError, Global};

/// Why the files of a command line are not opened.
#[derive(Drop)]
pub enum FileFault<'a> {
    /// Memory ran out.
    OutOfMemory,
    /// A file that could not be opened.
    CannotOpen(&'a str),
    /// An output that could not be made.
    CannotMake(String),
}

impl From<AllocError> for FileFault<'_> {
    ghost use Rattle.std.specs.Prelude.{◌≡◌};
    ghost use Rattle.sheet_app.specs.declared.file_sheets.FileFault.TheVariants.{OutOfMemory};

    ghost from_gives = { λ error fault. fault ≡ OutOfMemory };

    fn from(_error: AllocError) -> Self {
        FileFault::OutOfMemory
    }
}

/// A file that was opened.
#[derive(Drop)]
pub struct OpenedFile<'a, R> {
    pub name: &'a str,
    pub source: R,
}

/// A sheet with what it goes to.
#[derive(Drop)]
pub struct FileSheet<'a, R, W> {
    /// What it is called.
    pub name: &'a str,
    /// Where it comes from.
    pub source: R,
    /// Where the sheet with the columns asked goes, or the list of names that are not known.
    pub output: W,
    /// Where the registers go, one for each column of dates; none where they are not asked for.
    pub registers: Vec<W>,
    /// Where all these go.
    pub places: Vec<Place>,
}

/// What the name of a sheet's output ends with, behind the name of the sheet.
fn ending(job: &Job) -> &'static str
    ensures { result.now ≡ ending_of (task_of job.now) }
{
    if job.unknown {
        ".unknown.csv"
    } else {
        ".dates.csv"
    }
}

/// What the name of the register of a column of dates ends with, where there are several.
fn numbered_ending(alloc: Global, part: &str, number: usize) -> Result<String, AllocError>
    ensures { IfOk result (λ ending. string_bytes ending ≡ register_ending part.now number) }
{
    let mut ending = String::from_str(alloc, part)?;
    ending.push_str(".register.")?;
    ending.push_str(Buffer::new().format(number))?;
    ending.push_str(".csv")?;
    Ok(ending)
}

/// What the name of the only register of a part ends with.
fn lone_ending(alloc: Global, part: &str) -> Result<String, AllocError>
    ensures { IfOk result (λ ending. string_bytes ending ≡ part.now ++ codes ".register.csv") }
{
    let mut ending = String::from_str(alloc, part)?;
    ending.push_str(".register.csv")?;
    Ok(ending)
}

/// Adds what the names of the registers of so many columns of dates end with.
fn push_numbered(
    alloc: Global,
    endings: &mut Vec<String>,
    part: &str,
    columns: usize,
) -> Result<(), AllocError>
    ensures { OnOk result (map string_bytes endings.new.items ≡ map string_bytes endings.old.items
        ++ map (register_ending part.now) (range_with_len 1 columns)) }
{
    'columns: for index in 0..columns {
        endings.push(numbered_ending(alloc, part, index + 1)?)?;
    }
    Ok(())
}

/// Adds what the names of a part of the registers of so many columns of dates end with.
fn push_endings(
    alloc: Global,
    endings: &mut Vec<String>,
    part: &str,
    columns: usize,
) -> Result<(), AllocError>
    ensures { OnOk result (map string_bytes endings.new.items ≡ map string_bytes endings.old.items
        ++ part_endings part.now columns) }
{
    if columns != 1 {
        return push_numbered(alloc, endings, part, columns);
    }
    endings.push(lone_ending(alloc, part)?)?;
    Ok(())
}

/// What the names of the registers of so many columns of dates end with.
fn endings_by(alloc: Global, spans: Spans, columns: usize) -> Result<Vec<String>, AllocError>
    ensures { IfOk result (λ endings. map string_bytes endings.items ≡ endings_spec spans columns) }
{
    let mut endings = Vec::new(alloc);
    if matches!(spans, Spans::Unread) {
        push_endings(alloc, &mut endings, "", columns)?;
        return Ok(endings);
    }
    push_endings(alloc, &mut endings, ".first", columns)?;
    push_endings(alloc, &mut endings, ".last", columns)?;
    Ok(endings)
}

/// What the names of a sheet's registers end with.
fn register_endings(alloc: Global, job: &Job) -> Result<Vec<String>, AllocError>
    ensures { IfOk result (λ endings. map string_bytes endings.items ≡ register_endings (task_of job.now)) }
{
    if !(job.register && !job.unknown) {
        return Ok(Vec::new(alloc));
    }
    endings_by(alloc, job.spans, job.dates.len())
}

/// Opens each file.
fn open_sources<'a, R: Drop, W: Output, P: FileStore<R, W>>(
    alloc: Global,
    store: &P,
    files: &[&'a str],
) -> Result<Vec<OpenedFile<'a, R>>, FileFault<'a>>
    ensures named { IfOk result (λ sources. map source_name sources.items ≡ map (λ file. file.now) files.now) }
    ensures opened { IfOk result (λ sources. All (λ opened. P.is_opened store.now opened.name.now opened.source)
        sources.items) }
    ensures missing { IfErr result (IsOfInputs (map (λ file. file.now) files.now)) }
{
    let mut sources = Vec::new(alloc);
    'files: for &name in files {
        let Ok(source) = store.open(name) else {
            return Err(FileFault::CannotOpen(name));
        };
        if sources.push(OpenedFile { name, source }).is_err() {
            return Err(FileFault::OutOfMemory);
        }
    }
    Ok(sources)
}

/// Whether an output has a name of one of these files.
fn is_among<R, W: Output, P: FileStore<R, W>>(store: &P, files: &[&str], place: &Place) -> bool
    ensures { result ≡ false
        → All (λ file. IsApartFrom (P.are_apart store.now) file (place_name place.now)) (map (λ file. file.now) files.now) }
{
    'files: for &file in files {
        if is_of_output(store, file, place) {
            return true;
        }
    }
    false
}

/// Refuses an output that would go to an input and empty it.
fn check_kept<'a, R, W: Output, P: FileStore<R, W>>(
    alloc: Global,
    store: &P,
    job: &Job<'a>,
    file: &str,
    ending: &str,
) -> Result<(), FileFault<'a>>
    ensures kept { OnOk result (IsNoInput (P.are_apart store.now) (task_of job.now) (file.now ++ ending.now)) }
    ensures missing { IfErr result (IsOfOutputs ((file.now ++ ending.now) ∷ [])) }
{
    let place = Place::new(alloc, file, ending)?;
    if is_among(store, job.names.as_slice(), &place) {
        return Err(FileFault::CannotMake(place.into_name()));
    }
    if is_among(store, job.files.as_slice(), &place) {
        return Err(FileFault::CannotMake(place.into_name()));
    }
    Ok(())
}

/// Refuses the first output of a file that would go to an input and empty it.
fn check_outputs_kept<'a, R, W: Output, P: FileStore<R, W>>(
    alloc: Global,
    store: &P,
    job: &Job<'a>,
    file: &str,
    endings: &[String],
) -> Result<(), FileFault<'a>>
    ensures kept { OnOk result (All (IsNoInput (P.are_apart store.now) (task_of job.now))
        (names_ending (ending_of (task_of job.now)) string_bytes endings.now file.now)) }
    ensures missing { IfErr result (IsOfOutputs
        (names_ending (ending_of (task_of job.now)) string_bytes endings.now file.now)) }
{
    check_kept(alloc, store, job, file, ending(job))?;
    'endings: for ending in endings {
        check_kept(alloc, store, job, file, ending.as_str())?;
    }
    Ok(())
}

/// Refuses the first output that would go to an input and empty it.
fn check_inputs_kept<'a, R, W: Output, P: FileStore<R, W>>(
    alloc: Global,
    store: &P,
    job: &Job<'a>,
    files: &[&'a str],
    endings: &[String],
) -> Result<(), FileFault<'a>>
    ensures kept { OnOk result (All (IsNoInput (P.are_apart store.now) (task_of job.now))
        (flat_map (λ file. names_ending (ending_of (task_of job.now)) string_bytes endings.now file.now) files.now)) }
    ensures missing { IfErr result (IsOfOutputs
        (flat_map (λ file. names_ending (ending_of (task_of job.now)) string_bytes endings.now file.now) files.now)) }
{
    'files: for &file in files {
        check_outputs_kept(alloc, store, job, file, endings)?;
    }
    Ok(())
}

/// Whether an output has a name of a file that another output goes to.
fn is_taken<R, W: Output, P: FileStore<R, W>>(store: &P, taken: &[Place], place: &Place) -> bool
    ensures { result ≡ false → All (λ other. AreTwoOutputs (P.are_apart store.now) other (place_name place.now))
        (map place_name taken.now) }
{
    'taken: for other in taken {
        if share_file(store, other, place) {
            return true;
        }
    }
    false
}

/// Makes an output of a file, and notes its place among those that are taken. Its mark is its place among all, from 1.
fn make_output<'a, R, W: Output + Drop, P: FileStore<R, W>>(
    alloc: Global,
    store: &P,
    taken: &mut Vec<Place>,
    places: &mut Vec<Place>,
    file: &str,
    ending: &str,
) -> Result<W, FileFault<'a>>
    ensures made { IfOk result (IsMadeFor W.Output (P.is_made store.now) file.now ending.now) }
    ensures noted { IfOk result (λ output. map place_name taken.new.items
        ≡ map place_name taken.old.items ++ (file.now ++ ending.now) ∷ []) }
    ensures placed { IfOk result (λ output. map place_name places.new.items
        ≡ map place_name places.old.items ++ (file.now ++ ending.now) ∷ []) }
    ensures apart { IfOk result (λ output. AllPairs (AreTwoOutputs (P.are_apart store.now)) (map place_name taken.old.items)
        → AllPairs (AreTwoOutputs (P.are_apart store.now)) (map place_name taken.new.items)) }
    ensures missing { IfErr result (IsOfOutputs ((file.now ++ ending.now) ∷ [])) }
{
    let mut place = Place::new(alloc, file, ending)?;
    let Ok(before) = u32::try_from(taken.len()) else {
        return Err(FileFault::OutOfMemory);
    };
    let mark = before.wrapping_add(1);
    let Ok(output) = store.make(&mut place, mark) else {
        return Err(FileFault::CannotMake(place.into_name()));
    };
    if is_taken(store, taken.as_slice(), &place) {
        return Err(FileFault::CannotMake(place.into_name()));
    }
    let copy = place.copy(alloc)?;
    if taken.push(copy).is_err() || places.push(place).is_err() {
        return Err(FileFault::OutOfMemory);
    }
    Ok(output)
}

/// Makes the outputs of a file for its registers.
fn make_registers<'a, R, W: Output + Drop, P: FileStore<R, W>>(
    alloc: Global,
    store: &P,
    taken: &mut Vec<Place>,
    places: &mut Vec<Place>,
    file: &str,
    endings: &[String],
) -> Result<Vec<W>, FileFault<'a>>
    ensures made { IfOk result (λ outputs. AllZip (IsMadeFor W.Output (P.is_made store.now) file.now)
        (map string_bytes endings.now) outputs.items) }
    ensures noted { IfOk result (λ outputs. map place_name taken.new.items
        ≡ map place_name taken.old.items ++ map (λ ending. file.now ++ string_bytes ending) endings.now) }
    ensures placed { IfOk result (λ outputs. map place_name places.new.items
        ≡ map place_name places.old.items ++ map (λ ending. file.now ++ string_bytes ending) endings.now) }
    ensures apart { IfOk result (λ outputs. AllPairs (AreTwoOutputs (P.are_apart store.now)) (map place_name taken.old.items)
        → AllPairs (AreTwoOutputs (P.are_apart store.now)) (map place_name taken.new.items)) }
    ensures missing { IfErr result (IsOfOutputs (map (λ ending. file.now ++ string_bytes ending) endings.now)) }
{
    let mut outputs = Vec::new(alloc);
    'endings: for ending in endings {
        let output = make_output(alloc, store, taken, places, file, ending.as_str())?;
        if outputs.push(output).is_err() {
            return Err(FileFault::OutOfMemory);
        }
    }
    Ok(outputs)
}

/// Makes the outputs of a file.
fn make_sheet<'a, R: Drop, W: Output + Drop, P: FileStore<R, W>>(
    alloc: Global,
    store: &P,
    job: &Job<'a>,
    taken: &mut Vec<Place>,
    opened: OpenedFile<'a, R>,
    endings: &[String],
) -> Result<FileSheet<'a, R, W>, FileFault<'a>>
    ensures named { IfOk result (λ sheet. sheet_name sheet ≡ source_name opened.entry) }
    ensures made { P.is_opened store.now opened.entry.name.now opened.entry.source
        → IfOk result (IsNewSheet W.Output (P.is_opened store.now) (P.is_made store.now) (task_of job.now)
        (map string_bytes endings.now)) }
    ensures noted { IfOk result (λ sheet. map place_name taken.new.items ≡ map place_name taken.old.items
        ++ names_ending (ending_of (task_of job.now)) string_bytes endings.now (source_name opened.entry)) }
    ensures apart { IfOk result (λ sheet. AllPairs (AreTwoOutputs (P.are_apart store.now)) (map place_name taken.old.items)
        → AllPairs (AreTwoOutputs (P.are_apart store.now)) (map place_name taken.new.items)) }
    ensures missing { IfErr result (IsOfOutputs
        (names_ending (ending_of (task_of job.now)) string_bytes endings.now (source_name opened.entry))) }
{
    let mut places = Vec::new(alloc);
    let output = make_output(alloc, store, taken, &mut places, opened.name, ending(job))?;
    let registers = make_registers(alloc, store, taken, &mut places, opened.name, endings)?;
    Ok(FileSheet {
        name: opened.name,
        source: opened.source,
        output,
        registers,
        places,
    })
}

/// Makes the outputs of each file.
fn make_sheets<'a, R: Drop, W: Output + Drop, P: FileStore<R, W>>(
    alloc: Global,
    store: &P,
    job: &Job<'a>,
    sources: Vec<OpenedFile<'a, R>>,
    endings: &[String],
) -> Result<Vec<FileSheet<'a, R, W>>, FileFault<'a>>
    requires opened { All (λ opened. P.is_opened store.now opened.name.now opened.source) sources.items }
    ensures named { IfOk result (λ sheets. map sheet_name sheets.items ≡ map source_name sources.entry.items) }
    ensures made { IfOk result (λ sheets. All (IsNewSheet W.Output (P.is_opened store.now) (P.is_made store.now)
        (task_of job.now) (map string_bytes endings.now)) sheets.items) }
    ensures apart { IfOk result (λ sheets. AllPairs (AreTwoOutputs (P.are_apart store.now))
        (flat_map (λ opened. names_ending (ending_of (task_of job.now)) string_bytes endings.now (source_name opened))
        sources.entry.items)) }
    ensures missing { IfErr result (IsOfOutputs
        (flat_map (λ opened. names_ending (ending_of (task_of job.now)) string_bytes endings.now (source_name opened))
        sources.entry.items)) }
{
    let mut sheets = Vec::new(alloc);
    let mut taken = Vec::new(alloc);
    'sources: for opened in sources {
        let sheet = make_sheet(alloc, store, job, &mut taken, opened, endings)?;
        if sheets.push(sheet).is_err() {
            return Err(FileFault::OutOfMemory);
        }
    }
    Ok(sheets)
}

/// Opens all files, looks whether an output would go to one of them or to the list of names, and then makes the outputs.
///
/// # Errors
///
/// `CannotOpen` for the first file that cannot be opened; `CannotMake` for the first output that would go to an input, or
/// else for the first that cannot be made or goes to the file of an earlier one; and `OutOfMemory`. No output is made
/// before all files are opened.
pub fn open_sheets<'a, R: Drop, W: Output + Drop, P: FileStore<R, W>>(
    alloc: Global,
    store: &P,
    job: &Job<'a>,
) -> Result<Vec<FileSheet<'a, R, W>>, FileFault<'a>>
    ensures named { IfOk result (λ sheets. map sheet_name sheets.items ≡ (task_of job.now).files) }
    ensures made { IfOk result (λ sheets. All (IsNewSheet W.Output (P.is_opened store.now) (P.is_made store.now)
        (task_of job.now) (register_endings (task_of job.now))) sheets.items) }
    ensures apart { OnOk result (AreApartOutputs (P.are_apart store.now) (task_of job.now)) }
    ensures fault { IfErr result (IsFaultOfFiles (task_of job.now)) }
{
    let endings = register_endings(alloc, job)?;
    let sources = open_sources(alloc, store, job.files.as_slice())?;
    check_inputs_kept(alloc, store, job, job.files.as_slice(), endings.as_slice())?;
    make_sheets(alloc, store, job, sources, endings.as_slice())
}
