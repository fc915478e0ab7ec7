//! The files of the system, and the standard streams beside them.

ghost use Rattle.std.specs.Prelude.{◌≡◌, ◌≢◌, ◌↔◌, ⊤, true};
ghost use Rattle.programs.specs.Sides.{destination_contents, source_remaining};

use crate::file_store::FileStore;
use crate::logged_writer::LoggedWriter;
use crate::places::Place;
use register_records::PlainOutput;
use std::fs::{File, Metadata, OpenFile, OpenOptions, TryLockError};
use std::io;
use std::io::{ErrorKind, Read, Write};
use std::os::unix::fs::MetadataExt;
use std::rt::Files;

/// What the program reads: standard input, or a file.
#[derive(Drop)]
pub enum Source<I, F> {
    Input(I),
    File(F),
}

/// What the program writes to: standard output, or a file.
#[derive(Drop)]
pub enum Destination<O, F> {
    Output(O),
    File(F),
}

impl<I: Read, F: Read> Read for Source<I, F> {
    ghost remaining = { source_remaining I.remaining F.remaining };

    fn read(&mut self, buf: &mut [u8]) -> io::Result<usize> {
        match self {
            Source::Input(input) => input.read(buf),
            Source::File(file) => file.read(buf),
        }
    }
}

impl<O: Write, F: Write> Write for Destination<O, F> {
    ghost contents = { destination_contents O.contents F.contents };

    fn write(&mut self, buf: &[u8]) -> io::Result<usize> {
        match self {
            Destination::Output(output) => output.write(buf),
            Destination::File(file) => file.write(buf),
        }
    }

    fn flush(&mut self) -> io::Result<()> {
        match self {
            Destination::Output(output) => output.flush(),
            Destination::File(file) => file.flush(),
        }
    }
}

/// A file that one opening of it can lock against others.
pub trait Exclusive {
    /// Locks the file for this opening of it alone, until it is closed.
    ///
    /// # Errors
    ///
    /// `WouldBlock` where another opening has locked it. Where the file system has no locks, there is no error.
    fn lock(&self) -> io::Result<()>;
}

impl Exclusive for File {
    fn lock(&self) -> io::Result<()> {
        match self.try_lock() {
            Err(TryLockError::WouldBlock) => Err(io::Error::from(ErrorKind::WouldBlock)),
            Ok(()) | Err(TryLockError::Error(_)) => Ok(()),
        }
    }
}

/// Empties a file. One of no bytes is left as it is: the closing of an emptied one waits for the disk.
fn empty<F: OpenFile>(file: &F) -> io::Result<()> {
    if file.metadata()?.len() > 0 {
        file.set_len(0)?;
    }
    Ok(())
}

/// Whether a file can be made by this name and get another one later: nothing has the name, or a regular file, to which it
/// is no link.
fn is_free<R: Files>(files: &R, name: &str) -> bool {
    match files.symlink_metadata(name) {
        Ok(found) => found.is_file(),
        Err(error) => error.kind() == ErrorKind::NotFound,
    }
}

/// What the system knows a file by: the number of its file system, and the file's own number there, which is 0 where it
/// has none.
#[derive(Clone, Copy)]
struct FileId {
    file_system: u64,
    file: u64,
}

impl FileId {
    /// What the file with this metadata is known by.
    fn of(metadata: &Metadata) -> FileId {
        FileId {
            file_system: metadata.dev(),
            file: metadata.ino(),
        }
    }
}

/// Whether one file is known by both.
fn are_of_one_file(one: FileId, two: FileId) -> bool
    ensures { (result ≡ true) ↔ ((one.file ≢ 0) × (one.file ≡ two.file) × (one.file_system ≡ two.file_system)) }
{
    one.file != 0 && one.file == two.file && one.file_system == two.file_system
}

/// The files of the system.
#[derive(Clone, Copy)]
pub struct Disk<'a, F> {
    files: &'a F,
}

/// A file that was opened for an output.
struct OutputFile<F> {
    file: F,
    /// Whether it has the second name of its place.
    is_part: bool,
}

impl<'a, F: Files> Disk<'a, F> {
    /// The files that `files` reaches.
    pub fn new(files: &'a F) -> Disk<'a, F> {
        Disk { files }
    }

    /// Opens the file of an output by this name, or makes it, and leaves what stands in it.
    fn open_output(&self, name: &str) -> io::Result<F::File> {
        OpenOptions::new()
            .write(true)
            .create(true)
            .open(self.files, name)
    }

    /// Whether this is the file of this name.
    fn is_file_of(&self, file: &F::File, name: &str) -> io::Result<bool> {
        let opened = FileId::of(&file.metadata()?);
        let named = FileId::of(&self.files.metadata(name)?);
        Ok(opened.file == named.file && opened.file_system == named.file_system)
    }
}

impl<'a, F: Files> Disk<'a, F>
where
    F::File: Exclusive,
{
    /// The file that an output is to replace, if there is one, locked for this run alone.
    fn open_older(&self, name: &str) -> io::Result<Option<F::File>> {
        match OpenOptions::new().write(true).open(self.files, name) {
            Ok(older) => {
                older.lock()?;
                Ok(Some(older))
            }
            Err(error) if error.kind() == ErrorKind::NotFound => Ok(None),
            Err(error) => Err(error),
        }
    }

    /// Opens the file of an output by the second name of its place, with the permissions of the one that it is to replace;
    /// or none, where a name is that of no regular file, or none can be made there.
    fn open_part(&self, place: &Place) -> io::Result<Option<F::File>> {
        if !is_free(self.files, place.name()) || !is_free(self.files, place.part()) {
            return Ok(None);
        }
        let older = self.open_older(place.name())?;
        let Ok(part) = self.open_output(place.part()) else {
            return Ok(None);
        };
        if let Some(older) = older {
            let _ = part.set_permissions(older.metadata()?.permissions());
        }
        Ok(Some(part))
    }

    /// Opens the file of an output, locks it for this run alone, and then empties it. Another run may have given a part its
    /// name before the lock: then it is no longer a part, and stays as it is.
    fn make_file(&self, place: &Place) -> io::Result<OutputFile<F::File>> {
        let part = self.open_part(place)?;
        let is_part = part.is_some();
        let file = match part {
            Some(part) => part,
            None => self.open_output(place.name())?,
        };
        file.lock()?;
        if is_part && !self.is_file_of(&file, place.part())? {
            return Err(io::Error::from(ErrorKind::WouldBlock));
        }
        empty(&file)?;
        Ok(OutputFile { file, is_part })
    }
}

impl<'a, F: Files, I: Read, O: Write> FileStore<
    Source<I, F::File>,
    PlainOutput<LoggedWriter<Destination<O, F::File>>>,
> for Disk<'a, F>
where
    F::File: Exclusive,
{
    ghost is_opened = { λ _ _ _. ⊤ };

    ghost is_made = { λ _ _ mark output. output.mark ≡ mark };

    ghost is_named = { λ _ _. ⊤ };

    ghost are_apart = { λ _ _ _. ⊤ };

    // A folder can be opened but not read, so it is refused here.
    fn open(&self, name: &str) -> io::Result<Source<I, F::File>> {
        let file = OpenOptions::new().read(true).open(self.files, name)?;
        if file.metadata()?.is_dir() {
            return Err(io::Error::from(ErrorKind::IsADirectory));
        }
        Ok(Source::File(file))
    }

    fn make(
        &self,
        place: &mut Place,
        mark: u32,
    ) -> io::Result<PlainOutput<LoggedWriter<Destination<O, F::File>>>> {
        let OutputFile { file, is_part } = self.make_file(place)?;
        if is_part {
            place.set_part();
        }
        Ok(PlainOutput::new(LoggedWriter::new(Destination::File(file)), mark))
    }

    fn give_name(&self, place: &Place) -> bool {
        !place.is_part() || self.files.rename(place.part(), place.name()).is_ok()
    }

    fn are_one_file(&self, name: &str, other: &str) -> bool {
        let Ok(one) = self.files.metadata(name) else {
            return false;
        };
        let Ok(two) = self.files.metadata(other) else {
            return false;
        };
        are_of_one_file(FileId::of(&one), FileId::of(&two))
    }
}
