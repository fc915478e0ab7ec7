//! The files that arguments name.

ghost use Rattle.std.specs.Prelude.{ℕ, List, IfErr, IfSome, IfNone, IsSomeAnd, OnOk, map};
ghost use Rattle.programs.specs.Faults.{fault_of_error};
ghost use Rattle.programs.specs.FileLists.{AreFilesToConvert, IsFilesFault, IsFirstFileTwice, IsNamedTwice};

use crate::request_faults::RequestFault;

/// The most files of a command line.
pub const MAX_FILES: usize = 32;

/// The first file from the left that was named before, or `None` where each is named once.
fn file_named_twice<'a>(files: &[&'a str]) -> Option<&'a str>
    ensures first { IfSome result (λ file. IsFirstFileTwice (map (λ f. f.now) files.now) file.now) }
    ensures none { IfNone result ((file : List ℕ) → ¬ (IsNamedTwice (map (λ f. f.now) files.now) file)) }
{
    'places: for place in 0..files.len() {
        if files[..place].contains(&files[place]) {
            return Some(files[place]);
        }
    }
    None
}

/// Finds what is wrong with the files.
///
/// # Errors
///
/// There are more than 32, or else one was named before, of which it says the first.
pub fn check_files<'a>(files: &[&'a str]) -> Result<(), RequestFault<'a>>
    ensures fine { OnOk result (AreFilesToConvert (map (λ f. f.now) files.now)) }
    ensures fault { IfErr result (λ error. IsSomeAnd (fault_of_error error) (IsFilesFault (map (λ f. f.now) files.now))) }
{
    if files.len() > MAX_FILES {
        return Err(RequestFault::Refused("more than 32 files", ""));
    }
    match file_named_twice(files) {
        Some(file) => Err(RequestFault::Refused("file named twice: ", file)),
        None => Ok(()),
    }
}
