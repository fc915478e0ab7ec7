//! What is there before the first sheet of a job is read.

ghost use Rattle.std.specs.Prelude.{◌≡◌, ◌≤◌, [], vec_capacity, vec_len};
ghost use Rattle.sheet_arguments.specs.Requests.{task_of};
ghost use Rattle.sheet_app.specs.private.SheetViews.{IsTask};

use crate::converting::EndedSheet;
use crate::file_sheets::FileSheet;
use sheet_arguments::Job;
use sheets::NameList;

/// What sheets are converted by: the job that asks for them, and the names that their dates are read by.
#[derive(Clone, Copy)]
pub(crate) struct Conversion<'c, 'a> {
    pub job: &'c Job<'a>,
    pub list: &'c NameList,
    ghost task: { IsTask (task_of job.now) },
}

/// The sheets of files, and room for what they have ended as.
#[derive(Drop)]
pub(crate) struct RoomySheets<'a, R, W> {
    pub sheets: Vec<FileSheet<'a, R, W>>,
    pub room: Vec<EndedSheet<'a, W>>,
    ghost none: { room.items ≡ [] },
    ghost roomy: { vec_len sheets ≤ vec_capacity room },
}

/// What a job needs before its first sheet is read: the names, and the sheets of its files.
#[derive(Drop)]
pub(crate) struct Prepared<'a, R, W> {
    pub list: NameList,
    pub files: RoomySheets<'a, R, W>,
}
