//! The columns that a list names.

ghost use Rattle.std.specs.Prelude.{◌≡◌, [], Err, IfErr, IfOk, IfSome, Ok, option_map};
ghost use Rattle.programs.specs.Faults.{fault_of_error};
ghost use Rattle.sheets.specs.Headings.{asked_name};
ghost use Rattle.sheet_arguments.specs.WordLists.{column_named as named_spec, columns_asked, is_among as among_spec, names_in};
ghost use Rattle.sheet_arguments.specs.WordLists.{with_columns};

use date_texts::{Calendar, Target, target_named, trimmed};
use programs::RequestFault;
use sheets::AskedColumn;
use std::alloc::Global;

/// The columns without a list.
const DEFAULT: [AskedColumn; 2] = [
    AskedColumn::Weekday,
    AskedColumn::Cells(Target::Date(Calendar::Gregorian)),
];

/// The column that a name names.
fn column_named(name: &str) -> Option<AskedColumn>
    ensures { result ≡ named_spec name.now }
{
    let bare = trimmed(name.as_bytes());
    if bare.eq_ignore_ascii_case(b"rd") {
        return Some(AskedColumn::DayNumber);
    }
    if bare.eq_ignore_ascii_case(b"weekday") {
        return Some(AskedColumn::Weekday);
    }
    if bare.eq_ignore_ascii_case(b"church") {
        return Some(AskedColumn::Church);
    }
    match target_named(name) {
        Some(target) => Some(AskedColumn::Cells(target)),
        None => None,
    }
}

/// The name of a column asked.
fn column_name(column: AskedColumn) -> &'static str
    ensures { result.now ≡ asked_name column }
{
    match column {
        AskedColumn::DayNumber => "rd",
        AskedColumn::Weekday => "weekday",
        AskedColumn::Church => "church",
        AskedColumn::Cells(target) => target.name(),
    }
}

/// Whether a column is among others.
fn is_among(columns: &[AskedColumn], column: AskedColumn) -> bool
    ensures { result ≡ among_spec columns.now column }
{
    columns
        .iter()
        .any(|other| column_name(*other) == column_name(column))
}

/// The columns that a list names, in its order: names between commas.
fn read_columns(alloc: Global, list: &str) -> Result<Vec<AskedColumn>, RequestFault<'_>>
    ensures value { IfOk result (λ columns. with_columns [] (names_in list.entry.now) ≡ Ok columns.items) }
    ensures fault { IfErr result (λ error. IfSome (fault_of_error error)
        (λ fault. with_columns [] (names_in list.entry.now) ≡ Err fault)) }
{
    let mut columns = Vec::new(alloc);
    'names: for name in list.split(',') {
        let Some(column) = column_named(name) else {
            return Err(RequestFault::Refused("unknown column: ", name));
        };
        if is_among(columns.as_slice(), column) {
            return Err(RequestFault::Refused("column named twice: ", column_name(column)));
        }
        if columns.push(column).is_err() {
            return Err(RequestFault::OutOfMemory);
        }
    }
    Ok(columns)
}

/// The columns that the value of `--to` asks for, or the weekday and the Gregorian date where there is none.
///
/// # Errors
///
/// The names are looked at from left to right, for the first that names no column, or whose column was named before.
pub fn chosen_columns<'a>(
    alloc: Global,
    list: Option<&'a str>,
) -> Result<Vec<AskedColumn>, RequestFault<'a>>
    ensures value { IfOk result (λ columns. columns_asked (option_map (λ l. l.now) list.entry) ≡ Ok columns.items) }
    ensures fault { IfErr result (λ error. IfSome (fault_of_error error)
        (λ fault. columns_asked (option_map (λ l. l.now) list.entry) ≡ Err fault)) }
{
    match list {
        Some(list) => read_columns(alloc, list),
        None => match DEFAULT.to_vec(alloc) {
            Ok(columns) => Ok(columns),
            Err(_) => Err(RequestFault::OutOfMemory),
        },
    }
}
