//! The three columns that a list names.

ghost use Rattle.std.specs.Prelude.{◌≡◌, Err, IfErr, IfOk, IfSome, Ok, option_map};
ghost use Rattle.programs.specs.Faults.{fault_of_error};
ghost use Rattle.sheet_arguments.specs.ThreeColumns.{cut as cut_spec, three_asked, three_in, words_seen};
ghost use Rattle.sheet_arguments.specs.private.ThreeColumns.{parts_seen};

use programs::RequestFault;

/// The words that name the columns with the years, the months and the days of dates.
#[derive(Clone, Copy)]
pub struct ThreeColumns<'a> {
    pub year: &'a str,
    pub month: &'a str,
    pub day: &'a str,
}

/// What stands before the first comma of a list and behind it, where it has one.
fn cut(list: &str) -> Option<(&str, &str)>
    ensures { option_map parts_seen result ≡ cut_spec list.now }
{
    list.split_once(',')
}

/// The words of a list of three.
fn three_named(list: &str) -> Option<ThreeColumns<'_>>
    ensures { option_map words_seen result ≡ three_in list.now }
{
    let (year, rest) = cut(list)?;
    let (month, day) = cut(rest)?;
    match cut(day) {
        Some(_) => None,
        None => Some(ThreeColumns { year, month, day }),
    }
}

/// The columns that the value of `--three` names, if it is given.
///
/// # Errors
///
/// It is no list of three words.
pub fn chosen_three<'a>(list: Option<&'a str>) -> Result<Option<ThreeColumns<'a>>, RequestFault<'a>>
    ensures value { IfOk result (λ three.
        three_asked (option_map (λ l. l.now) list.entry) ≡ Ok (option_map words_seen three)) }
    ensures fault { IfErr result (λ error. IfSome (fault_of_error error)
        (λ fault. three_asked (option_map (λ l. l.now) list.entry) ≡ Err fault)) }
{
    let Some(list) = list else {
        return Ok(None);
    };
    match three_named(list) {
        Some(three) => Ok(Some(three)),
        None => Err(RequestFault::Refused("bad year, month and day: ", list)),
    }
}
