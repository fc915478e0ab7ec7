//! What the words of options mean.

ghost use Rattle.std.specs.Prelude.{◌≡◌, ◌≤◌, ℕ, List, Option, IfOk, IfErr, IfSome, IsSomeAnd, OnOk, option_and_then, option_map};
ghost use Rattle.clap.specs.Words.{first_of, found_of, rows_of};
ghost use Rattle.programs.specs.Faults.{fault_of_error};
ghost use Rattle.programs.specs.Meanings.{option_check};
ghost use Rattle.programs.specs.Values.{byte_of, delimiter_of, number_of};

use crate::arguments::value_given;
use crate::request_faults::RequestFault;
use clap::ArgMatches;

/// The most digits of a number.
const MAX_DIGITS: usize = 5;

/// The number from 1 to `most` that a word of one to five decimal digits names, or `None` where it names none.
pub fn number_named(word: &str, most: usize) -> Option<usize>
    ensures named { result ≡ number_of most word.now }
    ensures within { IfSome result (λ number. (1 ≤ number) × (number ≤ most)) }
{
    if word.len() > MAX_DIGITS || word.starts_with('+') {
        return None;
    }
    let Ok(number) = word.parse::<usize>() else {
        return None;
    };
    if 1 <= number && number <= most {
        Some(number)
    } else {
        None
    }
}

/// The words of an option.
pub trait OptionWords {
    /// What they name.
    type Value;

    // What a word names, if it names something.
    ghost value_of: { List ℕ → Option Self.Value };

    /// What a word names, or `None` where it names nothing.
    fn named(word: &str) -> Option<Self::Value>
        ensures { result ≡ value_of word.now };
}

/// The numbers from 1 to `MOST`, of one to five decimal digits.
pub enum NumberTo<const MOST: usize> {}

impl<const MOST: usize> OptionWords for NumberTo<MOST> {
    type Value = usize;

    ghost value_of = { number_of MOST };

    fn named(word: &str) -> Option<usize> {
        number_named(word, MOST)
    }
}

/// What stands between two fields, by `--delimiter`.
#[derive(Clone, Copy)]
pub enum Delimiter {
    Comma,
    Semicolon,
    Tab,
}

impl Delimiter {
    /// Its byte.
    pub fn byte(self) -> u8
        ensures { result ≡ byte_of self }
    {
        match self {
            Delimiter::Comma => b',',
            Delimiter::Semicolon => b';',
            Delimiter::Tab => b'\t',
        }
    }
}

impl OptionWords for Delimiter {
    type Value = Delimiter;

    ghost value_of = { delimiter_of };

    fn named(word: &str) -> Option<Delimiter> {
        match word {
            "comma" => Some(Delimiter::Comma),
            "semicolon" => Some(Delimiter::Semicolon),
            "tab" => Some(Delimiter::Tab),
            _ => None,
        }
    }
}

/// What the word of an option names, if there is a word.
///
/// # Errors
///
/// A word that names nothing, and that this is what is wrong with it.
pub fn chosen_word<'a, W: OptionWords>(
    what: &'static str,
    word: Option<&'a str>,
) -> Result<Option<W::Value>, RequestFault<'a>>
    ensures value { IfOk result (λ value. value ≡ option_and_then W.value_of (option_map (λ w. w.now) word.entry)) }
    ensures passes { OnOk result ((option_check W.value_of what.entry.now (option_map (λ w. w.now) word.entry)).passes) }
    ensures fault { IfErr result (λ error. IsSomeAnd (fault_of_error error)
        ((option_check W.value_of what.entry.now (option_map (λ w. w.now) word.entry)).fails)) }
{
    let Some(word) = word else {
        return Ok(None);
    };
    match W::named(word) {
        Some(value) => Ok(Some(value)),
        None => Err(RequestFault::Refused(what, word)),
    }
}

/// What the value of an option names, if the arguments give one.
///
/// # Errors
///
/// A value that names nothing, and that this is what is wrong with it.
pub fn chosen<'a, W: OptionWords>(
    matches: &ArgMatches<'a>,
    name: &str,
    what: &'static str,
) -> Result<Option<W::Value>, RequestFault<'a>>
    ensures value { IfOk result (λ value.
        value ≡ option_and_then W.value_of (first_of name.now (rows_of (found_of matches.now)))) }
    ensures passes { OnOk result
        ((option_check W.value_of what.entry.now (first_of name.now (rows_of (found_of matches.now)))).passes) }
    ensures fault { IfErr result (λ error. IsSomeAnd (fault_of_error error)
        ((option_check W.value_of what.entry.now (first_of name.now (rows_of (found_of matches.now)))).fails)) }
{
    chosen_word::<W>(what, value_given(matches, name))
}
