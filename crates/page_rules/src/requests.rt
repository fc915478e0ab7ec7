//! What is asked of a table.

ghost use Rattle.std.specs.Prelude.{◌≡◌, ◌<◌, ◌≤◌, get_or, true, false, length, take, IfOk, IfErr};
ghost use Rattle.date_texts.specs.Calendars.{all_targets};
ghost use Rattle.date_texts.specs.declared.target.TheConstants.{MAX_TARGETS};
ghost use Rattle.register_records.specs.SetupRules.{NamesTwice, is_delimiter};
ghost use Rattle.register_records.specs.Views.{layout_of, reading_of};
ghost use Rattle.page_rules.specs.Requests.{form_by, goes_beyond, layout_by, reading_by, targets_at};
ghost use Rattle.page_rules.specs.declared.requests.TheConstants.{TOO_MANY};

use date_texts::laws::{all_targets as every_target, few_targets};
use date_texts::{MAX_TARGETS, Target};
use register_records::{Form, Setup, SetupFault};

/// Why nothing is converted: the first of these that applies.
#[derive(Clone, Copy, PartialEq, Eq, Debug)]
pub enum RequestFault {
    /// A column has a place past the end of the list of all targets.
    NoSuchColumn,
    /// A column is named twice.
    ColumnTwice,
    /// The delimiter is no comma, semicolon or tab.
    Delimiter,
}

impl RequestFault {
    ghost use Rattle.page_rules.specs.Requests.{fault_number};

    /// The number of the fault, from 1 for `NoSuchColumn` to 3 for `Delimiter`.
    pub fn number(&self) -> u8
        ensures { result ≡ fault_number self.now }
    {
        match self {
            RequestFault::NoSuchColumn => 1,
            RequestFault::ColumnTwice => 2,
            RequestFault::Delimiter => 3,
        }
    }
}

/// The form of a register that has seals, or of one that has none.
fn form_of(sealed: bool) -> Form
    ensures { result ≡ form_by sealed }
{
    if sealed { Form::Sealed } else { Form::Plain }
}

/// Whether a column has no target.
fn goes_beyond_all(columns: &[u8]) -> bool
    ensures { result ≡ goes_beyond columns.now }
{
    columns.iter().any(|column| *column as usize >= MAX_TARGETS)
}

/// The target of a column.
fn target_at(column: u8) -> Target
    requires { column < MAX_TARGETS }
    ensures { result ≡ get_or all_targets column Target.Tzolkin }
{
    every_target();
    Target::ALL[column as usize]
}

/// More targets than there are: of so many, two are the same.
const TOO_MANY: usize = MAX_TARGETS + 1;

/// Sets the first targets to those of the columns, as far as there is room, and says how many they are.
fn set_targets(targets: &mut [Target; TOO_MANY], columns: &[u8]) -> usize
    requires { goes_beyond columns.now ≡ false }
    ensures few { result ≤ TOO_MANY }
    ensures value { take result targets.new ≡ targets_at (take TOO_MANY columns.now) }
{
    let count = usize::min(columns.len(), TOO_MANY);
    'columns: for i in 0..count {
        targets[i] = target_at(columns[i]);
    }
    count
}

/// The setup of the table with these columns.
///
/// # Errors
///
/// The first fault that applies.
pub(crate) fn setup_for(columns: &[u8], delimiter: u8, sealed: bool) -> Result<Setup, RequestFault>
    ensures value { IfOk result (λ s. (reading_of s ≡ reading_by delimiter sealed)
        × (layout_of s ≡ layout_by columns.now delimiter sealed)) }
    ensures good { IfOk result (λ s. (goes_beyond columns.now ≡ false) × (¬ (NamesTwice (targets_at columns.now)))
        × (is_delimiter delimiter ≡ true)) }
    ensures none { IfErr result (λ f. f ≡ RequestFault.NoSuchColumn → goes_beyond columns.now ≡ true) }
    ensures twice { IfErr result (λ f. f ≡ RequestFault.ColumnTwice
        → (goes_beyond columns.now ≡ false) × NamesTwice (targets_at columns.now)) }
    ensures delimiter { IfErr result (λ f. f ≡ RequestFault.Delimiter
        → (goes_beyond columns.now ≡ false) × (¬ (NamesTwice (targets_at columns.now)))
        × (is_delimiter delimiter ≡ false)) }
{
    if goes_beyond_all(columns) {
        return Err(RequestFault::NoSuchColumn);
    }
    few_targets();
    let mut targets = [Target::Tzolkin; TOO_MANY];
    let count = set_targets(&mut targets, columns);
    match Setup::new(&targets[..count], 1, delimiter, 1, form_of(sealed)) {
        Ok(setup) => Ok(setup),
        Err(SetupFault::TargetTwice) => Err(RequestFault::ColumnTwice),
        Err(SetupFault::Delimiter) => Err(RequestFault::Delimiter),
        Err(SetupFault::RingSize | SetupFault::Stripes) => unreachable!(),
    }
}
