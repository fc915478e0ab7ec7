//! What a conversion is asked for.

ghost use Rattle.std.specs.Prelude.{◌≡◌, ◌≤◌, ◌<◌, ◌↔◌, ◌≢◌, ◌∷◌, [], ℕ, length, IfOk, Err, true, false, slice_get};
ghost use Rattle.register_records.specs.SetupRules.{NamesTwice, is_delimiter, is_ring_size, is_stripe_count};

use crate::target_lists::TargetList;
use date_texts::laws::few_targets;
use date_texts::{MAX_TARGETS, Target};
use thiserror::Error;

/// The largest ring.
pub const MAX_RING: usize = 4096;

/// The most converters of a source.
pub const MAX_STRIPES: usize = 4;

/// Whether a register has seals.
#[derive(Clone, Copy, PartialEq, Eq, Debug)]
pub enum Form {
    /// A register of three columns, which is whole wherever it ends.
    Plain,
    /// A register of four columns, the last of them a note, which is whole only where its last record is a seal with
    /// the number of the records before it.
    Sealed,
}

impl Form {
    ghost use Rattle.register_records.specs.private.Records.{field_count};

    /// How many fields the header and each entry have.
    pub(crate) fn field_count(self) -> usize
        ensures { result ≡ field_count self }
    {
        match self {
            Form::Plain => 3,
            Form::Sealed => 4,
        }
    }
}

/// The targets, the size of the rings, the delimiter, the number of converters and the form of a conversion.
#[derive(Clone, Copy)]
pub struct Setup {
    pub(crate) targets: TargetList,
    ring: usize,
    delimiter: u8,
    stripes: usize,
    form: Form,
    ghost rings: { is_ring_size ring ≡ true },
    ghost separates: { is_delimiter delimiter ≡ true },
    ghost striped: { is_stripe_count stripes ≡ true },
}

/// Why there is no such setup: the first of these that applies.
#[derive(Clone, Copy, PartialEq, Eq, Debug, Error)]
pub enum SetupFault {
    /// A target is named twice.
    #[error("a target is named twice")]
    TargetTwice,
    /// A ring is not for 1 to 4096 items.
    #[error("the ring size is not from 1 to 4096")]
    RingSize,
    /// The delimiter is no comma, semicolon or tab.
    #[error("the delimiter is no comma, semicolon or tab")]
    Delimiter,
    /// A source has not 1 to 4 converters.
    #[error("the number of stripes is not from 1 to 4")]
    Stripes,
}

impl SetupFault {
    ghost use Rattle.day_numbers.specs.Numbered.{IsNumbered};
    ghost use Rattle.register_records.specs.declared.setups.SetupFault.TheVariants.{Delimiter, RingSize, Stripes};
    ghost use Rattle.register_records.specs.declared.setups.SetupFault.TheVariants.{TargetTwice};

    /// The number of the fault, from 1 for `TargetTwice` to 4 for `Stripes`.
    pub fn number(&self) -> u8
        ensures { IsNumbered (TargetTwice ∷ RingSize ∷ Delimiter ∷ Stripes ∷ []) result self.now }
    {
        match self {
            SetupFault::TargetTwice => 1,
            SetupFault::RingSize => 2,
            SetupFault::Delimiter => 3,
            SetupFault::Stripes => 4,
        }
    }
}

impl Setup {
    ghost use Rattle.register_records.specs.Views.{targets_of};

    /// A setup for these targets, in this order; there may be none. Each ring holds `ring` items, from 1
    /// to 4096; `delimiter`, a comma, a semicolon or a tab, stands between two fields of the input and of
    /// the output; each source of a run has `stripes` converters, from 1 to 4; and each register has this
    /// `form`.
    ///
    /// # Errors
    ///
    /// The first that applies of `TargetTwice`, `RingSize`, `Delimiter` and `Stripes`.
    ///
    /// # Examples
    ///
    /// ```
    /// let targets = [Target::Date(Calendar::Gregorian), Target::Tzolkin];
    /// let setup = Setup::new(&targets, 16, b',', 1, Form::Plain)?;
    /// assert!(rt; setup.targets() == targets.as_slice());
    /// let fault = Setup::new(&targets, 0, b',', 1, Form::Plain).err();
    /// assert!(rt; fault == Some(SetupFault::RingSize));
    /// ```
    pub fn new(
        targets: &[Target],
        ring: usize,
        delimiter: u8,
        stripes: usize,
        form: Form,
    ) -> Result<Setup, SetupFault>
        ensures value { IfOk result (λ s. (targets_of s ≡ targets.now) × (s.ring ≡ ring)
            × (s.delimiter ≡ delimiter) × (s.stripes ≡ stripes) × (s.form ≡ form)) }
        ensures twice { (result ≡ Err SetupFault.TargetTwice) ↔ NamesTwice targets.now }
        ensures ring_size { (result ≡ Err SetupFault.RingSize)
            ↔ ((¬ (NamesTwice targets.now)) × (is_ring_size ring ≡ false)) }
        ensures delimiter { (result ≡ Err SetupFault.Delimiter)
            ↔ ((¬ (NamesTwice targets.now)) × (is_ring_size ring ≡ true) × (is_delimiter delimiter ≡ false)) }
        ensures stripes { (result ≡ Err SetupFault.Stripes) ↔ ((¬ (NamesTwice targets.now)) × (is_ring_size ring ≡ true)
            × (is_delimiter delimiter ≡ true) × (is_stripe_count stripes ≡ false)) }
    {
        if names_twice(targets) {
            return Err(SetupFault::TargetTwice);
        }
        if ring < 1 || ring > MAX_RING {
            return Err(SetupFault::RingSize);
        }
        if delimiter != b',' && delimiter != b';' && delimiter != b'\t' {
            return Err(SetupFault::Delimiter);
        }
        if stripes < 1 || stripes > MAX_STRIPES {
            return Err(SetupFault::Stripes);
        }
        few_targets();
        Ok(Setup {
            targets: TargetList::new(targets),
            ring,
            delimiter,
            stripes,
            form,
        })
    }

    /// The targets, in the order of the columns.
    pub fn targets(&self) -> &[Target]
        ensures value { result.now ≡ targets_of self.now }
        ensures few { length result.now ≤ MAX_TARGETS }
    {
        self.targets.as_slice()
    }

    /// How many items a ring holds, from 1 to 4096.
    pub fn ring(&self) -> usize
        ensures value { result ≡ self.now.ring }
        ensures fits { is_ring_size result ≡ true }
    {
        self.ring
    }

    /// The byte between two fields: a comma, a semicolon or a tab.
    pub fn delimiter(&self) -> u8
        ensures value { result ≡ self.now.delimiter }
        ensures fits { is_delimiter result ≡ true }
    {
        self.delimiter
    }

    /// How many converters a source has, from 1 to 4.
    pub fn stripes(&self) -> usize
        ensures value { result ≡ self.now.stripes }
        ensures fits { is_stripe_count result ≡ true }
    {
        self.stripes
    }

    /// Whether registers have seals.
    pub fn form(&self) -> Form
        ensures { result ≡ self.now.form }
    {
        self.form
    }
}

/// Whether a target stands at two places.
fn names_twice(targets: &[Target]) -> bool
    ensures some { result ≡ true → (i : ℕ) × (j : ℕ) × (i < j) × (j < length targets.now)
        × (slice_get targets.now i ≡ slice_get targets.now j) }
    ensures none { result ≡ false → (i : ℕ) → (j : ℕ) → i < j → j < length targets.now
        → slice_get targets.now i ≢ slice_get targets.now j }
{
    'later: for j in 0..targets.len() {
        'earlier: for i in 0..j {
            if targets[i] == targets[j] {
                return true;
            }
        }
    }
    false
}
