//! The ring and the stripes of a run for which none are written.

ghost use Rattle.std.specs.Prelude.{◌≡◌, true};
ghost use Rattle.register_records.specs.SetupRules.{is_ring_size, is_stripe_count};
ghost use Rattle.register_arguments.specs.Fittings.{fitting_for};

/// So many registers are few.
const FEW_FILES: usize = 4;

/// What fits a machine and a number of registers.
#[derive(Clone, Copy)]
pub struct Fit {
    /// How many items a ring holds.
    pub ring: usize,
    /// How many converters a source has.
    pub stripes: usize,
    ghost ring_fits: { is_ring_size ring ≡ true },
    ghost stripes_fit: { is_stripe_count stripes ≡ true },
}

/// What fits a machine that has so many processors for the program, and so many files; without files there is one register,
/// from standard input. Neither changes a table: they were chosen by speed and memory.
pub fn fitting(processors: usize, files: usize) -> Fit
    ensures ring { result.ring ≡ (fitting_for processors files).ring }
    ensures stripes { result.stripes ≡ (fitting_for processors files).stripes }
{
    let (ring, stripes) = if processors >= 2 && files <= 1 {
        (256, 2)
    } else if files <= FEW_FILES {
        (256, 1)
    } else {
        (64, 1)
    };
    Fit { ring, stripes }
}
