//! A conversion, and the setup of its run.

ghost use Rattle.std.specs.Prelude.{◌≡◌, true};
ghost use Rattle.std.specs.Option.{ForSome};
ghost use Rattle.register_records.specs.SetupRules.{NamesTwice, is_ring_size, is_stripe_count};

use crate::fittings::fitting;
use date_texts::Target;
use programs::Delimiter;
use register_records::{Form, Setup};

/// A conversion that the arguments ask for.
#[derive(Drop)]
pub struct Job<'a> {
    pub(crate) targets: Vec<Target>,
    pub(crate) delimiter: Delimiter,
    pub(crate) form: Form,
    /// The size of the rings, where it is written.
    pub ring: Option<usize>,
    /// The number of converters of a source, where it is written.
    pub stripes: Option<usize>,
    /// Whether a summary is asked for.
    pub summary: bool,
    /// The files to convert, in order; with none, one text from standard input.
    pub files: Vec<&'a str>,
    ghost once: { ¬ (NamesTwice targets.items) },
    ghost ring_fits: { ForSome ring (λ size. is_ring_size size ≡ true) },
    ghost stripes_fit: { ForSome stripes (λ count. is_stripe_count count ≡ true) },
}

impl Job<'_> {
    ghost use Rattle.register_arguments.specs.Requests.{IsSetupOf, task_of};

    /// What is asked of each table and of the run, on a machine that has so many processors for the program: where no ring
    /// or no stripes are written, they are those of [`fitting`].
    pub fn setup(&self, processors: usize) -> Setup
        ensures { IsSetupOf (task_of self.now) processors result }
    {
        let fit = fitting(processors, self.files.len());
        let ring = self.ring.unwrap_or(fit.ring);
        let stripes = self.stripes.unwrap_or(fit.stripes);
        let byte = self.delimiter.byte();
        match Setup::new(self.targets.as_slice(), ring, byte, stripes, self.form) {
            Ok(setup) => setup,
            Err(_) => unreachable!(),
        }
    }
}
