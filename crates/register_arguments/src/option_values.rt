//! The values of the options.

ghost use Rattle.std.specs.Prelude.{Ok, Err, IfOk, IfErr, IfSome};
ghost use Rattle.programs.specs.Faults.{fault_of_error};
ghost use Rattle.register_arguments.specs.private.OptionValues.{ListMeansJust};

use date_texts::laws::one_target;
use date_texts::{Target, target_named};
use programs::RequestFault;
use std::alloc::Global;

/// The word that asks for no target.
pub const NO_TARGET: &str = "none";

/// The targets that a list names, in its order: names between commas, each as [`target_named`] reads it,
/// or the word `none` alone for no target.
///
/// # Errors
///
/// The names are looked at from left to right, for the first that names no target, or whose target was named before.
pub fn read_targets(alloc: Global, list: &str) -> Result<Vec<Target>, RequestFault<'_>>
    ensures value { IfOk result (λ targets. ListMeansJust list.entry.now (Ok targets.items)) }
    ensures fault { IfErr result (λ error. IfSome (fault_of_error error)
        (λ fault. ListMeansJust list.entry.now (Err fault))) }
{
    one_target();
    let mut targets = Vec::new(alloc);
    if list == NO_TARGET {
        return Ok(targets);
    }
    'names: for name in list.split(',') {
        let Some(target) = target_named(name) else {
            return Err(RequestFault::Refused("unknown target: ", name));
        };
        if targets.contains(&target) {
            return Err(RequestFault::Refused("target named twice: ", target.name()));
        }
        if targets.push(target).is_err() {
            return Err(RequestFault::OutOfMemory);
        }
    }
    Ok(targets)
}
