//! Whose turn it is among the converters of a source. The turns are those of the machine of striped lanes.

ghost use Rattle.std.specs.Prelude.{◌≡◌, ◌<◌, ◌+◌, ℕ};
ghost use Rattle.lane_rings.specs.Machine.{turn};
ghost use Rattle.register_run.specs.Worlds.{World};

/// The converter whose turn it is after so many items.
#[inline(always)]
pub(crate) fn turn_after(count: usize, converters: usize) -> usize
    requires { 0 < converters }
    ensures below { result < converters }
    ensures machine { (w : World) → w.converters ≡ converters → result ≡ turn w count }
{
    count % converters
}

/// The converter whose turn it is after one more item, where it was this one's.
#[inline(always)]
pub(crate) fn turn_behind(at: usize, converters: usize) -> usize
    requires { at < converters }
    ensures below { result < converters }
    ensures machine { (w : World) (k : ℕ) → w.converters ≡ converters → at ≡ turn w k → result ≡ turn w (k + 1) }
{
    if at + 1 < converters { at + 1 } else { 0 }
}
