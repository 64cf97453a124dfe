//! What a name weighs.
ghost use Rattle.std.specs.Prelude.{◌≡◌, ◌≤◌};
ghost use Rattle.ipl_base.specs.declared.limits.TheConstants.{LONG_WEIGHT};
ghost use Rattle.ipl_model.specs.Peaks.{weight_of_peak};

use ipl_base::{LONG_WEIGHT, SHORT_SIZE};

/// What a name of such a peak weighs: 0, 1, or 8 where a long write is pending on it. The peak is
/// one more than the most bytes that a write of the name takes in its page, 0 where it isn't written.
pub fn weight_of(peak: u64) -> u32
    ensures weight { result ≡ weight_of_peak peak }
    ensures few { result ≤ LONG_WEIGHT }
{
    if peak == 0 {
        0
    } else if peak > 1 + SHORT_SIZE as u64 {
        LONG_WEIGHT
    } else {
        1
    }
}
