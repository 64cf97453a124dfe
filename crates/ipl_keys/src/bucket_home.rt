//! Which bucket a key lives in.
ghost use Rattle.std.specs.Prelude.{◌≡◌, ◌≤◌, ◌<◌, ◌*◌};
ghost use Rattle.ipl_base.specs.declared.limits.TheConstants.{MOST_UNITS, UNIT_NAMES};
ghost use Rattle.ipl_keys.specs.BucketHome.{bucket_of};

use crc_sum::crc32;
use ipl_base::UNIT_NAMES;

/// The name of the bucket that a key lives in, in a store of 1 to 1024 units.
#[tactic(auto, unfolding(crate::specs::BucketHome::bucket_of))]
pub fn bucket_of(key: &[u8], units: u32) -> u32
    requires some { 1 ≤ units }
    requires most { units ≤ MOST_UNITS }
    ensures bucket { result ≡ bucket_of units key.now }
    ensures within { result < UNIT_NAMES * units }
{
    crc32(key) % (UNIT_NAMES * units)
}
