//! Names of records, and where each lives.
ghost use Rattle.std.specs.Prelude.{◌≡◌, ◌+◌, ◌*◌, ◌<◌};
ghost use Rattle.ipl_base.specs.Places.{home_of};

use crate::Home;
use crate::limits::{PAGES, SLOTS, UNIT_NAMES};

/// The name of a record, a number.
#[derive(Clone, Copy, Debug, Default, PartialEq, Eq, PartialOrd, Ord)]
pub struct Name(pub u32);

/// Where a name's record lives. No two names live in one slot.
pub fn home(name: Name) -> Home
    ensures home { result ≡ home_of name.0 }
    ensures in_range { (result.page < 15) × (result.slot < 64) }
    ensures exact { name.0 ≡ 960 * result.unit + 64 * result.page + result.slot }
{
    Home {
        unit: name.0 / UNIT_NAMES,
        page: name.0 / SLOTS % PAGES,
        slot: name.0 % SLOTS,
    }
}
