//! What a change makes of a page.
ghost use Rattle.std.specs.Prelude.{◌≡◌, ◌≤◌, ◌<◌, slice_set};
ghost use Rattle.ipl_base.specs.declared.limits.TheConstants.{PAGE_LEN, VERSION};
ghost use Rattle.ipl_base.specs.Sizes.{size_of_values};
ghost use Rattle.ipl_format.specs.Page.{IsPage, value_in};
ghost use Rattle.log_records.specs.View.{change_of};

use log_records::Change;
use page_text::PageMap;

/// Does a change to a slot (0 to 63) of a page, which has room for it.
pub(crate) fn change_slot(map: &mut PageMap, slot: u32, change: &Change)
    requires slot { slot < 64 }
    requires room { size_of_values (value_in (slice_set map.old slot (change_of change.now)))
        ≤ PAGE_LEN }
    ensures page { IsPage VERSION map.new }
    ensures changed { map.new ≡ slice_set map.old slot (change_of change.now) }
{
    let _ = map.text();
    match change {
        Change::Put(value) => map.set(slot, value.bytes()),
        Change::Delete => map.clear(slot),
    }
}
