//! Records, taken into the frame of a page: those of committed numbers become values, those of
//! active numbers are pending.
ghost use Rattle.std.specs.Prelude.{◌≤◌, ◌↔◌, IsTrue, length};
ghost use Rattle.std.specs.Bool.{OnTrue};
ghost use Rattle.ipl_base.specs.declared.limits.TheConstants.{LIVE_SECTORS, PAGE_LEN};
ghost use Rattle.number_set.specs.Numbers.{among};
ghost use Rattle.unit_log.specs.Kept.{records_kept};
ghost use Rattle.page_ops.specs.Frames.{values_in, HasNonePending};
ghost use Rattle.page_ops.specs.Pending.{fill_by};
ghost use Rattle.page_ops.specs.Rebuilt.{with_records};
ghost use Rattle.page_rebuild.specs.Taken.{last_changes, AreTaken};

use crate::counting::count_sectors;
use crate::making::pass_sectors;
use crate::pending::set_sectors;
use page_ops::{Coming, Frame};
use txn_status::Status;
use unit_log::LogSector;

/// Takes the records of log sectors, at most 31, in order, into a frame of which nothing is pending.
/// Answers whether the page has room for the values that it has then, whichever pending changes
/// become values.
pub(crate) fn take_sectors(
    frame: &mut Frame,
    page: u32,
    sectors: &[LogSector],
    status: &Status,
    active: &[u64],
) -> bool
    requires idle { HasNonePending frame.old }
    requires few { length sectors.now ≤ LIVE_SECTORS }
    ensures room { IsTrue result ↔ (fill_by
        (with_records (among status.now.numbers) page (records_kept sectors.now)
        (values_in frame.old))
        (last_changes (among active.now) page (records_kept sectors.now)) ≤ PAGE_LEN) }
    ensures taken { OnTrue result (AreTaken (among status.now.numbers) (among active.now) page
        (records_kept sectors.now) frame.old frame.new) }
{
    let mut values = Coming::none();
    let mut changes = Coming::none();
    count_sectors(&mut values, &mut changes, page, sectors, status, active);
    values.clear(frame.committed_mut());
    if !pass_sectors(frame.committed_mut(), &mut values, page, sectors, status) {
        return false;
    }
    // A frame lends its page only while nothing is pending, so pending changes come last.
    set_sectors(frame, &mut changes, page, sectors, active)
}
