//! What is known of log sectors, as a number.
ghost use Rattle.std.specs.Prelude.{◌≡◌, ◌≤◌, ◌<◌, ◌-◌, map};
ghost use Rattle.ipl_meaning.specs.Tables.{counted_written, unmarked_written};
ghost use Rattle.unit_directory.specs.Directory.{noted_log};

use ipl_base::LOG_SECTORS;

/// What stands where a mark says how many log sectors were written: so many more than this.
pub const MARKED_LOGS: u32 = 16;

/// What stands where nothing is known of the log sectors.
pub const UNKNOWN_LOGS: u32 = 32;

/// What is known once no mark counts any more.
fn unmarked(written: u32) -> u32
    ensures { result ≡ unmarked_written written }
{
    if written < MARKED_LOGS || UNKNOWN_LOGS <= written {
        return written;
    }
    written - MARKED_LOGS
}

/// What is known of all units once no mark counts any more. It takes no memory.
pub(crate) fn end_all_marks(all: &mut [u32])
    ensures { all.new ≡ map unmarked_written all.old }
{
    for i in 0..all.len() {
        all[i] = unmarked(all[i]);
    }
}

/// How many of 15 log sectors count as clean, where this is known of them.
pub(crate) fn clean(written: u32) -> u32
    ensures { result ≡ LOG_SECTORS - counted_written written }
{
    if written < MARKED_LOGS {
        return LOG_SECTORS.saturating_sub(written);
    }
    if written < UNKNOWN_LOGS {
        return LOG_SECTORS.saturating_sub(written - MARKED_LOGS);
    }
    0
}

/// What is known once one more log sector is seen (0 to 14), which checks, or is blank, or neither.
pub fn noted(known: u32, number: u32, checks: bool, blank: bool) -> u32
    requires few { known ≤ 32 }
    requires number { number < 15 }
    ensures noted { result ≡ noted_log known number checks blank }
    ensures few { result ≤ 32 }
{
    if known < MARKED_LOGS || known >= UNKNOWN_LOGS || blank {
        return known;
    }
    if checks && known == MARKED_LOGS + number {
        return known + 1;
    }
    UNKNOWN_LOGS
}
