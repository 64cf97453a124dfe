//! What frames have of a page, and frames that are taken and freed.
ghost use Rattle.std.specs.Prelude.{◌≡◌, ◌≢◌, ◌<◌, ◌≤◌, ◌+◌, ◌↔◌, [], false, Some, None, IsTrue, IsSome};
ghost use Rattle.slab.specs.Slab.{slab_len};
ghost use Rattle.ipl_base.specs.declared.limits.TheConstants.{RECORD_HEAD, VALUE_LEN};
ghost use Rattle.ipl_meaning.specs.Last.{size_of};
ghost use Rattle.log_records.specs.View.{record_of};
ghost use Rattle.buffer_pool.specs.Holding.{KeepsPins};
ghost use Rattle.buffer_pool.specs.Uses.{CountsNoOther, IsUsedLast, UsesPage};
ghost use Rattle.store_laws.specs.Frames.{logs_of};
ghost use Rattle.page_frames.specs.Views.{frames_of};
ghost use Rattle.page_frames.specs.Frames.{FreesFrame, GivesTo, IsUnheld, MayGive, TakesFrame};

use buffer_pool::Pool;
use log_records::{Change, Record};

/// Whether a page (0 to 14 of a unit) is in a frame.
pub(crate) fn is_framed(pool: &Pool, unit: u32, page: u32) -> bool
    requires { page < 15 }
    ensures { IsTrue result ↔ IsSome (frames_of pool.now unit page) }
{
    pool.look(unit, page).is_some()
}

/// Whether a page (0 to 14 of a unit) is in a frame, with records that aren't on the chip yet.
pub(crate) fn has_records(pool: &Pool, unit: u32, page: u32) -> bool
    requires { page < 15 }
    ensures some { IsTrue result → IsSome (frames_of pool.now unit page) }
    ensures full { IsTrue result → logs_of (frames_of pool.now) unit page ≢ [] }
    ensures none { result ≡ false → logs_of (frames_of pool.now) unit page ≡ [] }
{
    match pool.records(unit, page) {
        Some(log) => !log.is_empty(),
        None => false,
    }
}

/// Counts a use of a page (0 to 14 of a unit) that is in a frame.
pub(crate) fn use_page(pool: &mut Pool, unit: u32, page: u32)
    requires page { page < 15 }
    requires there { IsSome (frames_of pool.old unit page) }
    ensures uses { UsesPage pool.old pool.new unit page }
    ensures others { CountsNoOther unit page pool.old pool.new }
    ensures last { IsUsedLast pool.new unit page }
    ensures frames { frames_of pool.new ≡ frames_of pool.old }
    ensures pins { KeepsPins pool.old pool.new }
{
    pool.facts();
    pool.touch(unit, page);
}

/// Takes a free frame for a page (0 to 14 of a unit) that is in none.
fn take_frame(pool: &mut Pool, unit: u32, page: u32)
    requires page { page < 15 }
    requires free { slab_len pool.old.buffers < pool.old.limit }
    requires absent { frames_of pool.old unit page ≡ None }
    ensures { TakesFrame pool.old pool.new unit page }
{
    pool.facts();
    let pin = pool.bring(unit, page);
    pool.facts();
    pool.unpin(pin);
}

/// Frees the frame of a page (0 to 14 of a unit) that isn't held, with no records in memory.
pub(crate) fn free_frame(pool: &mut Pool, unit: u32, page: u32)
    requires page { page < 15 }
    requires unheld { IsUnheld pool.old unit page }
    requires empty { logs_of (frames_of pool.old) unit page ≡ [] }
    ensures { FreesFrame pool.old pool.new unit page }
{
    pool.facts();
    pool.evict(unit, page);
}

/// Gives the frame of such a page to another (0 to 14 of a unit) that is in none. It is as if the one
/// was freed and taken for the other then.
fn pass_frame(pool: &mut Pool, unit: u32, page: u32, to_unit: u32, to_page: u32)
    requires page { page < 15 }
    requires unheld { IsUnheld pool.old unit page }
    requires empty { logs_of (frames_of pool.old) unit page ≡ [] }
    requires to_page { to_page < 15 }
    requires absent { frames_of pool.old to_unit to_page ≡ None }
    ensures { GivesTo (Some (unit, page)) pool.old pool.new to_unit to_page }
{
    pool.facts();
    let pin = pool.pass(unit, page, to_unit, to_page);
    pool.facts();
    pool.unpin(pin);
}

/// Gives a page (0 to 14 of a unit) that is in no frame one: that of the victim (unit and page), or,
/// where there is none, a free one.
pub(crate) fn give_frame(pool: &mut Pool, victim: Option<(u32, u32)>, unit: u32, page: u32)
    requires may { MayGive pool.old victim }
    requires page { page < 15 }
    requires absent { frames_of pool.old unit page ≡ None }
    ensures { GivesTo victim pool.old pool.new unit page }
{
    match victim {
        None => take_frame(pool, unit, page),
        Some((from_unit, from_page)) => pass_frame(pool, from_unit, from_page, unit, page),
    }
}

/// A record takes at most 476 bytes of a log sector.
pub(crate) fn short(logged: &Record)
    ensures { size_of (record_of logged.now) ≤ RECORD_HEAD + VALUE_LEN }
{
    match &logged.change {
        Change::Put(value) => {
            let _ = value.bytes();
        }
        Change::Delete => {}
    }
}
