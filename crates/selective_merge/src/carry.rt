//! What a merge carries.
ghost use Rattle.std.specs.Prelude.{◌≡◌, ◌<◌, ◌+◌, List, drop, length};
ghost use Rattle.std.specs.Bool.{OnTrue, OnFalse};
ghost use Rattle.std.specs.List.{list_any};
ghost use Rattle.ipl_base.specs.declared.limits.TheConstants.{CARRIED_SECTORS};
ghost use Rattle.ipl_format.specs.Record.{Record as LogRecord};
ghost use Rattle.ipl_meaning.specs.Last.{pack, carried};
ghost use Rattle.ipl_meaning.specs.Values.{counts_for};
ghost use Rattle.selective_merge.specs.Packs.{among, packs_of, payloads_of};
ghost use Rattle.selective_merge.specs.Logs.{nth_record};
ghost use Rattle.selective_merge.specs.Packing.{is_kept, IsPacking};

use crate::Active;
use crate::log::Log;
use crate::packs::Packs;

/// Whether the i-th record is on this slot and of an active number.
fn counts_at(log: &Log, i: usize, page: u32, slot: u32, active: &Active) -> bool
    requires { i < length log.now }
    ensures { result ≡ counts_for (among active.now) page slot (nth_record log.now i) }
{
    log.page(i) == page && (log.slot(i) == slot && active.contains(log.number(i)))
}

/// Whether a later record than the i-th is on its slot and of an active number.
fn is_replaced(log: &Log, i: usize, active: &Active) -> bool
    requires { i < length log.now }
    ensures { result ≡ list_any (counts_for (among active.now) (nth_record log.now i).page
        (nth_record log.now i).slot) (drop (i + 1) log.now) }
{
    let count = log.len();
    let page = log.page(i);
    let slot = log.slot(i);
    for later in i + 1..count {
        if counts_at(log, later, page, slot, active) {
            return true;
        }
    }
    false
}

/// Whether the i-th record is carried: its number is active, and no later record on its slot is of
/// an active number.
fn is_kept(log: &Log, i: usize, active: &Active) -> bool
    requires { i < length log.now }
    ensures { result ≡ is_kept (among active.now) (nth_record log.now i) (drop (i + 1) log.now) }
{
    active.contains(log.number(i)) && !is_replaced(log, i, active)
}

/// Packs the i-th record, where it is carried. False exactly where that would fill more than 12
/// payloads.
fn carry_one(log: &Log, i: usize, active: &Active, packs: &mut Packs) -> bool
    requires { i < length log.now }
    ensures packs { (all : List LogRecord)
        → IsPacking (among active.now) all (drop i log.now) packs.old.closed.items packs.old.last
        → OnTrue result (IsPacking (among active.now) all (drop (i + 1) log.now)
        packs.new.closed.items packs.new.last) }
    ensures full { (all : List LogRecord)
        → IsPacking (among active.now) all (drop i log.now) packs.old.closed.items packs.old.last
        → OnFalse result (CARRIED_SECTORS < length (pack (carried (among active.now) all))) }
{
    if !is_kept(log, i, active) {
        return true;
    }
    packs.add(&log.get(i))
}

/// Packs what is carried of a unit's records. False exactly where that fills more than 12 payloads.
pub(crate) fn pack_carried(log: &Log, active: &Active, packs: &mut Packs) -> bool
    ensures packed { OnTrue result (packs.new.closed.items
        ≡ payloads_of (packs_of active.now log.now)) }
    ensures full { OnFalse result (CARRIED_SECTORS < length (packs_of active.now log.now)) }
{
    packs.clear();
    for i in 0..log.len() {
        if !carry_one(log, i, active, packs) {
            return false;
        }
    }
    packs.finish()
}
