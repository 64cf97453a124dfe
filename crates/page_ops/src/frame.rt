//! A page in memory.
ghost use Rattle.std.specs.Prelude.{◌≡◌, ◌≢◌, ◌≤◌, ◌<◌, ◌==◌, ◌↔◌, ℕ, false, IfSome, IsTrue, is_some, length, option_map, slice_set};
ghost use Rattle.std.specs.Bool.{OnTrue, OnFalse};
ghost use Rattle.std.specs.Borrow.{sem};
ghost use Rattle.std.specs.Option.{option_map_or};
ghost use Rattle.ipl_base.specs.declared.limits.TheConstants.{PAGE_LEN, VALUE_LEN, VERSION};
ghost use Rattle.ipl_base.specs.Sizes.{size_of_values};
ghost use Rattle.ipl_format.specs.Page.{IsPage, value_in};
ghost use Rattle.log_records.specs.View.{change_of};
ghost use Rattle.page_ops.specs.Pending.{fill_by, seen_by, without_pending, with_pending};
ghost use Rattle.page_ops.specs.Frames.{empty_frame, frame_fill, values_in, pending_in, HasNonePending, AppliesTid, IsDropped};
ghost use Rattle.page_ops.specs.Lending.{LendsPage};

use crate::applying::change_slot;
use crate::filling::{change_size, fits_after};
use crate::numbers::Numbers;
use crate::pending::Pending;
use ipl_base::SLOTS;
use log_records::Change;
use page_text::PageMap;
use std::marker::Model;

/// A page in memory: its committed values, and for each slot at most one pending change, with the
/// number of its transaction. A contract sees both, slot by slot. Whichever of them become values, the
/// page has room for all.
#[derive(Drop)]
pub struct Frame {
    page: PageMap,
    // The values of pending puts. A slot without a pending change has none here.
    values: PageMap,
    // The number of each slot's pending change.
    numbers: Numbers,
}

impl Model for Frame {
    ghost use Rattle.std.specs.Prelude.{length, ◌≡◌};
    ghost use Rattle.page_ops.specs.Frames.{FrameView, IsFrame, pendings_of};

    ghost Value = { FrameView };

    ghost view = { λ f. record { page = f.page; pending = pendings_of f.numbers f.values } };

    ghost invariant = { λ f. IsFrame f.page f.numbers f.values };
}

impl Frame {
    /// An empty page, of which nothing is pending.
    pub fn empty() -> Frame
        ensures { result ≡ empty_frame }
    {
        Frame {
            page: PageMap::empty(),
            values: PageMap::empty(),
            numbers: Numbers::none(),
        }
    }

    /// Makes it an empty page, of which nothing is pending.
    pub fn reset(&mut self)
        ensures { self.new ≡ empty_frame }
    {
        self.page.reset();
        self.values.reset();
        self.numbers.reset();
    }

    /// The committed page. With all that may become values in it it's a page still.
    pub fn committed(&self) -> &PageMap
        ensures page { result.now ≡ self.now.page }
        ensures room { frame_fill self.now ≤ PAGE_LEN }
    {
        let _ = self.page.text();
        &self.page
    }

    /// The committed page, for writing, while nothing is pending.
    pub fn committed_mut(&mut self) -> &mut PageMap
        requires { HasNonePending self.old }
        ensures* lends { sem 𝓛 (LendsPage self.entry result) }
        ensures value { result.now ≡ self.old.page }
    {
        &mut self.page
    }

    /// The pending change of a slot (0 to 63), if there is one.
    pub fn pending(&self, slot: u32) -> Option<Pending<'_>>
        requires { slot < 64 }
        ensures pending { option_map (λ p. (p.tid, option_map (λ bytes. bytes.now) p.value)) result
            ≡ pending_in self.now slot }
        ensures short { IfSome result (λ p. IfSome p.value (λ bytes. length bytes.now ≤ VALUE_LEN)) }
    {
        let value = self.values.get(slot);
        match self.numbers.get(slot) {
            Some(tid) => Some(Pending { tid, value }),
            None => None,
        }
    }

    /// Notes a change of a slot (0 to 63) as pending, in the place of the one that was, where the page
    /// has room for all that may become values then; answers whether it has. With no room the frame
    /// stays as it was.
    pub fn set_pending(&mut self, slot: u32, tid: u64, change: &Change) -> bool
        requires { slot < 64 }
        ensures exact { IsTrue result ↔ (fill_by (values_in self.old)
            (with_pending (pending_in self.old) slot (tid, change_of change.now)) ≤ PAGE_LEN) }
        ensures page { self.new.page ≡ self.old.page }
        ensures pending { OnTrue result ((k : ℕ) → pending_in self.new k
            ≡ with_pending (pending_in self.old) slot (tid, change_of change.now) k) }
        ensures kept { OnFalse result (self.new ≡ self.old) }
    {
        if !fits_after(&self.page, &self.values, slot, change_size(change)) {
            return false;
        }
        change_slot(&mut self.values, slot, change);
        self.numbers.give(slot, tid);
        true
    }

    /// Drops all pending changes of this number, as an abort does.
    pub fn drop_tid(&mut self, tid: u64)
        ensures { IsDropped tid self.old self.new }
    {
        for slot in 0..SLOTS {
            if self.has_pending(slot) {
                self.drop_at(slot, tid);
            }
        }
    }

    /// Makes all pending changes of this number values of the page, as a commit does.
    pub fn apply_tid(&mut self, tid: u64)
        ensures { AppliesTid tid self.old self.new }
    {
        for slot in 0..SLOTS {
            if self.has_pending(slot) {
                self.apply_at(slot, tid);
            }
        }
    }
}

impl Frame {
    /// Whether a slot (0 to 63) has a pending change. Few slots of a page do, so a loop over all slots asks
    /// this before it goes to work on one.
    fn has_pending(&self, slot: u32) -> bool
        requires { slot < 64 }
        ensures { result ≡ is_some (pending_in self.now slot) }
    {
        self.numbers.get(slot).is_some()
    }

    /// Drops the pending change of a slot, where it is of this number.
    fn drop_at(&mut self, slot: u32, tid: u64)
        requires { slot < 64 }
        ensures page { self.new.page ≡ self.old.page }
        ensures here { pending_in self.new slot
            ≡ without_pending tid (pending_in self.old slot) }
        ensures others { (k : ℕ) → k ≢ slot → pending_in self.new k ≡ pending_in self.old k }
    {
        if is_of(self.numbers.get(slot), tid) {
            self.values.clear(slot);
            self.numbers.take(slot);
        }
    }

    /// Makes the pending change of a slot its value, where it is of this number.
    fn apply_at(&mut self, slot: u32, tid: u64)
        requires { slot < 64 }
        ensures value { values_in self.new slot
            ≡ seen_by tid (values_in self.old slot) (pending_in self.old slot) }
        ensures pending { pending_in self.new slot
            ≡ without_pending tid (pending_in self.old slot) }
        ensures other_values { (k : ℕ) → k ≢ slot
            → values_in self.new k ≡ values_in self.old k }
        ensures others { (k : ℕ) → k ≢ slot → pending_in self.new k ≡ pending_in self.old k }
    {
        if is_of(self.numbers.get(slot), tid) {
            let _ = self.page.text();
            copy_slot(&self.values, slot, &mut self.page);
            self.values.clear(slot);
            self.numbers.take(slot);
        }
    }
}

/// Whether there is a number, and it is this one.
fn is_of(number: Option<u64>, tid: u64) -> bool
    ensures { result ≡ option_map_or (λ n. n == tid) number false }
{
    match number {
        Some(own) => own == tid,
        None => false,
    }
}

/// Gives a slot (0 to 63) of a page what the same slot of another holds, where the page has room for
/// it.
fn copy_slot(from: &PageMap, slot: u32, to: &mut PageMap)
    requires slot { slot < 64 }
    requires room { size_of_values (value_in (slice_set to.old slot (value_in from.now slot)))
        ≤ PAGE_LEN }
    ensures page { IsPage VERSION to.new }
    ensures copied { to.new ≡ slice_set to.old slot (value_in from.now slot) }
{
    let _ = to.text();
    match from.get(slot) {
        Some(value) => to.set(slot, value),
        None => to.clear(slot),
    }
}
