//! A pool of frames.
ghost use Rattle.std.specs.Prelude.{◌≡◌, ◌≢◌, ◌<◌, ◌≤◌, ◌+◌, ℕ, Some, None, IfOk, IfSome, IfNone, IsSome, []};
ghost use Rattle.std.specs.Borrow.{sem};
ghost use Rattle.slab.specs.Slab.{get, slab_len, Updates};
ghost use Rattle.buffer_pool.specs.declared.pool.Buffer.{Buffer as BufferFields};
ghost use Rattle.buffer_pool.specs.Pools.{HasPage, IsThere, IsAbsent, MayLeave, MayPin, Changes, CountsUse, CountsNothing, IsPinned, IsSoundPool, new_buffer, with_pin, with_use, without_pin};
ghost use Rattle.buffer_pool.specs.Rooms.{IsRoom, IsOldest, AreAllPinned};
ghost use Rattle.buffer_pool.specs.Lending.{LendsFrame, LendsLog};
ghost use Rattle.buffer_pool.specs.Uses.{CountsUseOf, IsUsedLast, UsesPage};
ghost use Rattle.buffer_pool.specs.Passes.{Passes};

use crate::index::{PageIndex, page_number};
use crate::room::{Oldest, Room, older};
use bounded_slab::BoundedSlab;
use ipl_base::OutOfMemory;
use mem_log_sector::MemLog;
use page_ops::Frame;
use std::alloc::Global;
use std::marker::Model;

/// A page in memory: how many pins it has, when it was last used, its frame, and its records that
/// aren't on the chip yet.
#[derive(Drop)]
pub struct Buffer {
    pub unit: u32,
    pub page: u32,
    pub pins: u32,
    pub used: u64,
    pub frame: Frame,
    pub log: MemLog,
}

/// A pin on a page in memory. It must be given back by `Pool::unpin`.
pub struct Pin {
    pub(crate) key: usize,
    pub(crate) unit: u32,
    pub(crate) page: u32,
}

/// At most 64 buffers, each with a page. No two have one page. Memory is taken by `new` alone.
#[derive(Drop)]
pub struct Pool {
    pub(crate) buffers: BoundedSlab<Buffer>,
    // The page of each buffer, with the buffer's key, so that a page is found without a look at each.
    pub(crate) index: PageIndex,
    limit: usize,
    // How many uses there were: a use is a page brought in, pinned or touched.
    clock: u64,
}

impl Model for Pool {
    ghost use Rattle.buffer_pool.specs.Pools.{PoolView, view_of, IsPoolSound};

    ghost Value = { PoolView };

    ghost view = { view_of };

    ghost invariant = { IsPoolSound };
}

impl Pool {
    /// So many frames (at most 64), all free.
    pub fn new(alloc: Global, frames: u32) -> Result<Pool, OutOfMemory>
        requires { frames ≤ 64 }
        ensures empty { IfOk result (λ p. p.buffers.slots ≡ []) }
        ensures order { IfOk result (λ p. p.order ≡ []) }
        ensures limit { IfOk result (λ p. p.limit ≡ frames) }
    {
        let limit = frames as usize;
        let buffers = BoundedSlab::new(alloc, limit)?;
        Ok(Pool {
            buffers,
            index: PageIndex::empty(),
            limit,
            clock: 0,
        })
    }

    /// Frees all frames. It takes no memory.
    pub fn reset(&mut self)
        ensures empty { self.new.buffers.slots ≡ [] }
        ensures order { self.new.order ≡ [] }
        ensures limit { self.new.limit ≡ self.old.limit }
    {
        self.buffers.clear();
        self.index.clear();
        self.clock = 0;
    }

    /// What always holds: no page has two frames, pages are 0 to 14, and no more frames are taken than
    /// there are. The pages rise by unit and page in their order.
    pub fn facts(&self)
        ensures { IsSoundPool self.now }
    {
        self.index.facts();
    }

    /// The key of the frame that has a page (0 to 14 of a unit), by a search that halves what is left.
    pub fn find(&self, unit: u32, page: u32) -> Option<usize>
        requires { page < 15 }
        ensures found { IfSome result (λ key. HasPage self.now.buffers unit page key) }
        ensures none { IfNone result (IsAbsent self.now.buffers unit page) }
    {
        self.index.find(page_number(unit, page))
    }

    /// Whether a frame is free; or else the page without a pin that was used longest ago; or else all
    /// pages have pins.
    pub fn room(&self) -> Room
        ensures { IsRoom self.now result }
    {
        if self.buffers.len() < self.limit {
            return Room::Free;
        }
        match self.oldest() {
            Some(oldest) => Room::Victim(oldest.unit, oldest.page),
            None => Room::AllPinned,
        }
    }

    /// Brings a page (0 to 14 of a unit) into a free frame, which is empty then, and pins it, which
    /// counts as a use. The page is in no frame.
    pub fn bring(&mut self, unit: u32, page: u32) -> Pin
        requires page { page < 15 }
        requires free { slab_len self.old.buffers < self.old.limit }
        requires absent { IsAbsent self.old.buffers unit page }
        ensures pin { (result.unit ≡ unit) × (result.page ≡ page) }
        ensures key { get self.old.buffers result.key ≡ None }
        ensures buffers { Updates self.old.buffers self.new.buffers result.key
            (Some (new_buffer unit page self.old.clock)) }
        ensures len { slab_len self.new.buffers ≡ slab_len self.old.buffers + 1 }
        ensures counts { CountsUse self.old self.new }
        ensures last { IsUsedLast self.new unit page }
    {
        let used = self.clock;
        self.clock = used.saturating_add(1);
        let key = self.buffers.insert_reserved(Buffer {
            unit,
            page,
            pins: 1,
            used,
            frame: Frame::empty(),
            log: MemLog::empty(),
        });
        self.index.add(page_number(unit, page), key);
        Pin { key, unit, page }
    }

    /// Frees the frame of a page, which has no pin and no records in memory.
    pub fn evict(&mut self, unit: u32, page: u32)
        requires page { page < 15 }
        requires there { IsThere self.old.buffers unit page }
        requires may { MayLeave self.old.buffers unit page }
        ensures gone { (key : ℕ) × HasPage self.old.buffers unit page key
            × Updates self.old.buffers self.new.buffers key None }
        ensures len { slab_len self.new.buffers + 1 ≡ slab_len self.old.buffers }
        ensures limit { self.new.limit ≡ self.old.limit }
        ensures clock { self.new.clock ≡ self.old.clock }
    {
        match self.find(unit, page) {
            Some(key) => {
                let _ = self.buffers.try_remove(key);
                self.index.remove(page_number(unit, page));
            }
            None => unreachable!("the page is in a frame"),
        }
    }

    /// Gives the frame of a page, which has no pin and no records in memory, to another page (0 to 14 of
    /// a unit), which is in no frame, and pins that. It is as if the one left its frame and the other was
    /// brought in then, but no memory is written that isn't read.
    pub fn pass(&mut self, unit: u32, page: u32, to_unit: u32, to_page: u32) -> Pin
        requires page { page < 15 }
        requires there { IsThere self.old.buffers unit page }
        requires may { MayLeave self.old.buffers unit page }
        requires to_page { to_page < 15 }
        requires absent { IsAbsent self.old.buffers to_unit to_page }
        ensures { Passes self.old self.new unit page to_unit to_page result }
    {
        match self.find(unit, page) {
            Some(key) => {
                self.index.remove(page_number(unit, page));
                self.index.facts();
                self.index.add(page_number(to_unit, to_page), key);
                give_buffer(&mut self.buffers, key, to_unit, to_page, self.clock);
                self.clock = self.clock.saturating_add(1);
                Pin {
                    key,
                    unit: to_unit,
                    page: to_page,
                }
            }
            None => unreachable!("the page is in a frame"),
        }
    }

    /// Pins a page that is in a frame, which counts as a use.
    pub fn pin(&mut self, unit: u32, page: u32) -> Pin
        requires page { page < 15 }
        requires there { IsThere self.old.buffers unit page }
        requires few { MayPin self.old.buffers unit page }
        ensures pin { (result.unit ≡ unit) × (result.page ≡ page) }
        ensures has { HasPage self.old.buffers unit page result.key }
        ensures buffers { Changes self.old.buffers self.new.buffers result.key
            (with_pin self.old.clock) }
        ensures uses { CountsUseOf self.old self.new unit page }
    {
        match self.find(unit, page) {
            Some(key) => {
                add_pin(&mut self.buffers, key, self.clock);
                self.clock = self.clock.saturating_add(1);
                Pin { key, unit, page }
            }
            None => unreachable!("the page is in a frame"),
        }
    }

    /// Counts a use of a page that is in a frame, and changes nothing else.
    pub fn touch(&mut self, unit: u32, page: u32)
        requires page { page < 15 }
        requires there { IsThere self.old.buffers unit page }
        ensures uses { UsesPage self.old self.new unit page }
        ensures last { IsUsedLast self.new unit page }
    {
        match self.find(unit, page) {
            Some(key) => {
                use_buffer(&mut self.buffers, key, self.clock);
                self.clock = self.clock.saturating_add(1);
            }
            None => unreachable!("the page is in a frame"),
        }
    }

    /// Gives a pin back.
    pub fn unpin(&mut self, pin: Pin)
        requires { IsPinned self.old.buffers pin }
        ensures buffers { Changes self.old.buffers self.new.buffers pin.key without_pin }
        ensures keeps { CountsNothing self.old self.new }
    {
        let Pin {
            key,
            unit: _,
            page: _,
        } = pin;
        drop_pin(&mut self.buffers, key);
    }

    /// The frame of a pinned page.
    pub fn frame(&self, pin: &Pin) -> &Frame
        requires { IsPinned self.now.buffers pin.now }
        ensures { (buffer : BufferFields) → get self.now.buffers pin.now.key ≡ Some buffer
            → result.now ≡ buffer.frame }
    {
        let buffer = &self.buffers[pin.key];
        &buffer.frame
    }

    /// The frame of a pinned page, for writing. No other frame changes, and no records.
    pub fn frame_mut(&mut self, pin: &Pin) -> &mut Frame
        requires { IsPinned self.old.buffers pin.now }
        ensures* lends { sem 𝓛 (LendsFrame self.entry pin.now.key result) }
        ensures value { (buffer : BufferFields) → get self.old.buffers pin.now.key ≡ Some buffer
            → result.now ≡ buffer.frame }
    {
        &mut self.buffers[pin.key].frame
    }

    /// The records of a pinned page that aren't on the chip yet, for writing. No frame changes, and no
    /// other page's records.
    pub fn log(&mut self, pin: &Pin) -> &mut MemLog
        requires { IsPinned self.old.buffers pin.now }
        ensures* lends { sem 𝓛 (LendsLog self.entry pin.now.key result) }
        ensures value { (buffer : BufferFields) → get self.old.buffers pin.now.key ≡ Some buffer
            → result.now ≡ buffer.log }
    {
        &mut self.buffers[pin.key].log
    }
}

impl Pool {
    /// The frame under a key, for writing. No other frame changes, and no records.
    pub fn frame_under(&mut self, key: usize) -> &mut Frame
        requires { IsSome (get self.old.buffers key) }
        ensures* lends { sem 𝓛 (LendsFrame self.entry key result) }
        ensures value { (buffer : BufferFields) → get self.old.buffers key ≡ Some buffer
            → result.now ≡ buffer.frame }
    {
        &mut self.buffers[key].frame
    }

    /// The records under a key, for writing. No frame changes, and no other page's records.
    pub fn log_under(&mut self, key: usize) -> &mut MemLog
        requires { IsSome (get self.old.buffers key) }
        ensures* lends { sem 𝓛 (LendsLog self.entry key result) }
        ensures value { (buffer : BufferFields) → get self.old.buffers key ≡ Some buffer
            → result.now ≡ buffer.log }
    {
        &mut self.buffers[key].log
    }
}

impl Pool {
    // The page without a pin that was used longest ago.
    fn oldest(&self) -> Option<Oldest>
        ensures oldest { IfSome result (IsOldest self.now.buffers) }
        ensures none { IfNone result (AreAllPinned self.now.buffers) }
    {
        let mut oldest = None;
        for (_key, buffer) in self.buffers.iter() {
            oldest = older(oldest, buffer);
        }
        oldest
    }
}

// Makes the buffer under a key, which has no records, one of a page that comes in now.
fn give_buffer(buffers: &mut BoundedSlab<Buffer>, key: usize, unit: u32, page: u32, now: u64)
    requires { (buffer : BufferFields) × (get buffers.old key ≡ Some buffer) × (buffer.log ≡ []) }
    ensures changes { Changes buffers.old buffers.new key (λ _. new_buffer unit page now) }
    ensures len { slab_len buffers.new ≡ slab_len buffers.old }
    ensures capacity { buffers.new.capacity ≡ buffers.old.capacity }
{
    let buffer = &mut buffers[key];
    buffer.unit = unit;
    buffer.page = page;
    buffer.pins = 1;
    buffer.used = now;
    buffer.frame.reset();
}

// The buffer under a key is used now.
fn use_buffer(buffers: &mut BoundedSlab<Buffer>, key: usize, now: u64)
    requires { IsSome (get buffers.old key) }
    ensures changes { Changes buffers.old buffers.new key (with_use now) }
    ensures len { slab_len buffers.new ≡ slab_len buffers.old }
    ensures capacity { buffers.new.capacity ≡ buffers.old.capacity }
{
    buffers[key].used = now;
}

// Counts one more pin on the buffer under a key, which is used now.
fn add_pin(buffers: &mut BoundedSlab<Buffer>, key: usize, now: u64)
    requires there { IsSome (get buffers.old key) }
    requires few { (buffer : BufferFields) → get buffers.old key ≡ Some buffer
        → buffer.pins < 4294967295 }
    ensures changes { Changes buffers.old buffers.new key (with_pin now) }
    ensures len { slab_len buffers.new ≡ slab_len buffers.old }
    ensures capacity { buffers.new.capacity ≡ buffers.old.capacity }
{
    let buffer = &mut buffers[key];
    buffer.pins += 1;
    buffer.used = now;
}

/// Counts one pin fewer on the buffer under a key, which has one at least. No other buffer changes.
pub(crate) fn drop_pin(buffers: &mut BoundedSlab<Buffer>, key: usize)
    requires { (buffer : BufferFields) × (get buffers.old key ≡ Some buffer) × (0 < buffer.pins) }
    ensures changes { Changes buffers.old buffers.new key without_pin }
    ensures len { slab_len buffers.new ≡ slab_len buffers.old }
    ensures capacity { buffers.new.capacity ≡ buffers.old.capacity }
{
    let buffer = &mut buffers[key];
    buffer.pins -= 1;
}
