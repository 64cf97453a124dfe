//! Pages that stay in their frames between calls.
ghost use Rattle.std.specs.Prelude.{◌≡◌, ◌<◌, ◌+◌, ◌↔◌, Some, IsTrue, cond};
ghost use Rattle.buffer_pool.specs.Pools.{IsThere, CountsNothing};
ghost use Rattle.buffer_pool.specs.Uses.{CountsUseOf};
ghost use Rattle.buffer_pool.specs.Holding.{pinned_count, is_pinned, IsHeld, IsAtRest, PinsPage, ReleasesPage};

use crate::pool::{Buffer, Pin, Pool, drop_pin};

impl Pool {
    /// Whether a page (0 to 14 of a unit) is in a frame, and pinned.
    pub fn is_held(&self, unit: u32, page: u32) -> bool
        requires { page < 15 }
        ensures { IsTrue result ↔ IsHeld self.now.buffers unit page }
    {
        match self.find(unit, page) {
            Some(key) => self.buffers[key].pins != 0,
            None => false,
        }
    }

    /// How many pages have pins.
    pub fn held(&self) -> usize
        ensures { result ≡ pinned_count self.now.buffers }
    {
        let mut held = 0;
        for (_key, buffer) in self.buffers.iter() {
            held += pinned_one(buffer);
        }
        held
    }

    /// Holds a page that is in a frame and has no pin: it stays there until `release`. It counts as a
    /// use.
    pub fn hold(&mut self, unit: u32, page: u32)
        requires page { page < 15 }
        requires there { IsThere self.old.buffers unit page }
        requires free { ¬ IsHeld self.old.buffers unit page }
        ensures holds { PinsPage self.old self.new unit page }
        ensures uses { CountsUseOf self.old self.new unit page }
        ensures rest { IsAtRest self.old → pinned_count self.old.buffers + 1 < self.old.limit
            → IsAtRest self.new }
    {
        self.facts();
        let Pin {
            key: _,
            unit: _,
            page: _,
        } = self.pin(unit, page);
    }

    /// Ends the hold of a page, where no page has more pins than its hold.
    pub fn release(&mut self, unit: u32, page: u32)
        requires page { page < 15 }
        requires held { IsHeld self.old.buffers unit page }
        requires rest { IsAtRest self.old }
        ensures releases { ReleasesPage self.old self.new unit page }
        ensures keeps { CountsNothing self.old self.new }
        ensures rest { IsAtRest self.new }
    {
        match self.find(unit, page) {
            Some(key) => drop_pin(&mut self.buffers, key),
            None => unreachable!("the page is held"),
        }
    }
}

// 1 for a buffer with a pin, else 0.
fn pinned_one(buffer: &Buffer) -> usize
    ensures { result ≡ cond (is_pinned (Some buffer.now)) 1 0 }
{
    if buffer.pins != 0 { 1 } else { 0 }
}
