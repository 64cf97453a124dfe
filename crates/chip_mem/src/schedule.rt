//! Which calls of a chip fail, by their numbers, and which places are worn.
ghost use Rattle.std.specs.Prelude.{◌≡◌, ◌==◌, []};
ghost use Rattle.std.specs.List.{list_any};
ghost use Rattle.chip_mem.specs.Plan.{counted, is_past};

use std::alloc::Global;

/// How many calls and writes were asked for, the calls that fail, the number of writes after which each one fails, and the
/// places that are worn.
#[derive(Drop)]
pub struct Schedule {
    pub calls: u64,
    pub writes: u64,
    pub failing: Vec<u64>,
    pub stop: Option<u64>,
    pub worn_out: Vec<u32>,
}

impl Schedule {
    /// Nothing was asked for, and nothing is to fail.
    pub fn none(alloc: Global) -> Schedule
        ensures calls { result.calls ≡ 0 }
        ensures writes { result.writes ≡ 0 }
        ensures failing { result.failing.items ≡ [] }
        ensures stop { result.stop ≡ None }
        ensures worn_out { result.worn_out.items ≡ [] }
    {
        Schedule {
            calls: 0,
            writes: 0,
            failing: Vec::new(alloc),
            stop: None,
            worn_out: Vec::new(alloc),
        }
    }

    /// The next call is one of those that fail.
    pub(crate) fn lists_call(&self) -> bool
        ensures { result ≡ list_any (λ n. n == self.now.calls) self.now.failing.items }
    {
        self.failing.contains(&self.calls)
    }

    /// The place is one of those that are worn.
    pub fn is_worn_out(&self, p: u32) -> bool
        ensures { result ≡ list_any (λ q. q == p) self.now.worn_out.items }
    {
        self.worn_out.contains(&p)
    }

    /// All writes that may succeed were asked for.
    pub(crate) fn is_past_stop(&self) -> bool
        ensures { result ≡ is_past self.now.stop self.now.writes }
    {
        match self.stop {
            Some(limit) => limit <= self.writes,
            None => false,
        }
    }

    /// Counts a read.
    pub fn count_read(&mut self)
        ensures { self.new ≡ record self.old { calls = counted self.old.calls } }
    {
        self.calls = self.calls.saturating_add(1);
    }

    /// Counts a program, an erase or a barrier.
    pub fn count_write(&mut self)
        ensures { self.new ≡ record self.old { calls = counted self.old.calls; writes = counted self.old.writes } }
    {
        self.calls = self.calls.saturating_add(1);
        self.writes = self.writes.saturating_add(1);
    }
}
