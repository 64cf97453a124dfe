//! What a chip counts of its calls that failed.
ghost use Rattle.std.specs.Prelude.{◌≡◌, ◌≤◌, true, false};
ghost use Rattle.chip_mem.specs.Plan.{counted};
ghost use Rattle.chip_mem.specs.Tells.{none_yet};

/// How often reads and writes have failed, each up to its last value, and whether no write has since
/// the chip was made or settled anew.
#[derive(Drop)]
pub struct Faults {
    settled: bool,
    reads: u64,
    writes: u64,
}

impl Faults {
    /// Nothing has failed yet.
    pub fn new() -> Faults
        ensures { result ≡ none_yet }
    {
        Faults {
            settled: true,
            reads: 0,
            writes: 0,
        }
    }

    /// Counts a failed read.
    pub fn count_read(&mut self)
        ensures only { self.new ≡ record self.old { reads = counted self.old.reads } }
        ensures later { self.old.reads ≤ self.new.reads }
    {
        self.reads = self.reads.saturating_add(1);
    }

    /// Counts a failed program, erase or barrier, after which the chip isn't settled.
    pub fn count_write(&mut self)
        ensures only { self.new ≡ record self.old
            { settled = false; writes = counted self.old.writes } }
        ensures later { self.old.writes ≤ self.new.writes }
    {
        self.settled = false;
        self.writes = self.writes.saturating_add(1);
    }

    /// From now on the chip is settled, until a write fails again.
    pub(crate) fn settle(&mut self)
        ensures { self.new ≡ record self.old { settled = true } }
    {
        self.settled = true;
    }
}
