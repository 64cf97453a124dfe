//! A chip is opened, at first and again.
ghost use Rattle.std.specs.Prelude.{◌≡◌, ◌≤◌, ℕ, [], false, true, None, IfOk, OnOk, length, replicate};
ghost use Rattle.ipl_base.specs.declared.limits.TheConstants.{SESSIONS};
ghost use Rattle.page_frames.specs.Pages.{tables_in};
ghost use Rattle.ipl_store.specs.Calls.{memory_of_store, numbers_of, IsMade, IsSound};
ghost use Rattle.ipl_store.specs.Memories.{IsMemory, IsMemoryFor, KeepsLent, SameRoom, answer_of_opening, places_of};
ghost use Rattle.ipl_store.specs.Openings.{Tries, KeepsRoom, Reopens, Restarts, OpensAs};

use crate::Store;
use crate::memory::{Memory, Unopened};
use chip_trait::Chip;
use ipl_base::ImageFault;
use restart::recover;
use selective_merge::Active;

impl Store {
    /// A store that is down, in this memory, until `reopen` or `open_chip` opens a chip.
    pub fn closed(memory: Memory) -> Store
        ensures { result ≡ memory.store }
    {
        memory.store
    }

    /// Gives the memory back that the store was lent. What isn't committed is gone; the chip isn't asked.
    pub fn into_memory(mut self) -> Memory
        requires { (places : ℕ) × IsSound places self }
        ensures memory { (places : ℕ) → IsSound places self → IsMemoryFor places result }
        ensures same { SameRoom self result.store }
    {
        self.down = true;
        Memory { store: self }
    }

    /// Forgets all sessions, and the pages in frames. The store is down.
    fn forget(&mut self)
        ensures idle { self.new.transactions.sessions
            ≡ replicate (length self.new.transactions.sessions) None }
        ensures sessions { length self.new.transactions.sessions
            ≡ length self.old.transactions.sessions }
        ensures few { length self.new.transactions.sessions ≤ SESSIONS }
        ensures empty { self.new.transactions.pages.pool.buffers.slots ≡ [] }
        ensures active { self.new.transactions.pages.parts.active ≡ [] }
        ensures down { (self.new.down ≡ true) × (self.new.closed ≡ false) }
        ensures units { self.new.units ≡ self.old.units }
        ensures frames { self.new.frames ≡ self.old.frames }
        ensures numbers { numbers_of self.new ≡ numbers_of self.old }
        ensures made { (places : ℕ) → IsMade places self.old → IsMade places self.new }
    {
        self.down = true;
        self.closed = false;
        self.transactions.sessions.reset();
        self.transactions.sessions.facts();
        self.transactions.pages.pool.reset();
        self.transactions.pages.parts.active = Active::none();
    }

    /// Opens the chip, or what is left of it, whatever the memory has: all sessions are dropped, and
    /// all holds. The store has as many units as the chip says then. Where that fails the store is down,
    /// and has as many as before. A mark on the chip counts only where it is told to: not where the chip
    /// was formatted, or was open and not closed since, which leaves no mark.
    pub fn open_chip<C: Chip>(&mut self, chip: &mut C, marks: bool) -> Result<(), ImageFault>
        requires sound { IsSound (C.told chip.old).places self.old }
        ensures sound { IsSound (C.told chip.old).places self.new }
        ensures frames { self.new.frames ≡ self.old.frames }
        ensures sessions { length self.new.transactions.sessions
            ≡ length self.old.transactions.sessions }
        ensures numbers { numbers_of self.new ≡ numbers_of self.old }
        ensures opens { Reopens (C.told chip.old).places self.old (C.told chip.old) result self.new
            (C.told chip.new) }
        ensures tries { Tries marks (C.told chip.old).places (C.told chip.old) result
            (tables_in self.new.transactions.pages) (C.told chip.new) }
        ensures room { KeepsRoom (memory_of_store self.old) (C.told chip.old) result }
        // Of a store that stands for states: each is left with no session open, where no mark counts.
        ensures leads { marks ≡ false → OnOk result (Restarts (memory_of_store self.old)
            (C.told chip.old) (memory_of_store self.new) (C.told chip.new)) }
    {
        self.transactions.pages.parts.status.facts();
        self.forget();
        let parts = &mut self.transactions.pages.parts;
        let recovered = recover(chip, &mut self.scratch, parts, &mut self.kept, marks);
        parts.directory.facts();
        recovered?;
        self.units = self.transactions.pages.parts.directory.units();
        self.down = false;
        Ok(())
    }

    /// Opens a chip in memory that is lent for it. The store has the records for which the chip's contents
    /// stand, and no session is open; it has as many frames and sessions as the memory, and room for as many
    /// committed numbers. Where more are committed on the chip it fails with `TooManyNumbers`, before it
    /// writes; where the memory is for another number of places with `Geometry`, and the chip isn't asked.
    pub fn open<C: Chip>(memory: Memory, chip: &mut C) -> Result<Store, Unopened>
        requires { IsMemory memory }
        ensures opens { OpensAs (places_of memory) (numbers_of memory.store) (C.told chip.old)
            (answer_of_opening result) (C.told chip.new) }
        ensures lent { KeepsLent memory result }
    {
        if chip.units() != memory.places() {
            let fault = ImageFault::Geometry;
            return Err(Unopened { memory, fault });
        }
        let mut store = memory.store;
        match store.open_chip(chip, true) {
            Ok(()) => Ok(store),
            Err(fault) => {
                let memory = Memory { store };
                Err(Unopened { memory, fault })
            }
        }
    }

    /// Opens the chip again, or what is left of it: all sessions are dropped, and all holds. Where
    /// that fails the store is down, and has as many units as before. Where the store was closed, its mark
    /// on the chip counts, also one that may stand since a write failed in the close.
    pub fn reopen<C: Chip>(mut self, chip: &mut C) -> (Store, Result<(), ImageFault>)
        requires sound { IsSound (C.told chip.old).places self }
        ensures sound { IsSound (C.told chip.old).places result.0 }
        ensures frames { result.0.frames ≡ self.frames }
        ensures sessions { length result.0.transactions.sessions ≡ length self.transactions.sessions }
        ensures numbers { numbers_of result.0 ≡ numbers_of self }
        ensures opens { Reopens (C.told chip.old).places self (C.told chip.old) result.1 result.0
            (C.told chip.new) }
        ensures tries { Tries self.closed (C.told chip.old).places (C.told chip.old) result.1
            (tables_in result.0.transactions.pages) (C.told chip.new) }
        ensures room { KeepsRoom (memory_of_store self) (C.told chip.old) result.1 }
        // Of a store that stands for states and wasn't closed: each is left with no session open.
        ensures leads { self.closed ≡ false → OnOk result.1 (Restarts (memory_of_store self)
            (C.told chip.old) (memory_of_store result.0) (C.told chip.new)) }
    {
        let marks = self.closed;
        let opened = self.open_chip(chip, marks);
        (self, opened)
    }
}
