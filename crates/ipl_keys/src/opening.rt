//! A chip is opened.
ghost use Rattle.std.specs.Prelude.{ℕ};
ghost use Rattle.ipl_store.specs.Calls.{numbers_of, IsSound};
ghost use Rattle.ipl_store.specs.Memories.{IsMemory, IsMemoryFor, KeepsLent, SameRoom, answer_of_opening, places_of};
ghost use Rattle.ipl_store.specs.Openings.{OpensAs};
ghost use Rattle.ipl_keys.specs.Opening.{OpensKeys, store_of};

use crate::Keys;
use chip_trait::Chip;
use ipl_store::{Memory, Store, Unopened};

impl Keys {
    /// Opens a chip in memory that is lent for it, as `Store::open` does. Where its records are buckets,
    /// the store has their keys, and no session is open.
    pub fn open<C: Chip>(memory: Memory, chip: &mut C) -> Result<Keys, Unopened>
        requires { IsMemory memory }
        ensures opens { OpensAs (places_of memory) (numbers_of memory.store) (C.told chip.old)
            (answer_of_opening (store_of result)) (C.told chip.new) }
        ensures keys { OpensKeys (C.told chip.old) result (C.told chip.new) }
        ensures lent { KeepsLent memory (store_of result) }
    {
        match Store::open(memory, chip) {
            Ok(store) => Ok(Keys {
                store,
                bucket: [0; 464],
            }),
            Err(unopened) => Err(unopened),
        }
    }

    /// Gives the memory back that the store was lent. What isn't committed is gone; the chip isn't asked.
    pub fn into_memory(self) -> Memory
        requires { (places : ℕ) × IsSound places self.store }
        ensures memory { (places : ℕ) → IsSound places self.store → IsMemoryFor places result }
        ensures same { SameRoom self.store result.store }
    {
        self.store.into_memory()
    }
}
