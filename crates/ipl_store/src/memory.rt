//! The memory that a store is lent.
ghost use Rattle.std.specs.Prelude.{◌≡◌, ◌≤◌, length, IfOk};
ghost use Rattle.ipl_base.specs.declared.limits.TheConstants.{LEAST_NUMBERS, SESSIONS, STATUS_NUMBERS};
ghost use Rattle.ipl_store.specs.Calls.{numbers_of};
ghost use Rattle.ipl_store.specs.Memories.{IsMemory, IsMemoryFor, places_of};

use crate::Store;
use crate::transactions::Transactions;
use ipl_base::{Geometry, ImageFault, OutOfMemory};
use page_frames::Pages;
use record_locks::Sessions;
use restart::{KeptNumbers, Scratch};
use std::alloc::Global;

/// All memory of a store, for chips of so many places. It is made once, by `new`; an opening takes it,
/// and takes no more, nor does any other call; and `Store::into_memory` gives it back.
#[derive(Drop)]
pub struct Memory {
    // It is down.
    pub(crate) store: Store,
}

/// A chip wasn't opened: why, and the memory that was lent.
#[derive(Drop)]
pub struct Unopened {
    pub memory: Memory,
    pub fault: ImageFault,
}

impl Memory {
    /// Memory for a store with 2 to 64 frames for pages, 32 sessions at most and room for 120 to 15,300
    /// committed numbers, on a chip of this geometry.
    pub fn new(
        alloc: Global,
        geometry: Geometry,
        frames: u32,
        sessions: u32,
        numbers: u32,
    ) -> Result<Memory, OutOfMemory>
        requires two { 2 ≤ frames }
        requires few { frames ≤ 64 }
        requires sessions { sessions ≤ SESSIONS }
        requires least { LEAST_NUMBERS ≤ numbers }
        requires most { numbers ≤ STATUS_NUMBERS }
        ensures made { IfOk result (λ memory. IsMemoryFor geometry.places memory) }
        ensures frames { IfOk result (λ memory. memory.store.frames ≡ frames) }
        ensures sessions { IfOk result (λ memory. length memory.store.transactions.sessions ≡ sessions) }
        ensures numbers { IfOk result (λ memory. numbers_of memory.store ≡ numbers) }
    {
        let pages = Pages::new(alloc, geometry, frames, numbers)?;
        let sessions = Sessions::new(alloc, sessions)?;
        let store = Store {
            transactions: Transactions { pages, sessions },
            kept: KeptNumbers::new(alloc, numbers as usize)?,
            scratch: Scratch::new(alloc, geometry)?,
            units: geometry.units(),
            frames,
            down: true,
            closed: false,
        };
        Ok(Memory { store })
    }

    /// The number of places of the chips that it is for, 5 to 1,028.
    pub fn places(&self) -> u32
        requires { IsMemory self.now }
        ensures { result ≡ places_of self.now }
    {
        self.store.transactions.pages.parts.directory.places()
    }
}
