//! What a store has in memory.
ghost use Rattle.std.specs.Prelude.{◌≡◌, ◌≤◌, length};
ghost use Rattle.ipl_base.specs.declared.limits.TheConstants.{SESSIONS};

use crate::transactions::Transactions;
use restart::{KeptNumbers, Scratch};

/// A store of records over a chip. It has the chip's tables, pages in frames and open sessions in
/// memory; the chip comes with each call. Its memory was made by `Memory::new`.
#[derive(Drop)]
pub struct Store {
    pub(crate) transactions: Transactions,
    // The numbers that a new status place keeps, while it is made.
    pub(crate) kept: KeptNumbers,
    // What an opening notes of each place.
    pub(crate) scratch: Scratch,
    // As the last opening that succeeded found it.
    pub(crate) units: u32,
    // So many pages may be in frames.
    pub(crate) frames: u32,
    // A write failed, too many places are worn, the store was closed, or the chip wasn't opened again:
    // nothing is done until it is.
    pub(crate) down: bool,
    // It was closed, or a write failed in that, and its chip wasn't opened again: where a mark stands, it says
    // what is known of the chip's log sectors.
    pub(crate) closed: bool,
}

impl Store {
    /// How many units its chip has, as the last opening that succeeded found it. It answers also where
    /// the store is down.
    pub fn unit_count(&self) -> u32
        ensures { result ≡ self.now.units }
    {
        self.units
    }

    /// How many sessions it has, 32 at most. Their numbers are those below it.
    pub fn session_count(&self) -> u32
        ensures count { result ≡ length self.now.transactions.sessions }
        ensures few { result ≤ SESSIONS }
    {
        self.transactions.sessions.count()
    }
}
