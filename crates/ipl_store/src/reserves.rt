//! What a store has left before it ends.
ghost use Rattle.std.specs.Prelude.{◌≡◌};
ghost use Rattle.ipl_store.specs.Reserves.{TellsReserves};

use crate::Store;
use ipl_base::LAST_NUMBER;

/// What a store has left before it ends, as its tables in memory have it. A call that draws nothing
/// from these may be refused for other reasons.
#[derive(Clone, Copy, Drop)]
pub struct Reserves {
    /// So many places are spare, 0 to 64, worn or not.
    pub spares: u32,
    /// So many places were found worn and are retired, 0 to `spares`: where one more than are spare is, the
    /// store goes down.
    pub retired: u32,
    /// How often that place was erased that was erased least often, of those that aren't retired, as far
    /// as is known: up to 2^32 - 1.
    pub least_erases: u32,
    /// And that which was erased most often.
    pub most_erases: u32,
    /// So many log sectors, 0 to 15, are known clean in the place of that unit that has fewest. Where
    /// it has none, its next log sector stands elsewhere or costs a merge.
    pub clean_logs: u32,
    /// So many commit sectors, 0 to 255, are known clean. Where none is, the next commit makes a new status
    /// place.
    pub clean_commits: u32,
    /// So many numbers may be drawn until each call is refused that may draw one, 0 to 2^64 - 2^20 + 1.
    pub numbers: u64,
}

impl Store {
    /// What it has left. It asks the chip nothing, and answers also where the store is down: as the
    /// last call left its tables.
    pub fn reserves(&self) -> Reserves
        ensures { TellsReserves self.now result }
    {
        let parts = &self.transactions.pages.parts;
        let directory = &parts.directory;
        Reserves {
            spares: directory.spares(),
            retired: directory.retired_count(),
            least_erases: directory.least_erases(),
            most_erases: directory.most_erases(),
            clean_logs: directory.least_clean_logs(),
            clean_commits: parts.status.room(),
            numbers: (LAST_NUMBER + 1).saturating_sub(parts.counter.next()),
        }
    }
}
