//! The records of sessions, written out before they are committed.
ghost use Rattle.std.specs.Prelude.{◌≡◌, ℕ, ◌<◌, ◌+◌, ◌*◌, ◌^◌, All, Contains, length, map, OnOk};
ghost use Rattle.place_taking.specs.Spending.{is_worn_out};
ghost use Rattle.record_locks.specs.Held.{written_by};
ghost use Rattle.store_laws.specs.Numbers.{IsOut};
ghost use Rattle.page_frames.specs.Asks.{AsksToWriteNamesOut};
ghost use Rattle.page_frames.specs.Complete.{FailsByChip};
ghost use Rattle.page_frames.specs.Faulty.{TellsFaultsThen};
ghost use Rattle.page_frames.specs.Pages.{frames_in, KeepsFramed, ArePagesReady, Upholds};
ghost use Rattle.page_frames.specs.Changed.{is_home, is_on_page};

use crate::Pages;
use chip_trait::Chip;
use ipl_base::{ChipFault, Name, home};
use record_locks::Sessions;

/// Whether a page (0 to 14 of a unit) is the one of a name.
fn is_home(name: Name, unit: u32, page: u32) -> bool
    ensures { result ≡ is_home unit page name.0 }
{
    let home = home(name);
    home.unit == unit && home.page == page
}

/// Whether one of these names is on a page (0 to 14) of a unit.
fn is_on_page(names: &[Name], unit: u32, page: u32) -> bool
    ensures { result ≡ is_on_page (map (λ n. n.0) names.now) unit page }
{
    for name in names {
        if is_home(*name, unit, page) {
            return true;
        }
    }
    false
}

/// Whether a name that one of these sessions wrote is on a page (0 to 14) of a unit.
fn has_page(sessions: &Sessions, numbers: &[u32], unit: u32, page: u32) -> bool
    requires { (s : ℕ) → Contains numbers.now s → s < length sessions.now }
    ensures { result ≡ is_on_page (written_by sessions.now numbers.now) unit page }
{
    for s in numbers {
        if is_on_page(sessions.written(*s), unit, page) {
            return true;
        }
    }
    false
}

impl Pages {
    /// Writes the records out of the pages of the names that these sessions wrote, in
    /// rising order of unit and page: those of a page go to the chip together, whichever sessions
    /// have them. Each page stays in its frame.
    pub fn write_sessions_out<C: Chip>(
        &mut self,
        chip: &mut C,
        sessions: &Sessions,
        numbers: &[u32],
    ) -> Result<(), ChipFault>
        requires ready { ArePagesReady (C.told chip.old).places self.old }
        requires low { (s : ℕ) → Contains numbers.now s → s < length sessions.now }
        requires left { self.old.parts.counter + 14 * 64 < 2 ^ 64 }
        ensures upholds { Upholds (14 * 64) self.old (C.told chip.old) result self.new (C.told chip.new) }
        ensures complete { FailsByChip self.old result (C.told chip.old) }
        ensures faults { TellsFaultsThen self.old result (C.told chip.old) self.new (C.told chip.new) }
        ensures out { OnOk result (All (IsOut (frames_in self.new))
            (written_by sessions.now numbers.now)) }
        ensures framed { KeepsFramed self.old self.new }
        ensures status { self.new.parts.status ≡ self.old.parts.status }
        ensures asks { AsksToWriteNamesOut (written_by sessions.now numbers.now)
            (is_worn_out result) self.old self.new (C.told chip.old) (C.told chip.new) }
    {
        for i in 0..self.pool.len() {
            self.pool.facts();
            let (unit, page) = self.pool.page_at(i);
            if has_page(sessions, numbers, unit, page) {
                self.write_out(chip, unit, page)?;
            }
        }
        self.pool.facts();
        Ok(())
    }
}
