//! A name is changed.
ghost use Rattle.std.specs.Prelude.{◌≡◌, ◌<◌, ◌+◌, ◌^◌, length, slice_index, false, OnErr};
ghost use Rattle.ipl_base.specs.declared.fault.ChipFault.TheVariants.{Malformed};
ghost use Rattle.ipl_base.specs.Places.{home_of};
ghost use Rattle.ipl_base.specs.Sizes.{size_in_page};
ghost use Rattle.log_records.specs.View.{change_of};
ghost use Rattle.ipl_model.specs.Operations.{after_write};
ghost use Rattle.place_taking.specs.Spending.{is_worn_out};
ghost use Rattle.page_frames.specs.Pages.{FramesPage};
ghost use Rattle.ipl_store.specs.Costs.{HasRoomFor, AsksToWrite};
ghost use Rattle.ipl_store.specs.Turns.{IsInOrder, Turns};
ghost use Rattle.ipl_store.specs.Writing.{FailsAsWrite, MayWrite};

use crate::transactions::Transactions;
use chip_trait::Chip;
use ipl_base::{ChipFault, Name, home};
use log_records::{Change, Record};
use page_frames::put_record;

impl Transactions {
    /// Puts or deletes a name of the chip for a session, which no lock keeps it from; a
    /// put only where the page of the name is in a frame, and has room by what open sessions wrote.
    /// The page is in a frame then, with the change pending and its record in memory, and is the
    /// page used last.
    ///
    /// The header of its unit is said to be malformed where the page has no room for what is pending
    /// there, which is then more than the sessions wrote.
    pub fn write<C: Chip>(
        &mut self,
        chip: &mut C,
        s: u32,
        name: Name,
        change: Change,
    ) -> Result<(), ChipFault>
        requires order { IsInOrder (C.told chip.old).places self.old }
        requires may { MayWrite self.old s name.0 (change_of change) }
        requires left { self.old.pages.parts.counter + 14 < 2 ^ 64 }
        ensures turns { Turns (λ state. after_write state s (name.0, change_of change)) 14
            self.old (C.told chip.old) result self.new (C.told chip.new) }
        ensures fails { FailsAsWrite self.old name.0 result (C.told chip.old) self.new.pages
            (C.told chip.new) }
        ensures frames { FramesPage (home_of name.0).unit (home_of name.0).page result
            self.old.pages self.new.pages }
        ensures asks { AsksToWrite name.0 (change_of change) (is_worn_out result)
            self.old.pages self.new.pages
            (C.told chip.old) (C.told chip.new) }
        // Failed, it changed no session.
        ensures sessions { OnErr result (self.new.sessions ≡ self.old.sessions) }
        // Where the page is in a frame and has room for the record, the tables stay as they are, no
        // number is drawn and no place found worn.
        ensures idle { HasRoomFor self.old.pages name.0 (change_of change)
            → (self.new.pages.parts ≡ self.old.pages.parts) × (is_worn_out result ≡ false) }
    {
        let home = home(name);
        let Some(tid) = self.sessions.number(s) else {
            unreachable!("the session is open");
        };
        let record = Record {
            page: home.page,
            slot: home.slot,
            tid,
            change,
        };
        self.pages.prepare(chip, home.unit, &record)?;
        if !put_record(&mut self.pages.pool, home.unit, &record) {
            return Err(self.no_room(home.unit));
        }
        let _ = self.sessions.write(s, name, size_in_page(&record.change));
        self.sessions.facts();
        Ok(())
    }

    // The fault of a page of a unit that has no room for what is pending there.
    fn no_room(&self, unit: u32) -> ChipFault
        requires { unit < length self.now.pages.parts.directory.current }
        ensures { result ≡ Malformed (slice_index self.now.pages.parts.directory.current unit) 0 }
    {
        let place = self.pages.parts.directory.current(unit);
        ChipFault::Malformed { place, sector: 0 }
    }
}

// What the value of a change takes in the text of its page, at most 467 bytes.
fn size_in_page(change: &Change) -> u16
    ensures { result ≡ size_in_page (change_of change.now) }
{
    match change {
        Change::Put(value) => 3 + value.bytes().len() as u16,
        Change::Delete => 0,
    }
}
