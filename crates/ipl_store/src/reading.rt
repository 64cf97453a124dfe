//! What sessions see, and what is committed.
ghost use Rattle.std.specs.Prelude.{◌≡◌, ◌<◌, ◌≤◌, ◌*◌, ℕ, List, Option, false, Some, None, IfOk, IfSome, OnOk, length, option_map};
ghost use Rattle.std.specs.Borrow.{sem, Bor};
ghost use Rattle.std.specs.Io.BufRead.{Rests};
ghost use Rattle.ipl_base.specs.declared.limits.TheConstants.{VALUE_LEN};
ghost use Rattle.ipl_base.specs.Places.{home_of};
ghost use Rattle.ipl_model.specs.Operations.{after_share};
ghost use Rattle.record_locks.specs.Held.{number_of};
ghost use Rattle.store_trait.specs.Keeping.{LAST_NUMBER};
ghost use Rattle.page_ops.specs.Pending.{seen_by};
ghost use Rattle.store_laws.specs.Frames.{PageFrame};
ghost use Rattle.page_frames.specs.Pages.{frames_in};
ghost use Rattle.ipl_store.specs.contracts.store.Store.{the_row};
ghost use Rattle.ipl_store.specs.Calls.{
  counter_of,
  IsSound,
  get_fault,
  share_fault,
  name_fault,
};
ghost use Rattle.ipl_store.specs.Puts.{HasBrought};
ghost use Rattle.ipl_store.specs.Shown.{answered, AsksFor, Fetches, HasCommitted, KeepsNumber, LooksAtStore, ShowsSeen};

use crate::Store;
use chip_trait::Chip;
use ipl_base::{Name, StoreFault, home};
use page_frames::{committed_value, seen_value};
use store_laws::passing_laws;

impl Store {
    /// Brings the page of a name of the chip into a frame. The store isn't down, and has numbers
    /// left.
    pub(crate) fn bring<C: Chip>(&mut self, chip: &mut C, n: u32) -> Result<(), StoreFault>
        requires sound { IsSound (C.told chip.old).places self.old }
        requires up { self.old.down ≡ false }
        requires name { n < 960 * self.old.units }
        requires left { counter_of self.old ≤ LAST_NUMBER }
        ensures fetches { Fetches None (λ state. state) n
            self.old (C.told chip.old) result self.new (C.told chip.new) }
        ensures sessions { self.new.transactions.sessions ≡ self.old.transactions.sessions }
        ensures asks { AsksFor n self.old (C.told chip.old) (C.told chip.new) }
        ensures brought { OnOk result (HasBrought (home_of n).unit (home_of n).page
            self.old (C.told chip.old) self.new (C.told chip.new)) }
    {
        let home = home(Name(n));
        self.transactions.pages.pool.facts();
        let done = self.transactions.pages.bring(chip, home.unit, home.page);
        self.end(done)
    }

    /// What a session sees of a name whose page is in a frame, at most 464 bytes.
    fn seen(&self, s: u32, n: u32) -> Option<&[u8]>
        requires session { s < length self.now.transactions.sessions }
        ensures seen { (f : PageFrame) (tid : ℕ) → number_of self.now.transactions.sessions s ≡ Some tid
            → frames_in self.now.transactions.pages (home_of n).unit (home_of n).page ≡ Some f
            → option_map (λ b. b.now) result
            ≡ seen_by tid (f.values (home_of n).slot) (f.pending (home_of n).slot) }
        ensures short { IfSome result (λ b. length b.now ≤ VALUE_LEN) }
    {
        let tid = self.transactions.sessions.number(s)?;
        seen_value(&self.transactions.pages.pool, home(Name(n)), tid)
    }

    /// The page of a name that a session looks up, in a frame.
    fn fetch<C: Chip>(&mut self, chip: &mut C, s: u32, n: u32) -> Result<(), StoreFault>
        requires sound { IsSound (C.told chip.old).places self.old }
        ensures fetches { Fetches (get_fault self.old s n) (λ state. state) n
            self.old (C.told chip.old) result self.new (C.told chip.new) }
        ensures looks { (found : Option (Bor (List ℕ))) → LooksAtStore
            (get_fault self.old s n) (λ state. state) n
            self.old (C.told chip.old) (answered result found) self.new (C.told chip.new) }
        ensures asks { AsksFor n self.old (C.told chip.old) (C.told chip.new) }
        ensures session { OnOk result (KeepsNumber s self.old self.new) }
    {
        self.admit(self.refuses_get(s, n))?;
        passing_laws();
        self.bring(chip, n)
    }

    /// What a session sees of a name: its own last write there, or else the committed record. It
    /// takes no lock. The slice, of at most 464 bytes, is lent from the page's frame.
    ///
    /// A bad page ends it, with exactly what is wrong with that: the page of the name, or one of
    /// the unit of the page that had to leave its frame.
    pub fn get<C: Chip>(
        &mut self,
        chip: &mut C,
        s: u32,
        n: u32,
    ) -> Result<Option<&[u8]>, StoreFault>
        requires sound { IsSound (C.told chip.old).places self.old }
        ensures* looks { sem 𝓛 (Rests the_row self.entry (λ new.
            LooksAtStore (get_fault self.old s n) (λ state. state) n
            self.old (C.told chip.old) result new (C.told chip.new))) }
        ensures seen { IfOk result (ShowsSeen s n self.old (C.told chip.old)) }
        ensures asks { AsksFor n self.old (C.told chip.old) (C.told chip.new) }
    {
        self.fetch(chip, s, n)?;
        Ok(self.seen(s, n))
    }
}

impl Store {
    /// The page of a name that a session shares, in a frame; the session shares it then.
    fn fetch_shared<C: Chip>(&mut self, chip: &mut C, s: u32, n: u32) -> Result<(), StoreFault>
        requires sound { IsSound (C.told chip.old).places self.old }
        ensures fetches { Fetches (share_fault self.old s n) (λ state. after_share state s n) n
            self.old (C.told chip.old) result self.new (C.told chip.new) }
        ensures looks { (found : Option (Bor (List ℕ))) → LooksAtStore
            (share_fault self.old s n) (λ state. after_share state s n) n
            self.old (C.told chip.old) (answered result found) self.new (C.told chip.new) }
        ensures asks { AsksFor n self.old (C.told chip.old) (C.told chip.new) }
        ensures session { OnOk result (KeepsNumber s self.old self.new) }
    {
        self.admit(self.refuses_share(s, n))?;
        passing_laws();
        self.bring(chip, n)?;
        self.transactions.share(s, Name(n));
        Ok(())
    }

    /// What a session sees of a name, which it shares until it ends. The slice is lent from the
    /// page's frame. A bad page ends it as it does a `get`.
    pub fn share<C: Chip>(
        &mut self,
        chip: &mut C,
        s: u32,
        n: u32,
    ) -> Result<Option<&[u8]>, StoreFault>
        requires sound { IsSound (C.told chip.old).places self.old }
        ensures* looks { sem 𝓛 (Rests the_row self.entry (λ new.
            LooksAtStore (share_fault self.old s n) (λ state. after_share state s n) n
            self.old (C.told chip.old) result new (C.told chip.new))) }
        ensures seen { IfOk result (ShowsSeen s n self.old (C.told chip.old)) }
        ensures asks { AsksFor n self.old (C.told chip.old) (C.told chip.new) }
    {
        self.fetch_shared(chip, s, n)?;
        Ok(self.seen(s, n))
    }

    /// The page of a name, in a frame.
    fn fetch_name<C: Chip>(&mut self, chip: &mut C, n: u32) -> Result<(), StoreFault>
        requires sound { IsSound (C.told chip.old).places self.old }
        ensures fetches { Fetches (name_fault self.old n) (λ state. state) n
            self.old (C.told chip.old) result self.new (C.told chip.new) }
        ensures looks { (found : Option (Bor (List ℕ))) → LooksAtStore
            (name_fault self.old n) (λ state. state) n
            self.old (C.told chip.old) (answered result found) self.new (C.told chip.new) }
        ensures asks { AsksFor n self.old (C.told chip.old) (C.told chip.new) }
    {
        self.admit(self.refuses_name(n))?;
        self.bring(chip, n)
    }

    /// The committed record of a name whose page is in a frame.
    fn committed_in(&self, n: u32) -> Option<&[u8]>
        ensures committed { (f : PageFrame)
            → frames_in self.now.transactions.pages (home_of n).unit (home_of n).page ≡ Some f
            → option_map (λ b. b.now) result ≡ f.values (home_of n).slot }
        ensures short { IfSome result (λ b. length b.now ≤ VALUE_LEN) }
    {
        committed_value(&self.transactions.pages.pool, home(Name(n)))
    }

    /// The committed record of a name, where it has one. The slice, of at most 464 bytes, is
    /// lent from the page's frame. A bad page ends it as it does a `get`.
    pub fn committed<C: Chip>(&mut self, chip: &mut C, n: u32) -> Result<Option<&[u8]>, StoreFault>
        requires sound { IsSound (C.told chip.old).places self.old }
        ensures* looks { sem 𝓛 (Rests the_row self.entry (λ new.
            LooksAtStore (name_fault self.old n) (λ state. state) n
            self.old (C.told chip.old) result new (C.told chip.new))) }
        ensures committed { IfOk result (λ found. HasCommitted n self.old (C.told chip.old)
            (option_map (λ b. b.now) found)) }
        ensures short { IfOk result (λ found. IfSome found (λ b. length b.now ≤ VALUE_LEN)) }
        ensures asks { AsksFor n self.old (C.told chip.old) (C.told chip.new) }
    {
        self.fetch_name(chip, n)?;
        Ok(self.committed_in(n))
    }
}
