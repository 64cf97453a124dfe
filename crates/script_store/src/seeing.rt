//! What sessions see, and what is committed.
ghost use Rattle.std.specs.Prelude.{IfOk, OnOk};
ghost use Rattle.ipl_base.specs.Places.{home_of};
ghost use Rattle.ipl_model.specs.declared.command.Command.TheVariants as command;
ghost use Rattle.ipl_model.specs.Operations.{after_share};
ghost use Rattle.page_frames.specs.Pages.{IsFramed};
ghost use Rattle.ipl_store.specs.Calls.{Calls, get_fault, share_fault, name_fault};
ghost use Rattle.ipl_store.specs.Shown.{IsSeen, HasCommitted};
ghost use Rattle.store_laws.specs.Keeps.{KnownPages};
ghost use Rattle.script_store.specs.Keeps.{IsRunning, DoesCommand, Finds};
ghost use Rattle.script_store.specs.Done.{SaysSeen, HasFound};

use crate::ScriptStore;
use crate::replies::{copied, found_of, looked_up};
use chip_trait::Chip;
use ipl_base::{StoreFault, Value};
use ipl_model::Reply;
use store_trait::Fault;

impl ScriptStore {
    /// What a session sees of a name, as a value of its own.
    fn see<C: Chip>(&mut self, chip: &mut C, s: u32, n: u32) -> Result<Option<Value>, StoreFault>
        requires runs { IsRunning (C.told chip.old).places self.old }
        ensures calls { Calls (get_fault self.old.store s n) (λ state. state) 14
            self.old.store (C.told chip.old) result self.new.store (C.told chip.new) }
        ensures framed { OnOk result (IsFramed self.new.store.transactions.pages (home_of n).unit (home_of n).page) }
        ensures seen { IfOk result (λ found. IsSeen s n self.old.store (C.told chip.old) found) }
    {
        match self.store.get(chip, s, n) {
            Ok(found) => Ok(copied(found)),
            Err(fault) => Err(fault),
        }
    }

    /// What a session sees of a name, which it shares then, as a value of its own.
    fn see_shared<C: Chip>(
        &mut self,
        chip: &mut C,
        s: u32,
        n: u32,
    ) -> Result<Option<Value>, StoreFault>
        requires runs { IsRunning (C.told chip.old).places self.old }
        ensures calls { Calls (share_fault self.old.store s n) (λ state. after_share state s n) 14
            self.old.store (C.told chip.old) result self.new.store (C.told chip.new) }
        ensures framed { OnOk result (IsFramed self.new.store.transactions.pages (home_of n).unit (home_of n).page) }
        ensures seen { IfOk result (λ found. IsSeen s n self.old.store (C.told chip.old) found) }
    {
        match self.store.share(chip, s, n) {
            Ok(found) => Ok(copied(found)),
            Err(fault) => Err(fault),
        }
    }

    /// The committed record of a name, as a value of its own.
    fn find<C: Chip>(&mut self, chip: &mut C, n: u32) -> Result<Option<Value>, StoreFault>
        requires runs { IsRunning (C.told chip.old).places self.old }
        ensures calls { Calls (name_fault self.old.store n) (λ state. state) 14
            self.old.store (C.told chip.old) result self.new.store (C.told chip.new) }
        ensures framed { OnOk result (IsFramed self.new.store.transactions.pages (home_of n).unit (home_of n).page) }
        ensures committed { IfOk result (λ found. HasCommitted n self.old.store (C.told chip.old)
            found) }
    {
        match self.store.committed(chip, n) {
            Ok(found) => Ok(copied(found)),
            Err(fault) => Err(fault),
        }
    }
}

impl ScriptStore {
    /// What a session sees of a name.
    pub(crate) fn get<C: Chip>(&mut self, chip: &mut C, s: u32, n: u32) -> Result<Reply, Fault>
        requires runs { IsRunning (C.told chip.old).places self.old }
        ensures does { (known : KnownPages) → DoesCommand known (command.Get s n) self.old (C.told chip.old) result self.new
            (C.told chip.new) }
        ensures done { IfOk result (λ reply. SaysSeen s n self.old (C.told chip.old) reply) }
    {
        found_of(self.see(chip, s, n))
    }

    /// What a session sees of a name, which it shares then.
    pub(crate) fn share<C: Chip>(&mut self, chip: &mut C, s: u32, n: u32) -> Result<Reply, Fault>
        requires runs { IsRunning (C.told chip.old).places self.old }
        ensures does { (known : KnownPages) → DoesCommand known (command.Share s n) self.old (C.told chip.old) result self.new
            (C.told chip.new) }
        ensures done { IfOk result (λ reply. SaysSeen s n self.old (C.told chip.old) reply) }
    {
        found_of(self.see_shared(chip, s, n))
    }

    /// The committed record of a name, where there is one. A name that the chip hasn't has none.
    pub(crate) fn look<C: Chip>(&mut self, chip: &mut C, n: u32) -> Result<Option<Value>, Fault>
        requires runs { IsRunning (C.told chip.old).places self.old }
        ensures finds { (known : KnownPages) → Finds known n self.old (C.told chip.old) result self.new (C.told chip.new) }
        ensures done { IfOk result (λ found. HasFound n self.old (C.told chip.old) found) }
    {
        looked_up(self.find(chip, n))
    }
}
