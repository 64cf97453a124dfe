//! Commands that have no record as their reply.
ghost use Rattle.std.specs.Prelude.{◌⊎◌, IfOk, OnOk};
ghost use Rattle.ipl_model.specs.declared.command.Command.TheVariants as command;
ghost use Rattle.store_laws.specs.Keeps.{KnownPages};
ghost use Rattle.script_store.specs.Keeps.{IsRunning, DoesCommand};
ghost use Rattle.script_store.specs.Done.{IsRefusal, UnitHasMoved, HasNewStatus};

use crate::ScriptStore;
use crate::replies::reply_of;
use chip_trait::Chip;
use ipl_model::{PutBytes, Reply, Sessions};
use store_trait::Fault;

impl ScriptStore {
    /// Opens a session.
    pub(crate) fn begin<C: Chip>(&mut self, chip: &mut C, s: u32) -> Result<Reply, Fault>
        requires runs { IsRunning (C.told chip.old).places self.old }
        ensures { (known : KnownPages) → DoesCommand known (command.Begin s) self.old (C.told chip.old) result self.new (C.told chip.new) }
    {
        reply_of(self.store.begin(chip, s))
    }

    /// Puts a value at a name, for a session.
    pub(crate) fn put<C: Chip>(
        &mut self,
        chip: &mut C,
        s: u32,
        n: u32,
        bytes: &PutBytes,
    ) -> Result<Reply, Fault>
        requires runs { IsRunning (C.told chip.old).places self.old }
        ensures { (known : KnownPages) → DoesCommand known (command.Put s n bytes.now) self.old (C.told chip.old) result self.new
            (C.told chip.new) }
    {
        reply_of(self.store.put(chip, s, n, bytes.bytes()))
    }

    /// Deletes a name's record, for a session.
    pub(crate) fn del<C: Chip>(&mut self, chip: &mut C, s: u32, n: u32) -> Result<Reply, Fault>
        requires runs { IsRunning (C.told chip.old).places self.old }
        ensures { (known : KnownPages) → DoesCommand known (command.Del s n) self.old (C.told chip.old) result self.new (C.told chip.new) }
    {
        reply_of(self.store.del(chip, s, n))
    }

    /// Commits a session.
    pub(crate) fn commit<C: Chip>(&mut self, chip: &mut C, s: u32) -> Result<Reply, Fault>
        requires runs { IsRunning (C.told chip.old).places self.old }
        ensures { (known : KnownPages) → DoesCommand known (command.Commit s) self.old (C.told chip.old) result self.new
            (C.told chip.new) }
    {
        reply_of(self.store.commit(chip, s))
    }

    /// Commits several sessions together.
    pub(crate) fn commit_all<C: Chip>(
        &mut self,
        chip: &mut C,
        sessions: &Sessions,
    ) -> Result<Reply, Fault>
        requires runs { IsRunning (C.told chip.old).places self.old }
        ensures { (known : KnownPages) → DoesCommand known (command.Batch sessions.now) self.old (C.told chip.old) result self.new
            (C.told chip.new) }
    {
        reply_of(self.store.commit_all(chip, sessions.numbers()))
    }

    /// Aborts a session.
    pub(crate) fn abort<C: Chip>(&mut self, chip: &mut C, s: u32) -> Result<Reply, Fault>
        requires runs { IsRunning (C.told chip.old).places self.old }
        ensures { (known : KnownPages) → DoesCommand known (command.Abort s) self.old (C.told chip.old) result self.new (C.told chip.new) }
    {
        reply_of(self.store.abort(chip, s))
    }

    /// Merges a unit.
    pub(crate) fn merge<C: Chip>(&mut self, chip: &mut C, unit: u32) -> Result<Reply, Fault>
        requires runs { IsRunning (C.told chip.old).places self.old }
        ensures does { (known : KnownPages) → DoesCommand known (command.Merge unit) self.old (C.told chip.old) result self.new
            (C.told chip.new) }
        // Done, the place where the unit stands was erased.
        ensures done { IfOk result (λ reply. IsRefusal reply
            ⊎ UnitHasMoved unit self.new (C.told chip.old) (C.told chip.new)) }
    {
        reply_of(self.store.merge(chip, unit))
    }

    /// Opens the chip again, whatever the memory has: all sessions are dropped.
    pub(crate) fn restart<C: Chip>(&mut self, chip: &mut C) -> Result<Reply, Fault>
        requires runs { IsRunning (C.told chip.old).places self.old }
        ensures does { (known : KnownPages) → DoesCommand known command.Restart self.old (C.told chip.old) result self.new
            (C.told chip.new) }
        // Done, the place that the status has was erased.
        ensures done { OnOk result (HasNewStatus self.new (C.told chip.old) (C.told chip.new)) }
    {
        match self.store.open_chip(chip, false) {
            Ok(()) => Ok(Reply::Ok),
            Err(fault) => Err(Fault::Image(fault)),
        }
    }
}
