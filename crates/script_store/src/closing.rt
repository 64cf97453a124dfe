//! A clean close behind a script.
ghost use Rattle.record_locks.specs.Locks.{refuses_close};
ghost use Rattle.std.specs.Prelude.{◌≡◌, None};
ghost use Rattle.store_laws.specs.Keeps.{KnownPages};
ghost use Rattle.script_store.specs.Keeps.{IsRunning};
ghost use Rattle.script_store.specs.Closes.{Aborts, ClosesAtEnd};

use crate::ScriptStore;
use crate::replies::closed;
use chip_trait::Chip;
use store_trait::Fault;

impl ScriptStore {
    /// Aborts each session that is open. The chip isn't asked.
    fn abort_all<C: Chip>(&mut self, chip: &mut C)
        requires runs { IsRunning (C.told chip.old).places self.old }
        ensures idle { C.told chip.new ≡ C.told chip.old }
        ensures aborts { (known : KnownPages) → Aborts known self.old (C.told chip.old) self.new }
        ensures none { refuses_close self.new.store.transactions.sessions ≡ None }
    {
        for s in 0..self.store.session_count() {
            // Of a session that isn't open this is refused, and changes nothing.
            let _ = self.store.abort(chip, s);
        }
    }

    /// Closes the store in order: sessions that are open are aborted, and what is known of the chip's log sectors is
    /// written down for the next opening. Nothing is done by the store from then on.
    pub fn close<C: Chip>(&mut self, chip: &mut C) -> Result<(), Fault>
        requires runs { IsRunning (C.told chip.old).places self.old }
        ensures { (known : KnownPages) → ClosesAtEnd known self.old (C.told chip.old) result self.new (C.told chip.new) }
    {
        self.abort_all(chip);
        let done = self.store.close(chip);
        // Its sessions are gone: it must not go on without them where the close failed.
        self.store.shut();
        closed(done)
    }
}
