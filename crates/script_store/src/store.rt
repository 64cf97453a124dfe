//! The store that a run of a script works with.
ghost use Rattle.std.specs.Prelude.{◌≡◌, ◌≤◌, ℕ, false, IfOk};
ghost use Rattle.chip_trait.specs.Told.{History, Told};
ghost use Rattle.ipl_model.specs.State.{State, Limits};
ghost use Rattle.store_trait.specs.Keeping.{IsSingle, Works, LooksUp, WorksAlong, DoneRecalls, is_restart, WORK_DRAWS, LOOK_UP_DRAWS};
ghost use Rattle.store_laws.specs.Keeps.{KnownPages, all_pages};
ghost use Rattle.script_store.specs.Keeps.{IsRunning, KeepsScript, DoesCommand, script_keeping};
ghost use Rattle.script_store.specs.Done.{HasDone, HasFound};

use chip_trait::Chip;
use ipl_base::{MOST_UNITS, UNIT_NAMES, Value};
use ipl_model::{Command, Reply};
use ipl_store::Store;
use store_trait::Fault;

/// A store of records, whose calls are the commands of a script.
#[derive(Drop)]
pub struct ScriptStore {
    pub(crate) store: Store,
}

impl ScriptStore {
    /// The store for a script, over a store of records.
    pub fn over(store: Store) -> ScriptStore
        ensures { result.store ≡ store }
    {
        ScriptStore { store }
    }

    /// How many units its chip has, as the last opening that succeeded found it.
    pub fn unit_count(&self) -> u32
        ensures { result ≡ self.now.store.units }
    {
        self.store.unit_count()
    }

    /// Names are numbers below this: those of all units of its chip.
    pub(crate) fn limit(&self) -> u32
        ensures most { result ≤ 983040 }
        ensures limit { (places : ℕ) (known : KnownPages) (limits : Limits) (t : Told) (h : History) (state : State)
            → KeepsScript places known limits self.now t h state → result ≡ limits.names }
    {
        let units = self.store.unit_count();
        if units > MOST_UNITS {
            return 0;
        }
        UNIT_NAMES * units
    }

    /// Does the work of a command that has one line as its reply, and answers that line.
    fn answer<C: Chip>(&mut self, chip: &mut C, command: &Command) -> Result<Reply, Fault>
        requires single { IsSingle command.now }
        requires runs { IsRunning (C.told chip.old).places self.old }
        ensures does { (known : KnownPages) → DoesCommand known command.now self.old (C.told chip.old) result self.new
            (C.told chip.new) }
        ensures done { IfOk result (λ reply. HasDone command.now self.old (C.told chip.old) reply
            self.new (C.told chip.new)) }
    {
        match command {
            Command::Begin(s) => self.begin(chip, *s),
            Command::Get(s, n) => self.get(chip, *s, *n),
            Command::Share(s, n) => self.share(chip, *s, *n),
            Command::Put(s, n, bytes) => self.put(chip, *s, *n, bytes),
            Command::Del(s, n) => self.del(chip, *s, *n),
            Command::Commit(s) => self.commit(chip, *s),
            Command::Batch(sessions) => self.commit_all(chip, sessions),
            Command::Abort(s) => self.abort(chip, *s),
            Command::List(_, _) => unreachable!("a list has more lines than one"),
            Command::Merge(unit) => self.merge(chip, *unit),
            Command::Restart => self.restart(chip),
            Command::Syntax => Ok(Reply::Syntax),
        }
    }
}

impl store_trait::Store for ScriptStore {
    ghost Known = { KnownPages };

    ghost all = { all_pages };

    ghost keeping = { script_keeping };

    fn names(&self) -> u32 {
        self.limit()
    }

    fn work<C: Chip>(&mut self, chip: &mut C, command: &Command) -> Result<Reply, Fault>
        requires single { IsSingle command.now }
        requires suits { IsRunning (C.told chip.old).places self.old }
        ensures along { (known : KnownPages) → WorksAlong (script_keeping (C.told chip.old).places known) WORK_DRAWS self.old (C.told chip.old)
            result self.new (C.told chip.new) }
        ensures works { (known : KnownPages) → Works (script_keeping (C.told chip.old).places known) command.now self.old
            (C.told chip.old) result self.new (C.told chip.new) }
        ensures recalls { is_restart command.now ≡ false
            → (known : KnownPages) → DoneRecalls (script_keeping (C.told chip.old).places known) self.old (C.told chip.old)
            result self.new (C.told chip.new) }
        // And what it has done by itself, also where not all pages of the chip read well.
        ensures done { IfOk result (λ reply. HasDone command.now self.old (C.told chip.old) reply
            self.new (C.told chip.new)) }
    {
        self.answer(chip, command)
    }

    fn look_up<C: Chip>(&mut self, chip: &mut C, n: u32) -> Result<Option<Value>, Fault>
        requires { IsRunning (C.told chip.old).places self.old }
        ensures along { (known : KnownPages) → WorksAlong (script_keeping (C.told chip.old).places known) LOOK_UP_DRAWS self.old (C.told chip.old)
            result self.new (C.told chip.new) }
        ensures looks_up { (known : KnownPages) → LooksUp (script_keeping (C.told chip.old).places known) n self.old
            (C.told chip.old) result self.new (C.told chip.new) }
        ensures recalls { (known : KnownPages) → DoneRecalls (script_keeping (C.told chip.old).places known) self.old (C.told chip.old)
            result self.new (C.told chip.new) }
        // What the name's own page shows, also where others don't read well.
        ensures done { IfOk result (λ found. HasFound n self.old (C.told chip.old) found) }
    {
        self.look(chip, n)
    }
}
