//! What keeps records on a chip and does the work of commands.
ghost use Rattle.std.specs.Prelude.{◌≡◌, ◌≤◌, ℕ, false};
ghost use Rattle.chip_trait.specs.Told.{History, Told};

use crate::Fault;
use chip_trait::Chip;
use ipl_base::Value;
use ipl_model::{Command, Reply};

/// A store of records over a chip. It says nothing; a run says its replies.
pub trait Store {
    ghost use Rattle.ipl_model.specs.State.{State, Limits};
    ghost use Rattle.store_trait.specs.Keeping.{Keeping, IsSingle, Works, LooksUp, WorksAlong, DoneRecalls, is_restart, WORK_DRAWS, LOOK_UP_DRAWS};

    /// What may be known of a chip's records, such as which of its pages read well.
    ghost Known: { Type 0 };

    /// It, where nothing is wrong with the chip.
    ghost all: { Known };

    /// How it keeps a state on a chip of so many places, of which this is known.
    ghost keeping: { ℕ → Known → Keeping Self };

    /// Names are numbers below this.
    fn names(&self) -> u32
        ensures most { result ≤ 983040 }
        ensures limit { (places : ℕ) (known : Known) (limits : Limits) (t : Told) (h : History) (state : State)
            → (keeping places known).holds limits self.now t h state → result ≡ limits.names };

    /// Does the work of a command that has one line as its reply, and answers that line.
    fn work<C: Chip>(&mut self, chip: &mut C, command: &Command) -> Result<Reply, Fault>
        requires single { IsSingle command.now }
        requires suits { (keeping (C.told chip.old).places all).suits self.old }
        ensures along { (known : Known) → WorksAlong (keeping (C.told chip.old).places known) WORK_DRAWS self.old (C.told chip.old) result self.new
            (C.told chip.new) }
        ensures works { (known : Known) → Works (keeping (C.told chip.old).places known) command.now self.old (C.told chip.old) result self.new
            (C.told chip.new) }
        ensures recalls { is_restart command.now ≡ false
            → (known : Known) → DoneRecalls (keeping (C.told chip.old).places known) self.old (C.told chip.old) result self.new
            (C.told chip.new) };

    /// The committed record of a name, where there is one.
    fn look_up<C: Chip>(&mut self, chip: &mut C, n: u32) -> Result<Option<Value>, Fault>
        requires { (keeping (C.told chip.old).places all).suits self.old }
        ensures along { (known : Known) → WorksAlong (keeping (C.told chip.old).places known) LOOK_UP_DRAWS self.old (C.told chip.old) result self.new
            (C.told chip.new) }
        ensures looks_up { (known : Known) → LooksUp (keeping (C.told chip.old).places known) n self.old (C.told chip.old) result self.new
            (C.told chip.new) }
        ensures recalls { (known : Known) → DoneRecalls (keeping (C.told chip.old).places known) self.old (C.told chip.old) result self.new
            (C.told chip.new) };
}
