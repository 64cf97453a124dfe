//! The work of the commands of a trial.
ghost use Rattle.std.specs.Prelude.{◌≡◌, ◌<◌, ◌+◌, ◌*◌, ◌∷◌, [], ℕ, IfErr, OnOk};
ghost use Rattle.store_trait.specs.Onward.{Onward};
ghost use Rattle.store_trait.specs.Keeping.{WORK_DRAWS};
ghost use Rattle.script_run.specs.Goes.{FitsDesk, Along, CompletesOver};
ghost use Rattle.script_run.specs.TrialWords.{IsOfTrial, commands_from};
ghost use Rattle.script_run.specs.Trial.{DoesAll, IsStoreStop};

use crate::fault::Stop;
use crate::trial_commands::TrialCommands;
use crate::trial_tally::Tally;
use chip_trait::Desk;
use ipl_model::Command;
use store_trait::Store;

/// Does the work of one command, and counts it with its reply.
fn do_one<S: Store, D: Desk>(
    store: &mut S,
    desk: &mut D,
    tally: &mut Tally,
    command: &Command,
) -> Result<(), Stop>
    ghost places: { ℕ }
    requires kind { IsOfTrial command.now }
    requires room { tally.old.commands < 4294967295 }
    requires suits { FitsDesk (S.keeping places S.all) places store.old (D.told desk.old) }
    ensures does { DoesAll (S.keeping places S.all) (command.now ∷ []) tally.old store.old (D.told desk.old) result
        tally.new store.new (D.told desk.new) }
    ensures along { Along (S.keeping places S.all) Onward WORK_DRAWS store.old (D.told desk.old) result store.new
        (D.told desk.new) }
    ensures completes { (known : S.Known) → CompletesOver (S.keeping places known) WORK_DRAWS store.old (D.told desk.old) result store.new
        (D.told desk.new) }
    ensures stops { IfErr result IsStoreStop }
    ensures more { OnOk result (tally.new.commands ≡ tally.old.commands + 1) }
{
    let reply = store.work(desk, command)?;
    tally.note(command, &reply);
    Ok(())
}

/// Does the work of the next commands of a trial, so many, and counts them with their replies.
pub fn do_all<S: Store, D: Desk>(
    store: &mut S,
    desk: &mut D,
    commands: &mut TrialCommands,
    tally: &mut Tally,
    count: u32,
) -> Result<(), Stop>
    ghost places: { ℕ }
    requires none { tally.old.commands ≡ 0 }
    requires suits { FitsDesk (S.keeping places S.all) places store.old (D.told desk.old) }
    ensures does { DoesAll (S.keeping places S.all) (commands_from commands.old count) tally.old store.old
        (D.told desk.old) result tally.new store.new (D.told desk.new) }
    ensures along { Along (S.keeping places S.all) Onward (WORK_DRAWS * count) store.old (D.told desk.old) result
        store.new (D.told desk.new) }
    ensures completes { (known : S.Known) → CompletesOver (S.keeping places known) (WORK_DRAWS * count) store.old (D.told desk.old) result
        store.new (D.told desk.new) }
    ensures stops { IfErr result IsStoreStop }
{
    for i in 0..count {
        let command = commands.next();
        do_one(store, desk, tally, &command)?;
    }
    Ok(())
}
