//! A whole trial.
ghost use Rattle.std.specs.Prelude.{ℕ, ◌≤◌, IfErr};
ghost use Rattle.ipl_base.specs.declared.limits.TheConstants.{MOST_UNITS};
ghost use Rattle.store_trait.specs.Onward.{Onward};
ghost use Rattle.store_trait.specs.Keeping.{SCRIPT_DRAWS};
ghost use Rattle.script_run.specs.Goes.{FitsDesk, Along, CompletesOver};
ghost use Rattle.script_run.specs.TrialWords.{trial_commands};
ghost use Rattle.script_run.specs.Trial.{RunsTrial, IsTrialStop};

use crate::fault::Stop;
use crate::trial_commands::TrialCommands;
use crate::trial_records::Records;
use crate::trial_saying::say_lines;
use crate::trial_summary::summary_lines;
use crate::trial_taking::take_all;
use crate::trial_tally::Tally;
use crate::trial_work::do_all;
use chip_trait::Desk;
use store_trait::Store;

/// Does the commands of a seed, so many, looks the records up, and says the summary, to its end or to
/// the first fault. The names of the commands are made for `units` units, at most 1,024. Whatever moment
/// the power is cut at, the chip stands for the records after the first of the commands, and after all
/// of them from the first line on.
pub fn run_trial<S: Store, D: Desk>(
    store: &mut S,
    desk: &mut D,
    units: u32,
    seed: u32,
    count: u32,
) -> Result<(), Stop>
    ghost places: { ℕ }
    requires units { units ≤ MOST_UNITS }
    requires suits { FitsDesk (S.keeping places S.all) places store.old (D.told desk.old) }
    ensures run { RunsTrial (S.keeping places S.all) (trial_commands units seed count) store.old (D.told desk.old)
        result store.new (D.told desk.new) }
    // It draws no more numbers than a script may.
    ensures along { Along (S.keeping places S.all) Onward SCRIPT_DRAWS store.old (D.told desk.old) result store.new
        (D.told desk.new) }
    ensures completes { (known : S.Known) → CompletesOver (S.keeping places known) SCRIPT_DRAWS store.old (D.told desk.old) result
        store.new (D.told desk.new) }
    ensures stops { IfErr result IsTrialStop }
{
    let mut commands = TrialCommands::of(units, seed);
    let mut tally = Tally::new();
    do_all(store, desk, &mut commands, &mut tally, count)?;
    let mut records = Records::new();
    take_all(store, desk, &mut records)?;
    say_lines(desk, &summary_lines(&tally, &records))
}
