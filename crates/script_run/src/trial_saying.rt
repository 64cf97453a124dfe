//! The lines of a summary, said.
ghost use Rattle.std.specs.Prelude.{◌≡◌, ◌<◌, ◌≤◌, ℕ, List, length, All, IfErr, OnErr};
ghost use Rattle.chip_trait.specs.Told.{Told, Rose};
ghost use Rattle.script_run.specs.declared.fault.Stop.TheVariants.{Output};
ghost use Rattle.store_trait.specs.Onward.{Onward};
ghost use Rattle.script_run.specs.TrialSummary.{HasByte};
ghost use Rattle.script_run.specs.Trial.{SaysAll};

use crate::fault::Stop;
use chip_trait::Desk;
use script_text::TextLine;

/// Says lines, none of them empty, one after another.
pub(crate) fn say_lines<D: Desk>(desk: &mut D, lines: &[TextLine]) -> Result<(), Stop>
    requires { All HasByte lines.now }
    ensures says { SaysAll lines.now (D.told desk.old) result (D.told desk.new) }
    ensures onward { Onward (D.told desk.old) (D.told desk.new) }
    ensures stop { IfErr result (λ stop. stop ≡ Output) }
    ensures cause { OnErr result
        (Rose (D.told desk.old).beside.say_faults (D.told desk.new).beside.say_faults) }
{
    for line in lines {
        match desk.say(line.bytes()) {
            Ok(()) => {}
            Err(_) => return Err(Stop::Output),
        }
    }
    Ok(())
}
