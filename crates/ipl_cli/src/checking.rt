//! A chip is checked, and it is said how many records it holds.
ghost use Rattle.std.specs.Prelude.{◌≡◌, OnOk, OnErr, IfErr, Some};
ghost use Rattle.chip_trait.specs.Told.{FailsToSay, Rose, SayCounts};
ghost use Rattle.store_trait.specs.Onward.{Further};
ghost use Rattle.command_line.specs.declared.asked.Request.TheVariants.{Check};
ghost use Rattle.command_line.specs.declared.end.End.TheVariants.{Output};
ghost use Rattle.ipl_cli.specs.Adds.{AddsLawful};
ghost use Rattle.ipl_cli.specs.Checks.{CheckLeaves, IsSaid, records_line};
ghost use Rattle.ipl_cli.specs.Top.{EndCause};

use chip_trait::Desk;
use command_line::End;
use image_check::{CheckFault, check};
use script_text::TextLine;
use std::alloc::Global;

/// Says how many records there are.
fn say_records<D: Desk>(records: u32, desk: &mut D) -> Result<(), End>
    ensures said { OnOk result (IsSaid (records_line records) (D.told desk.old) (D.told desk.new)) }
    ensures unsaid { OnErr result (FailsToSay (records_line records)
        (D.told desk.old) (D.told desk.new)) }
    ensures end { IfErr result (λ end. end ≡ Output) }
    ensures cause { OnErr result (Rose (D.told desk.old).beside.say_faults
        (D.told desk.new).beside.say_faults) }
    ensures counts { SayCounts (D.told desk.old) (D.told desk.new) }
{
    let mut line = TextLine::empty();
    line.push(b"records ");
    line.push_number(records);
    line.push(b"\n");
    match desk.say(line.bytes()) {
        Ok(()) => Ok(()),
        Err(_) => Err(End::Output),
    }
}

/// Checks the chip, and says how many records it holds.
pub(crate) fn check_chip<D: Desk>(alloc: Global, desk: &mut D) -> Result<(), End>
    ensures leaves { CheckLeaves result (D.told desk.old) (D.told desk.new) }
    ensures cause { EndCause (Some Check) result (D.told desk.old) (D.told desk.new) }
    ensures further { Further (D.told desk.old) (D.told desk.new) }
    ensures lawful { AddsLawful (D.told desk.old) (D.told desk.new) }
{
    match check(alloc, desk) {
        Ok(records) => say_records(records, desk),
        Err(CheckFault::Image(fault)) => Err(End::Chip(fault)),
        Err(CheckFault::OutOfMemory) => Err(End::OutOfMemory),
    }
}
