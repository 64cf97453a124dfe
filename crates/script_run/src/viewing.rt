//! The serial view of a script, said line by line.
ghost use Rattle.std.specs.Prelude.{◌≡◌, ◌<◌, ◌≤◌, ℕ, List, length, map, Some, is_ok, IfOk, IfErr, OnErr, IsErrOf, MatchResult};
ghost use Rattle.std.specs.FinMap.{empty};
ghost use Rattle.chip_trait.specs.declared.event.Event.TheVariants.{Said};
ghost use Rattle.chip_trait.specs.Told.{Told, Appends, FailsToSay, SayCounts, Rose};
ghost use Rattle.ipl_base.specs.declared.limits.TheConstants.{SESSIONS};
ghost use Rattle.serial_view.specs.Running.{limits_with};
ghost use Rattle.serial_view.specs.Laws.{IsSerialView};
ghost use Rattle.script_run.specs.View.{ReadsScript, OnlySays, SaysOnly, SaysView, ViewCause, position_line};

use crate::ViewStop;
use crate::gathering::read_commands;
use chip_trait::{Desk, Failed};
use ipl_base::{Geometry, OutOfMemory};
use ipl_model::{Command, PlainModel};
use itoa::Buffer;
use script_text::TextLine;
use serial_view::serial_order;
use std::alloc::Global;

/// The serial view of commands that are run by so many sessions from the empty map.
fn order_from_nothing(
    alloc: Global,
    geometry: Geometry,
    sessions: u32,
    commands: &[Command],
) -> Result<Vec<usize>, OutOfMemory>
    requires { sessions ≤ SESSIONS }
    ensures { IfOk result (λ order.
        IsSerialView (limits_with sessions geometry.units) empty commands.now order.items) }
{
    let start = PlainModel::new(alloc, geometry)?;
    serial_order(alloc, geometry, sessions, &start, commands)
}

/// Says the line of a position.
fn say_position<D: Desk>(desk: &mut D, position: usize) -> Result<(), Failed>
    ensures says { MatchResult result
        (λ _. Appends (Said (position_line position)) (D.told desk.old) (D.told desk.new))
        (λ _. FailsToSay (position_line position) (D.told desk.old) (D.told desk.new)) }
    ensures counts { SayCounts (D.told desk.old) (D.told desk.new) }
    ensures cause { OnErr result
        (Rose (D.told desk.old).beside.say_faults (D.told desk.new).beside.say_faults) }
{
    let mut line = TextLine::empty();
    let mut digits = Buffer::new();
    line.push(digits.format(position).as_bytes());
    line.push(b"\n");
    desk.say(line.bytes())
}

/// Says the lines of positions.
fn say_positions<D: Desk>(desk: &mut D, positions: &[usize]) -> Result<(), ViewStop>
    ensures says { SaysOnly (map position_line positions.now) (D.told desk.old) (D.told desk.new)
        (is_ok result) }
    ensures left { (D.told desk.new).beside.left ≡ (D.told desk.old).beside.left }
    ensures stop { IfErr result (λ stop. stop ≡ ViewStop.Output) }
    ensures cause { OnErr result
        (Rose (D.told desk.old).beside.say_faults (D.told desk.new).beside.say_faults) }
{
    for position in positions {
        match say_position(desk, *position) {
            Ok(()) => {}
            Err(_) => return Err(ViewStop::Output),
        }
    }
    Ok(())
}

/// Reads the script to its end, and says a line for each position of its serial view from the empty
/// map: its decimal digits and a line feed. No sector is touched. Where it stops before, a part of the lines was said;
/// where memory is wanting, nothing.
pub fn say_serial_view<D: Desk>(
    alloc: Global,
    geometry: Geometry,
    sessions: u32,
    desk: &mut D,
) -> Result<(), ViewStop>
    requires { sessions ≤ SESSIONS }
    // What is said, of a script that is told: at Ok all lines, and of the script nothing is left.
    ensures view { (script : List ℕ) → (D.told desk.old).beside.left ≡ Some script
        → SaysView (limits_with sessions geometry.units) script (D.told desk.old) result (D.told desk.new) }
    // Over every desk nothing else happens; where memory is wanting nothing is said.
    ensures only { OnlySays (D.told desk.old) (D.told desk.new) }
    ensures early { IsErrOf result ViewStop.OutOfMemory
        → ReadsScript (D.told desk.old) (D.told desk.new) }
    // Each stop has its cause.
    ensures cause { IfErr result (λ stop. ViewCause (D.told desk.old) (D.told desk.new) stop) }
{
    let commands = read_commands(alloc, desk)?;
    let Ok(order) = order_from_nothing(alloc, geometry, sessions, &commands) else {
        return Err(ViewStop::OutOfMemory);
    };
    say_positions(desk, &order)
}
