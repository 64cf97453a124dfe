//! The serial view of a list of commands.
ghost use Rattle.std.specs.Prelude.{◌≡◌, ◌≤◌, IfOk, OnOk};
ghost use Rattle.ipl_base.specs.declared.limits.TheConstants.{SESSIONS};
ghost use Rattle.ipl_model.specs.State.{at_rest};
ghost use Rattle.ipl_model.specs.Plain.{state_of, limits_for, limits_of};
ghost use Rattle.serial_view.specs.Turns.{kept_of};
ghost use Rattle.serial_view.specs.Running.{run_of, limits_with, RunsTracked};
ghost use Rattle.serial_view.specs.Laws.{IsSerialView};

use crate::running::Running;
use crate::turn_table::TurnTable;
use ipl_base::{Geometry, OutOfMemory};
use ipl_model::{Command, PlainModel};
use std::alloc::Global;

/// Runs one command, and keeps whose turn it was.
fn run_command(
    running: &mut Running,
    table: &mut TurnTable,
    command: &Command,
) -> Result<(), OutOfMemory>
    ensures { OnOk result (RunsTracked (run_of running.old) (kept_of table.old) command.now
        (run_of running.new) (kept_of table.new)) }
{
    if running.take(command) {
        table.take(command)?;
    } else {
        table.skip()?;
    }
    Ok(())
}

/// The positions of the commands of committed transactions that weren't refused, one transaction after
/// the other in the order of their commits, those of a batch in the order in which it names their
/// sessions, and then the batch. The commands are run from the records of `start`, a model of this
/// geometry that has no open session. Run by themselves from these records, the commands of the view
/// leave the records that the whole run leaves; and where none of them gets a name that its
/// transaction hadn't then written or shared, each has the reply that it has in the whole run. The
/// sessions are those below `sessions`, 32 at most, and there are 960 names for each unit of the geometry.
pub fn serial_order(
    alloc: Global,
    geometry: Geometry,
    sessions: u32,
    start: &PlainModel,
    commands: &[Command],
) -> Result<Vec<usize>, OutOfMemory>
    requires sessions { sessions ≤ SESSIONS }
    requires limits { limits_of start.now ≡ limits_for geometry.units }
    requires at_rest { state_of start.now ≡ at_rest (state_of start.now).map }
    ensures { IfOk result (λ order.
        IsSerialView (limits_with sessions geometry.units) (state_of start.now).map commands.now order.items) }
{
    let mut running = Running::new(alloc, geometry, sessions, start)?;
    let mut table = TurnTable::new(alloc);
    for command in commands {
        run_command(&mut running, &mut table, command)?;
    }
    Ok(table.into_order())
}
