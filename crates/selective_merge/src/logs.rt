//! The log sectors of a merge.
ghost use Rattle.std.specs.Prelude.{◌≡◌, ◌<◌, ◌≤◌, ◌+◌, ◌^◌, [], length, is_ok, OnOk};
ghost use Rattle.ipl_base.specs.declared.limits.TheConstants.{CARRIED_SECTORS};
ghost use Rattle.unit_io.specs.Accounts.{Accounts};
ghost use Rattle.unit_io.specs.Charts.{Charts, Spares, Gains};
ghost use Rattle.unit_io.specs.Costs.{ProgramsAt, Spends};
ghost use Rattle.unit_io.specs.Leads.{IsStopped};
ghost use Rattle.unit_io.specs.Unread.{ReadsNothing};
ghost use Rattle.unit_io.specs.Spots.{Programs, IsSpot};
ghost use Rattle.selective_merge.specs.Packs.{log_sector, IsLogSpotBelow, HasLogs};
ghost use Rattle.selective_merge.specs.Writing.{DrawsSerials, WritesToBare, WritesLogs, WritesPlace};

use chip_trait::Chip;
use ipl_base::{ChipFault, Counter, Spot};
use log_records::Payload;
use sector_format::Head;
use unit_io::program_log;
use unit_layout::log_sector;

/// Programs the i-th log sector (i from 0 to 14) of a place without a header, under the next serial.
fn write_log<C: Chip>(
    chip: &mut C,
    place: u32,
    head: &Head,
    i: u32,
    payload: &Payload,
    counter: &mut Counter,
) -> Result<(), ChipFault>
    requires place { place < (C.told chip.old).places }
    requires i { i < 15 }
    requires left { counter.old + 1 < 2 ^ 64 }
    ensures writes { WritesToBare (C.told chip.old).places place (241 + i)
        (log_sector head.now.unit head.now.generation counter.old payload.now.bytes)
        (C.told chip.old) result (C.told chip.new) }
    ensures tells { OnOk result (Charts (Gains place (241 + i)
        (log_sector head.now.unit head.now.generation counter.old payload.now.bytes))
        (C.told chip.old) (C.told chip.new)) }
    ensures spares { OnOk result (Spares place (C.told chip.old) (C.told chip.new)) }
    ensures drawn { counter.new ≡ counter.old + 1 }
    ensures costs { Spends (ProgramsAt place 1 0 5) (C.told chip.old) (C.told chip.new) }
    ensures tidy { Spends (Programs place (IsSpot (241 + i)) (is_ok result))
        (C.told chip.old) (C.told chip.new) }
    ensures unread { Spends ReadsNothing (C.told chip.old) (C.told chip.new) }
    ensures accounts { Accounts IsStopped result (C.told chip.old) (C.told chip.new) }
{
    let log = Head::written(Head::LOG, head.unit, head.generation, counter.draw());
    let sector = log_sector(i);
    program_log(chip, Spot { place, sector }, &log, payload)
}

/// Programs log sectors with these payloads, at most 12, from the first one of a place without a
/// header on, under serials that are drawn for them.
pub(crate) fn write_logs<C: Chip>(
    chip: &mut C,
    place: u32,
    head: &Head,
    payloads: &[Payload],
    counter: &mut Counter,
) -> Result<(), ChipFault>
    requires place { place < (C.told chip.old).places }
    requires few { length payloads.now ≤ CARRIED_SECTORS }
    requires left { counter.old + CARRIED_SECTORS < 2 ^ 64 }
    ensures writes { WritesLogs (C.told chip.old).places place head.now.unit head.now.generation
        counter.old payloads.now (C.told chip.old) result (C.told chip.new) }
    ensures tells { OnOk result (Charts
        (HasLogs place head.now.unit head.now.generation counter.old payloads.now
        (length payloads.now)) (C.told chip.old) (C.told chip.new)) }
    ensures serials { DrawsSerials (length payloads.now) result counter.old counter.new }
    ensures spends { WritesPlace place (ProgramsAt place (length payloads.now) 0 5)
        (IsLogSpotBelow (length payloads.now)) [] IsStopped result (C.told chip.old) (C.told chip.new) }
{
    for i in 0..payloads.len() {
        write_log(chip, place, head, i as u32, &payloads[i], counter)?;
    }
    Ok(())
}
