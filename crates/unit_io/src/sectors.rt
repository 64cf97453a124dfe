//! One sector of a place, programmed.
ghost use Rattle.std.specs.Prelude.{◌≡◌, ◌<◌, ℕ, List, Some, OnOk, is_ok};
ghost use Rattle.ipl_base.specs.declared.limits.TheConstants.{VERSION};
ghost use Rattle.chip_trait.specs.Told.{Told, History};
ghost use Rattle.ipl_meaning.specs.Legible.{Legible};
ghost use Rattle.ipl_format.specs.Sector.{Sector, sector_in};
ghost use Rattle.ipl_format.specs.Record.{Record};
ghost use Rattle.sector_format.specs.Decode.{sector_of};
ghost use Rattle.ipl_meaning.specs.Layout.{Layout, Laid};
ghost use Rattle.ipl_meaning.specs.Rests.{now, IsUntouched, StoryRests};
ghost use Rattle.ipl_meaning.specs.Steps.{MayLog};
ghost use Rattle.unit_io.specs.Accounts.{Accounts};
ghost use Rattle.unit_io.specs.Leads.{IsSteady, KeepsMap, IsStopped};
ghost use Rattle.unit_io.specs.Unread.{ReadsNothing};
ghost use Rattle.unit_io.specs.Spots.{IsOnChip, Programs, IsSpot};
ghost use Rattle.unit_io.specs.Costs.{ProgramsAt, Spends};
ghost use Rattle.unit_io.specs.Charts.{Charts, Spares, Gains};
ghost use Rattle.unit_io.specs.Plain.{AddsPlain, IsPlain};
ghost use Rattle.unit_io.specs.Writing.{LeadsAside, OnlyPrograms};

use crate::calls::program;
use chip_trait::Chip;
use ipl_base::{ChipFault, Spot};
use log_records::Payload;
use sector_format::{Head, encode};

/// Programs a sector of a place that has no header: whatever a power cut leaves of it counts for nothing.
pub(crate) fn program_aside<C: Chip>(
    chip: &mut C,
    spot: Spot,
    bytes: &[u8; 512],
) -> Result<(), ChipFault>
    requires spot { IsOnChip (C.told chip.old) spot.place spot.sector }
    ensures aside { (said : Sector) → sector_in bytes.now ≡ Some said
        → LeadsAside (C.told chip.old).places spot.place spot.sector said (C.told chip.old) result (C.told chip.new) }
    ensures tells { (said : Sector) → sector_in bytes.now ≡ Some said → OnOk result (Charts (Gains spot.place spot.sector said) (C.told chip.old) (C.told chip.new)) }
    ensures plain { IsPlain bytes.now → AddsPlain (C.told chip.old) (C.told chip.new) }
    ensures spares { OnOk result (Spares spot.place (C.told chip.old) (C.told chip.new)) }
    ensures costs { (said : Sector) → sector_in bytes.now ≡ Some said
        → Spends (ProgramsAt spot.place 1 0 said.kind) (C.told chip.old) (C.told chip.new) }
    ensures tidy { Spends (Programs spot.place (IsSpot spot.sector) (is_ok result)) (C.told chip.old) (C.told chip.new) }
    ensures unread { Spends ReadsNothing (C.told chip.old) (C.told chip.new) }
    ensures accounts { Accounts IsStopped result (C.told chip.old) (C.told chip.new) }
{
    program(chip, spot, bytes)
}

/// Programs a log sector (1 to 255 of its place) whose head is of that kind, and of the version that
/// is written, in which the payload has to be spelled where it is to count.
///
/// Where it may join its unit's live sectors, or its place has no header, whatever a power cut leaves stands for the map on
/// which the story rested, and done, it rests on that map. Nothing makes sure of the sector: that is for the next barrier.
pub fn program_log<C: Chip>(
    chip: &mut C,
    spot: Spot,
    head: &Head,
    payload: &Payload,
) -> Result<(), ChipFault>
    requires spot { IsOnChip (C.told chip.old) spot.place spot.sector }
    requires kind { head.now.kind ≡ 5 }
    requires version { head.now.version ≡ VERSION }
    ensures keeps { (m : Legible) (it : Layout) (h : History) (u : ℕ) (records : List Record) → IsSteady h (C.told chip.old)
        → StoryRests (C.told chip.old).places m h → Laid (C.told chip.old).places (now h) it
        → MayLog (C.told chip.old).places (now h) it u spot.place spot.sector (sector_of head.now payload.now.bytes) records
        → IsUntouched h spot.place spot.sector
        → KeepsMap (C.told chip.old).places m (Programs spot.place (IsSpot spot.sector))
        (λ done. Gains spot.place spot.sector (sector_of head.now payload.now.bytes)) h (C.told chip.old) result (C.told chip.new) }
    ensures aside { LeadsAside (C.told chip.old).places spot.place spot.sector
        (sector_of head.now payload.now.bytes) (C.told chip.old) result (C.told chip.new) }
    ensures tells { OnOk result (Charts (Gains spot.place spot.sector (sector_of head.now payload.now.bytes)) (C.told chip.old) (C.told chip.new)) }
    ensures spares { OnOk result (Spares spot.place (C.told chip.old) (C.told chip.new)) }
    ensures writes { OnlyPrograms (ProgramsAt spot.place 1 0 5) spot.place (IsSpot spot.sector) result
        (C.told chip.old) (C.told chip.new) }
{
    let mut bytes = [0; 512];
    encode(head, payload.bytes(), &mut bytes);
    program(chip, spot, &bytes)
}
