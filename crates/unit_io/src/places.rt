//! A place taken, and sealed with a header.
ghost use Rattle.std.specs.Prelude.{◌≡◌, ◌<◌, ℕ, OnOk, IfOk, is_ok, Some};
ghost use Rattle.chip_trait.specs.Image.{IsClosed};
ghost use Rattle.chip_trait.specs.Lawful.{Clean, age};
ghost use Rattle.chip_trait.specs.Chart.{with_sector};
ghost use Rattle.chip_trait.specs.Told.{Told, History};
ghost use Rattle.ipl_meaning.specs.Legible.{Legible};
ghost use Rattle.ipl_format.specs.Sector.{Sector, IsKind, sector_in};
ghost use Rattle.sector_format.specs.Decode.{sector_of};
ghost use Rattle.ipl_meaning.specs.Stands.{StandsBeside};
ghost use Rattle.ipl_meaning.specs.Layout.{Layout, Laid};
ghost use Rattle.ipl_meaning.specs.Rests.{now, EachStands, WornAreIdle, StoryRests};
ghost use Rattle.ipl_meaning.specs.Steps.{IsIdle};
ghost use Rattle.ipl_meaning.specs.Marks.{MarksNoMore};
ghost use Rattle.unit_io.specs.Accounts.{Accounts};
ghost use Rattle.unit_io.specs.Leads.{IsSteady, Leads, RestsWith, SwitchesMap, IsStopped, is_done, Erases};
ghost use Rattle.unit_io.specs.Unread.{ReadsNothing};
ghost use Rattle.unit_io.specs.Spots.{Clears, Programs, IsSpot};
ghost use Rattle.unit_io.specs.Costs.{ErasesOnce, ProgramsAt, Spends};
ghost use Rattle.unit_io.specs.Charts.{Charts, Spares, Begun, Gains};
ghost use Rattle.unit_io.specs.Plain.{AddsPlain, IsPlain, IsPlainSector};
ghost use Rattle.unit_io.specs.Writing.{MayProgram, OnlyPrograms};

use crate::calls::{barrier, erase, program};
use chip_trait::{Chip, Wear};
use ipl_base::{ChipFault, Spot};
use sector_format::{Head, encode};

/// Erases a place at which nothing counts, and makes sure of it; or finds it worn.
///
/// Whatever a power cut leaves at any moment stands for the map on which the story rested, and done, it rests on that map,
/// also where the place is worn: nothing has changed then, and none of the place is clean.
pub fn begin_unit<C: Chip>(chip: &mut C, place: u32) -> Result<Wear, ChipFault>
    requires { place < (C.told chip.old).places }
    ensures erases { Erases place (C.told chip.old) result (C.told chip.new) }
    ensures keeps { (m : Legible) (it : Layout) (h : History) → IsSteady h (C.told chip.old) → StoryRests (C.told chip.old).places m h
        → Laid (C.told chip.old).places (now h) it → IsIdle (C.told chip.old).places (now h) it place
        → Leads (EachStands (C.told chip.old).places m) (λ ok. Clears place (is_done result))
        (RestsWith (C.told chip.old).places m (Begun place) h) h (C.told chip.old) result (C.told chip.new) }
    ensures tells { IfOk result (λ wear. Charts (Begun place wear) (C.told chip.old) (C.told chip.new)) }
    ensures plain { AddsPlain (C.told chip.old) (C.told chip.new) }
    ensures spares { OnOk result (Spares place (C.told chip.old) (C.told chip.new)) }
    ensures costs { Spends (ErasesOnce place 1 (is_done result)) (C.told chip.old) (C.told chip.new) }
    ensures tidy { Spends (Clears place (is_done result)) (C.told chip.old) (C.told chip.new) }
    ensures unread { Spends ReadsNothing (C.told chip.old) (C.told chip.new) }
    ensures accounts { Accounts IsStopped result (C.told chip.old) (C.told chip.new) }
{
    match erase(chip, place)? {
        Wear::Done => {
            // The erase has to last before the first program: else a sector could hold both.
            barrier(chip)?;
            Ok(Wear::Done)
        }
        Wear::Worn => Ok(Wear::Worn),
    }
}

/// Programs a header where nothing is open, and makes sure of it.
fn add_header<C: Chip>(chip: &mut C, place: u32, bytes: &[u8; 512]) -> Result<(), ChipFault>
    requires { place < (C.told chip.old).places }
    ensures leads { (m n : Legible) (h : History) (said : Sector) → sector_in bytes.now ≡ Some said → IsSteady h (C.told chip.old)
        → StoryRests (C.told chip.old).places m h → IsClosed h.story → age h.story place 0 ≡ Clean
        → StandsBeside (C.told chip.old).places (now h) (with_sector (now h) place 0 said) n
        → WornAreIdle (C.told chip.old).places h.story (with_sector (now h) place 0 said)
        → MarksNoMore (C.told chip.old).places (now h) (with_sector (now h) place 0 said) place
        → SwitchesMap (C.told chip.old).places m n (Programs place (IsSpot 0))
        (λ done. Gains place 0 said) h (C.told chip.old) result (C.told chip.new) }
    ensures tells { (said : Sector) → sector_in bytes.now ≡ Some said → OnOk result (Charts (Gains place 0 said) (C.told chip.old) (C.told chip.new)) }
    ensures plain { IsPlain bytes.now → AddsPlain (C.told chip.old) (C.told chip.new) }
    ensures spares { OnOk result (Spares place (C.told chip.old) (C.told chip.new)) }
    ensures costs { (said : Sector) → sector_in bytes.now ≡ Some said
        → Spends (ProgramsAt place 1 1 said.kind) (C.told chip.old) (C.told chip.new) }
    ensures tidy { Spends (Programs place (IsSpot 0) (is_ok result)) (C.told chip.old) (C.told chip.new) }
    ensures unread { Spends ReadsNothing (C.told chip.old) (C.told chip.new) }
    ensures accounts { Accounts IsStopped result (C.told chip.old) (C.told chip.new) }
{
    program(chip, Spot { place, sector: 0 }, bytes)?;
    // The header has to last before anybody is told of what it makes count.
    barrier(chip)
}

/// Puts a header (of a kind that there is, with a payload of at most 480 bytes) on a place, once all else is made sure of,
/// and makes sure of it.
///
/// A power cut leaves what stood before or what stands with the header, and done, the story rests on what stands with it.
pub fn seal<C: Chip>(chip: &mut C, place: u32, head: &Head, payload: &[u8]) -> Result<(), ChipFault>
    requires place { place < (C.told chip.old).places }
    requires known { IsKind head.now.kind }
    requires written { MayProgram (sector_of head.now payload.now) }
    ensures leads { (m n : Legible) (h : History) → IsSteady h (C.told chip.old)
        → StoryRests (C.told chip.old).places m h → age h.story place 0 ≡ Clean
        → StandsBeside (C.told chip.old).places (now h) (with_sector (now h) place 0 (sector_of head.now payload.now)) n
        → WornAreIdle (C.told chip.old).places h.story (with_sector (now h) place 0 (sector_of head.now payload.now))
        → MarksNoMore (C.told chip.old).places (now h) (with_sector (now h) place 0 (sector_of head.now payload.now)) place
        → SwitchesMap (C.told chip.old).places m n (Programs place (IsSpot 0))
        (λ done. Gains place 0 (sector_of head.now payload.now)) h (C.told chip.old) result (C.told chip.new) }
    ensures tells { OnOk result (Charts (Gains place 0 (sector_of head.now payload.now)) (C.told chip.old) (C.told chip.new)) }
    ensures plain { IsPlainSector (sector_of head.now payload.now) → AddsPlain (C.told chip.old) (C.told chip.new) }
    ensures spares { OnOk result (Spares place (C.told chip.old) (C.told chip.new)) }
    ensures writes { OnlyPrograms (ProgramsAt place 1 2 head.now.kind) place (IsSpot 0) result
        (C.told chip.old) (C.told chip.new) }
{
    let mut bytes = [0; 512];
    encode(head, payload, &mut bytes);
    // What the header makes count has to last before it.
    barrier(chip)?;
    add_header(chip, place, &bytes)
}
