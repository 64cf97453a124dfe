//! Commit sectors and marks, programmed.
ghost use Rattle.std.specs.Prelude.{◌≡◌, ◌<◌, ℕ, List, OnOk, Some};
ghost use Rattle.chip_trait.specs.declared.event.Event.TheVariants.{Program};
ghost use Rattle.chip_trait.specs.Image.{IsClosed};
ghost use Rattle.chip_trait.specs.Chart.{with_sector};
ghost use Rattle.chip_trait.specs.Told.{Told, History, adds};
ghost use Rattle.ipl_meaning.specs.Legible.{Legible};
ghost use Rattle.ipl_format.specs.Sector.{IsKind, sector_in};
ghost use Rattle.sector_format.specs.Decode.{sector_of};
ghost use Rattle.ipl_meaning.specs.Stands.{StandsBeside};
ghost use Rattle.ipl_meaning.specs.Rests.{now, IsUntouched, EachStandsEither, WornAreIdle, StoryRests};
ghost use Rattle.ipl_meaning.specs.Tables.{Tables, IsCountedClean};
ghost use Rattle.ipl_meaning.specs.Marks.{AreUnused, KeepsMarks};
ghost use Rattle.unit_io.specs.Leads.{IsSteady, LeadsWhere, RestsAdded};
ghost use Rattle.unit_io.specs.Spots.{IsOnChip, AddsSector, Programs, IsSpot};
ghost use Rattle.unit_io.specs.Costs.{ProgramsAt, Spends};
ghost use Rattle.unit_io.specs.Charts.{Charts, Gains};
ghost use Rattle.unit_io.specs.Writing.{MayProgram, OnlyPrograms, LeadsAside, LeadsCommit, LeadsMark};

use crate::calls::{barrier, program};
use crate::sectors::program_aside;
use chip_trait::Chip;
use ipl_base::{ChipFault, Spot};
use sector_format::{Head, encode};
use std::marker::Model;

/// A commit sector or a mark that is to be programmed: its head, and its payload. A contract sees it as
/// that sector.
#[derive(Drop)]
pub struct Noted<'a> {
    head: Head,
    payload: &'a [u8],
}

impl<'a> Model for Noted<'a> {
    ghost use Rattle.ipl_format.specs.Sector.{Sector};
    ghost use Rattle.sector_format.specs.Decode.{sector_of};

    ghost Value = { Sector };

    ghost view = { λ s. sector_of s.head s.payload.now };
}

impl<'a> Noted<'a> {
    /// The sector of this head and this payload.
    pub fn of(head: &Head, payload: &'a [u8]) -> Noted<'a>
        ensures { result ≡ sector_of head.now payload.entry.now }
    {
        Noted {
            head: *head,
            payload,
        }
    }

    // Writes its bytes.
    fn encode(&self, out: &mut [u8; 512])
        requires known { IsKind self.now.kind }
        requires written { MayProgram self.now }
        ensures { sector_in out.new ≡ Some self.now }
    {
        encode(&self.head, self.payload, out);
    }
}

/// Programs a commit sector (1 to 255 of its place) into a place that has no header yet: whatever a power cut leaves of it
/// counts for nothing. Nothing makes sure of it: that is for the barrier before the header.
pub fn prepare_commit<C: Chip>(chip: &mut C, spot: Spot, noted: &Noted<'_>) -> Result<(), ChipFault>
    requires spot { IsOnChip (C.told chip.old) spot.place spot.sector }
    requires kind { noted.now.kind ≡ 6 }
    requires written { MayProgram noted.now }
    ensures aside { LeadsAside (C.told chip.old).places spot.place spot.sector
        noted.now (C.told chip.old) result (C.told chip.new) }
    ensures tells { OnOk result (Charts (Gains spot.place spot.sector noted.now) (C.told chip.old) (C.told chip.new)) }
    ensures writes { OnlyPrograms (ProgramsAt spot.place 1 0 6) spot.place (IsSpot spot.sector) result
        (C.told chip.old) (C.told chip.new) }
{
    let mut bytes = [0; 512];
    noted.encode(&mut bytes);
    program_aside(chip, spot, &bytes)
}

/// Programs a sector (1 to 255 of its place) where nothing is open, and makes sure of it.
fn add_sector<C: Chip>(chip: &mut C, spot: Spot, noted: &Noted<'_>) -> Result<(), ChipFault>
    requires spot { IsOnChip (C.told chip.old) spot.place spot.sector }
    requires known { IsKind noted.now.kind }
    requires written { MayProgram noted.now }
    ensures leads { (t : Tables) (m n : Legible) (h : History) → IsSteady h (C.told chip.old)
        → StoryRests (C.told chip.old).places m h → IsClosed h.story → IsUntouched h spot.place spot.sector
        → StandsBeside (C.told chip.old).places (now h) (with_sector (now h) spot.place spot.sector noted.now) n
        → WornAreIdle (C.told chip.old).places h.story (with_sector (now h) spot.place spot.sector noted.now)
        → (AreUnused (IsCountedClean t) h.story → (bytes : List ℕ) → sector_in bytes ≡ Some noted.now
        → KeepsMarks (C.told chip.old).places h (adds (Program spot.place spot.sector bytes) h))
        → LeadsWhere (AreUnused (IsCountedClean t) h.story) (EachStandsEither (C.told chip.old).places m n)
        (Programs spot.place (IsSpot spot.sector))
        (λ done k. RestsAdded (C.told chip.old).places n spot.place spot.sector noted.now h k)
        h (C.told chip.old) result (C.told chip.new) }
    ensures adds { OnOk result (Spends (AddsSector spot.place spot.sector noted.now) (C.told chip.old) (C.told chip.new)) }
    ensures tells { OnOk result (Charts (Gains spot.place spot.sector noted.now) (C.told chip.old) (C.told chip.new)) }
    ensures writes { OnlyPrograms (ProgramsAt spot.place 1 1 noted.now.kind) spot.place (IsSpot spot.sector) result
        (C.told chip.old) (C.told chip.new) }
{
    let mut bytes = [0; 512];
    noted.encode(&mut bytes);
    program(chip, spot, &bytes)?;
    // What it says has to last before anybody is told of it.
    barrier(chip)
}

/// Programs a commit sector (1 to 255 of its place) where nothing is open, and makes sure of it.
///
/// A power cut leaves what stood before or what stands with its numbers, and done, the story rests on what stands with them.
pub fn add_commit<C: Chip>(chip: &mut C, spot: Spot, noted: &Noted<'_>) -> Result<(), ChipFault>
    requires spot { IsOnChip (C.told chip.old) spot.place spot.sector }
    requires kind { noted.now.kind ≡ 6 }
    requires written { MayProgram noted.now }
    ensures leads { LeadsCommit (C.told chip.old).places spot.place spot.sector
        noted.now (C.told chip.old) result (C.told chip.new) }
    ensures tells { OnOk result (Charts (Gains spot.place spot.sector noted.now) (C.told chip.old) (C.told chip.new)) }
    ensures writes { OnlyPrograms (ProgramsAt spot.place 1 1 6) spot.place (IsSpot spot.sector) result
        (C.told chip.old) (C.told chip.new) }
{
    add_sector(chip, spot, noted)
}

/// Programs a mark (1 to 255 of its place) where nothing is open, and makes sure of it.
///
/// Where the mark changes nothing of what stands, whatever a power cut leaves stands for the map on which the story rested, and
/// done, it rests on that map. That no used sector is marked then is for the caller to know (`ClosesKeepMarks`), by what tables
/// count as clean, where that is unused.
pub fn add_mark<C: Chip>(chip: &mut C, spot: Spot, noted: &Noted<'_>) -> Result<(), ChipFault>
    requires spot { IsOnChip (C.told chip.old) spot.place spot.sector }
    requires kind { noted.now.kind ≡ 7 }
    requires written { MayProgram noted.now }
    ensures keeps { LeadsMark (C.told chip.old).places spot.place spot.sector
        noted.now (C.told chip.old) result (C.told chip.new) }
    ensures adds { OnOk result (Spends (AddsSector spot.place spot.sector noted.now) (C.told chip.old) (C.told chip.new)) }
    ensures tells { OnOk result (Charts (Gains spot.place spot.sector noted.now) (C.told chip.old) (C.told chip.new)) }
    ensures writes { OnlyPrograms (ProgramsAt spot.place 1 1 7) spot.place (IsSpot spot.sector) result
        (C.told chip.old) (C.told chip.new) }
{
    add_sector(chip, spot, noted)
}
