//! A chip is checked.
ghost use Rattle.std.specs.Prelude.{◌≡◌, ◌≢◌, ◌⊎◌, IfErr, IfOk};
ghost use Rattle.ipl_base.specs.Places.{IsGeometry};
ghost use Rattle.unit_io.specs.Reads.{OfContents};
ghost use Rattle.unit_io.specs.ReadsAt.{Anywhere, ReadsAt};
ghost use Rattle.image_check.specs.Checked.{CheckCause, Checks, ChecksImage, IsCheckCause};
ghost use Rattle.image_check.specs.Tables.{IsMemoryMade};

use crate::CheckFault;
use crate::counting::{Room, Tables, count_units};
use chip_trait::Chip;
use ipl_base::{Geometry, ImageFault, OutOfMemory, STATUS_NUMBERS};
use overflow::Overflow;
use page_ops::Frame;
use restart::{KeptNumbers, survey};
use std::alloc::Global;
use txn_status::Status;
use unit_directory::Directory;

/// All memory of a checker.
#[derive(Drop)]
pub(crate) struct Memory {
    scratch: restart::Scratch,
    numbers: KeptNumbers,
    tables: Tables,
    room: Room,
}

impl Memory {
    /// Memory for a chip of this size, and for all numbers of its status place.
    fn new(alloc: Global, geometry: Geometry) -> Result<Memory, OutOfMemory>
        ensures { IfOk result (λ memory. IsMemoryMade geometry.places memory) }
    {
        let tables = Tables {
            directory: Directory::new(alloc, geometry)?,
            overflow: Overflow::new(alloc, geometry)?,
            status: Status::new(alloc, geometry, STATUS_NUMBERS)?,
        };
        let room = Room {
            log: unit_log::Scratch::new(alloc)?,
            frame: Frame::empty(),
        };
        Ok(Memory {
            scratch: restart::Scratch::new(alloc, geometry)?,
            numbers: KeptNumbers::new(alloc, STATUS_NUMBERS)?,
            tables,
            room,
        })
    }

    /// Checks a chip of the size that the memory is for.
    fn check<C: Chip>(&mut self, chip: &mut C) -> Result<u32, ImageFault>
        requires fits { IsGeometry (C.told chip.old).places }
        requires made { IsMemoryMade (C.told chip.old).places self.old }
        ensures checks { OfContents (C.told chip.old) (λ x. ChecksImage x (C.told chip.old).places result) }
        ensures looks { ReadsAt Anywhere (C.told chip.old) (C.told chip.new) }
        ensures cause { IfErr result (λ e. IsCheckCause e (C.told chip.old) (C.told chip.new)) }
    {
        let tables = &mut self.tables;
        survey(
            chip,
            &mut self.scratch,
            &mut tables.directory,
            &mut tables.overflow,
            &mut tables.status,
            &mut self.numbers,
        )?;
        let records = count_units(chip, &self.tables, &mut self.room)?;
        Ok(records)
    }
}

/// What a check answers once memory is there.
fn checked<C: Chip>(memory: &mut Memory, chip: &mut C) -> Result<u32, CheckFault>
    requires fits { IsGeometry (C.told chip.old).places }
    requires made { IsMemoryMade (C.told chip.old).places memory.old }
    ensures checks { OfContents (C.told chip.old) (λ x. Checks x (C.told chip.old).places result) }
    ensures looks { ReadsAt Anywhere (C.told chip.old) (C.told chip.new) }
    ensures had { IfErr result (λ e. e ≢ CheckFault.OutOfMemory) }
    ensures cause { IfErr result (λ e. CheckCause e (C.told chip.old) (C.told chip.new)) }
{
    match memory.check(chip) {
        Ok(records) => Ok(records),
        Err(fault) => Err(CheckFault::Image(fault)),
    }
}

/// Checks a chip: reads its headers, the status place, the log regions and the overflow places, and
/// then each unit's log and base pages; and answers how many records the chip holds (0 to 983,040), or
/// the first thing that is wrong with it. It writes nothing. Memory is taken before the first read.
///
/// The faults come in the order of an opening's, but for one: that numbers are used up is none. After
/// them comes the first page, in rising order of unit and page, of which a base sector is damaged or
/// malformed, which is told by its place and number, or which has no room for its values: that is told
/// as a malformed sector 0 of the unit's place.
pub fn check<C: Chip>(alloc: Global, chip: &mut C) -> Result<u32, CheckFault>
    // Over contents that are told: how many records the chip holds, exactly where it stands for some;
    // or the first fault, unless a read failed or memory was wanting.
    ensures checks { OfContents (C.told chip.old) (λ x. Checks x (C.told chip.old).places result) }

    // It only reads; and nothing, where memory was wanting or the chip has no size of a store.
    ensures looks { ReadsAt Anywhere (C.told chip.old) (C.told chip.new) }
    ensures early { IfErr result (λ e. (e ≡ CheckFault.OutOfMemory) ⊎ ¬ IsGeometry (C.told chip.old).places
        → C.told chip.new ≡ C.told chip.old) }
    ensures sized { IfErr result (λ e. e ≡ CheckFault.OutOfMemory → IsGeometry (C.told chip.old).places) }

    // Why it fails, whatever the chip tells: never since a write failed, a place is worn, or numbers are
    // used up or have no room.
    ensures cause { IfErr result (λ e. CheckCause e (C.told chip.old) (C.told chip.new)) }
{
    let Some(geometry) = Geometry::of(chip.units()) else {
        return Err(CheckFault::Image(ImageFault::Geometry));
    };
    let Ok(mut memory) = Memory::new(alloc, geometry) else {
        return Err(CheckFault::OutOfMemory);
    };
    checked(&mut memory, chip)
}
