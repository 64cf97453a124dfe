//! The calls of a chip, with the faults of this crate.
ghost use Rattle.std.specs.Prelude.{◌≡◌, ◌<◌, [], OnOk};
ghost use Rattle.chip_trait.specs.declared.event.Event.TheVariants.{Read, Program};
ghost use Rattle.chip_trait.specs.Told.{Told};
ghost use Rattle.unit_io.specs.Accounts.{Accounts};
ghost use Rattle.unit_io.specs.Leads.{Did, Wore, Waited, IsStopped};
ghost use Rattle.unit_io.specs.Costs.{Costs, Spends};
ghost use Rattle.unit_io.specs.Reads.{Asked, OfContents, IsReadFault};
ghost use Rattle.unit_io.specs.Spots.{IsOnChip};

use chip_trait::{Chip, Wear};
use ipl_base::{ChipFault, Spot};

/// Erases a place, or finds it worn.
pub(crate) fn erase<C: Chip>(chip: &mut C, place: u32) -> Result<Wear, ChipFault>
    requires { place < (C.told chip.old).places }
    ensures did { Wore place result (C.told chip.old) (C.told chip.new) }
    ensures accounts { Accounts IsStopped result (C.told chip.old) (C.told chip.new) }
{
    match chip.erase(place) {
        Ok(wear) => Ok(wear),
        Err(_) => Err(ChipFault::Stopped),
    }
}

/// Programs a sector (0 to 255) of a place.
pub(crate) fn program<C: Chip>(chip: &mut C, at: Spot, bytes: &[u8; 512]) -> Result<(), ChipFault>
    requires spot { IsOnChip (C.told chip.old) at.place at.sector }
    ensures did { Did (Program at.place at.sector bytes.now) result (C.told chip.old) (C.told chip.new) }
    ensures accounts { Accounts IsStopped result (C.told chip.old) (C.told chip.new) }
{
    match chip.program(at.place, at.sector, bytes) {
        Ok(()) => Ok(()),
        Err(_) => Err(ChipFault::Stopped),
    }
}

/// Waits until all that was written is sure to last. It fails only where a write failed.
pub fn barrier<C: Chip>(chip: &mut C) -> Result<(), ChipFault>
    ensures did { Waited result (C.told chip.old) (C.told chip.new) }
    ensures costs { Spends (Costs 0 0 1 []) (C.told chip.old) (C.told chip.new) }
    ensures accounts { Accounts IsStopped result (C.told chip.old) (C.told chip.new) }
{
    match chip.barrier() {
        Ok(()) => Ok(()),
        Err(_) => Err(ChipFault::Stopped),
    }
}

/// Reads a sector (0 to 255) of a place. After a failure the buffer holds anything.
pub(crate) fn read<C: Chip>(chip: &mut C, at: Spot, into: &mut [u8; 512]) -> Result<(), ChipFault>
    requires spot { IsOnChip (C.told chip.old) at.place at.sector }
    ensures asks { Asked (Read at.place at.sector) result (C.told chip.old) (C.told chip.new) }
    ensures bytes { OnOk result (OfContents (C.told chip.old) (λ x. into.new ≡ x at.place at.sector)) }
    ensures accounts { Accounts IsReadFault result (C.told chip.old) (C.told chip.new) }
{
    match chip.read(at.place, at.sector, into) {
        Ok(()) => Ok(()),
        Err(_) => Err(ChipFault::ReadFault),
    }
}
