//! A free place, taken and erased.
ghost use Rattle.std.specs.Prelude.{◌≡◌, ◌<◌, IfOk, OnOk, OnErr, length};
ghost use Rattle.unit_directory.specs.Free.{free_count, spares_of, IsReadyToTake};
ghost use Rattle.unit_io.specs.Accounts.{Accounts};
ghost use Rattle.unit_io.specs.Costs.{Spends};
ghost use Rattle.unit_io.specs.Unread.{ReadsNothing};
ghost use Rattle.place_taking.specs.Spending.{SparesUsed};
ghost use Rattle.place_taking.specs.Takes.{
  ClearsNext,
  ErasesNext,
  IsAsideFrom,
  IsNotTaken,
  IsTakenFrom,
  MayTakeFrom,
  TakesFree,
  TakesPlace,
  TellsTaking,
};
ghost use Rattle.place_taking.specs.Turns.{TriesNext};

use chip_trait::{Chip, Wear};
use ipl_base::ChipFault;
use unit_directory::{Directory, aside_laws};
use unit_io::begin_unit;

/// A place that was tried: it was erased, or found worn.
#[derive(Clone, Copy)]
pub enum Tried {
    Erased(u32),
    Worn(u32),
}

/// Takes the next free place and erases it, or finds it worn: it is in use then. Where a write failed
/// it is free again.
fn take_next<C: Chip>(chip: &mut C, directory: &mut Directory) -> Result<Tried, ChipFault>
    requires places { length directory.old.in_use ≡ (C.told chip.old).places }
    requires free { 0 < free_count directory.old.in_use }
    ensures { TriesNext directory.old (C.told chip.old) result directory.new (C.told chip.new) }
{
    let place = directory.take_free();
    match begin_unit(chip, place) {
        Ok(Wear::Done) => {
            directory.count_erase(place);
            Ok(Tried::Erased(place))
        }
        Ok(Wear::Worn) => Ok(Tried::Worn(place)),
        Err(fault) => {
            directory.give_back(place);
            Err(fault)
        }
    }
}

/// Takes a place where as many are retired as are spare: where it is worn none may be taken any more.
fn take_last<C: Chip>(chip: &mut C, directory: &mut Directory) -> Result<u32, ChipFault>
    requires places { length directory.old.in_use ≡ (C.told chip.old).places }
    requires ready { IsReadyToTake directory.old }
    requires full { length directory.old.retired ≡ spares_of directory.old }
    ensures { TakesFree directory.old (C.told chip.old) result directory.new (C.told chip.new) }
{
    aside_laws();
    directory.facts();
    match take_next(chip, directory)? {
        Tried::Erased(place) => Ok(place),
        Tried::Worn(place) => {
            directory.give_back(place);
            Err(ChipFault::WornOut(1 + directory.spares()))
        }
    }
}

/// TakesFree one place after the other until one is erased, and retires those that are worn.
fn take_in_turn<C: Chip>(chip: &mut C, directory: &mut Directory) -> Result<u32, ChipFault>
    requires places { length directory.old.in_use ≡ (C.told chip.old).places }
    requires ready { IsReadyToTake directory.old }
    ensures { TakesFree directory.old (C.told chip.old) result directory.new (C.told chip.new) }
{
    aside_laws();
    for _ in directory.retired_count()..directory.spares() {
        match take_next(chip, directory)? {
            Tried::Erased(place) => return Ok(place),
            Tried::Worn(place) => directory.retire(place),
        }
    }
    take_last(chip, directory)
}

/// Takes the least worn free place, the lowest on a tie, and erases it, so that each of its sectors is
/// clean: one erase more counts for it then. A place that is found worn is retired, and the next one is
/// taken. That one place more is free or retired than are spare is a condition. `Stopped` where a write
/// failed, and `WornOut` where so many places are worn: as many are retired as are spare, and one more
/// is worn. The place that was tried last is free again then.
///
/// Whatever a power cut leaves at any moment stands for the map on which the story rested; and where
/// no write failed the story rests on that map, also where too many places are worn.
pub fn take_place<C: Chip>(chip: &mut C, directory: &mut Directory) -> Result<u32, ChipFault>
    requires { MayTakeFrom (C.told chip.old) directory.old }

    // What the directory has, whatever the chip tells.
    ensures taken { IfOk result (λ place. IsTakenFrom directory.old place directory.new) }
    ensures aside { OnErr result (IsAsideFrom directory.old directory.new) }

    // What the chip holds then, and what a power cut leaves.
    ensures takes { TakesPlace directory.old (C.told chip.old) result directory.new (C.told chip.new) }
    ensures tells { TellsTaking (C.told chip.old) result (C.told chip.new) }
    ensures spares { OnOk result (SparesUsed directory.old (C.told chip.old) (C.told chip.new)) }

    // Erases are tried of the next free place in its turn, one more than places are retired; whatever
    // the chip holds, each sector of the place that was taken is clean then.
    ensures costs { Spends (ErasesNext directory.old result directory.new)
        (C.told chip.old) (C.told chip.new) }
    ensures tidy { Spends (ClearsNext directory.old result) (C.told chip.old) (C.told chip.new) }
    // It reads nothing.
    ensures unread { Spends ReadsNothing (C.told chip.old) (C.told chip.new) }
    ensures accounts { Accounts (IsNotTaken directory.new) result (C.told chip.old) (C.told chip.new) }
{
    take_in_turn(chip, directory)
}
