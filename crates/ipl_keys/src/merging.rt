//! A unit's merge, how many units there are, and what the store below has left.
ghost use Rattle.std.specs.Prelude.{◌≡◌};
ghost use Rattle.ipl_model.specs.Refusals.{refuses_merge};
ghost use Rattle.ipl_store.specs.Calls.{Calls, IsSound, early_fault, entry_fault, limits_of_store};
ghost use Rattle.ipl_store.specs.Reserves.{TellsReserves};
ghost use Rattle.ipl_keys.specs.Calls.{HandsOn, AnswersNothing, ServesKeys};

use crate::changing::handed;
use crate::{KeyFault, Keys};
use chip_trait::Chip;
use ipl_store::Reserves;

impl Keys {
    /// Merges a unit (below the number of units) at once, so that its next log sectors cost none. All keys
    /// stay as they are. A bad page of the unit ends it.
    pub fn merge<C: Chip>(&mut self, chip: &mut C, unit: u32) -> Result<(), KeyFault>
        requires sound { IsSound (C.told chip.old).places self.old.store }
        ensures calls { HandsOn (λ answer. Calls (early_fault (entry_fault self.old.store)
            (refuses_merge (limits_of_store self.old.store) unit)) (λ state. state) 13
            self.old.store (C.told chip.old) answer self.new.store (C.told chip.new)) result }
        ensures serves { ServesKeys (λ k. k) AnswersNothing
            self.old.store (C.told chip.old) result self.new.store (C.told chip.new) }
    {
        handed(self.store.merge(chip, unit))
    }

    /// What the store below has left. A call on a key may draw from it as one on the record of its bucket
    /// does.
    pub fn reserves(&self) -> Reserves
        ensures { TellsReserves self.now.store result }
    {
        self.store.reserves()
    }

    /// How many units the chip has, over which the keys' buckets are spread.
    pub fn unit_count(&self) -> u32
        ensures { result ≡ self.now.store.units }
    {
        self.store.unit_count()
    }
}
