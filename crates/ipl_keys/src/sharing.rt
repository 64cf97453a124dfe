//! Sessions share the buckets of keys.
ghost use Rattle.std.specs.Prelude.{None};
ghost use Rattle.ipl_model.specs.Operations.{after_share};
ghost use Rattle.ipl_store.specs.Calls.{Calls, IsSound, entry_fault, share_fault};
ghost use Rattle.ipl_keys.specs.BucketHome.{bucket_of};
ghost use Rattle.ipl_keys.specs.Calls.{AnswersNothing, CallsKey, HandsOn, ServesKeys, bad_key, first_fault};

use crate::admitting::bad_key;
use crate::changing::handed;
use crate::{KeyFault, Keys};
use chip_trait::Chip;
use ipl_base::StoreFault;

impl Keys {
    /// Shares a name for a session.
    fn share_name<C: Chip>(&mut self, chip: &mut C, s: u32, n: u32) -> Result<(), StoreFault>
        requires sound { IsSound (C.told chip.old).places self.old.store }
        ensures { Calls (share_fault self.old.store s n) (λ state. after_share state s n) 14
            self.old.store (C.told chip.old) result self.new.store (C.told chip.new) }
    {
        match self.store.share(chip, s, n) {
            Ok(_found) => Ok(()),
            Err(fault) => Err(fault),
        }
    }

    /// Shares the bucket in which a key lives, for a session: until that ends no other one may write a key
    /// there. What it has at the key is told by a `get`.
    pub fn share<C: Chip>(&mut self, chip: &mut C, s: u32, key: &[u8]) -> Result<(), KeyFault>
        requires sound { IsSound (C.told chip.old).places self.old.store }
        ensures calls { CallsKey (first_fault (entry_fault self.old.store) (bad_key key.now) None)
            (HandsOn (λ answer. Calls (share_fault self.old.store s (bucket_of self.old.store.units key.now))
            (λ state. after_share state s (bucket_of self.old.store.units key.now)) 14
            self.old.store (C.told chip.old) answer self.new.store (C.told chip.new)) result)
            self.old.store (C.told chip.old) result self.new.store (C.told chip.new) }
        ensures serves { ServesKeys (λ k. k) AnswersNothing
            self.old.store (C.told chip.old) result self.new.store (C.told chip.new) }
    {
        if let Err(fault) = self.admit(chip, bad_key(key)) {
            return Err(fault);
        }
        let n = self.name_of(key);
        handed(self.share_name(chip, s, n))
    }
}
