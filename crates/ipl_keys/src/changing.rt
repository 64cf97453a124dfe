//! Sessions change keys.
ghost use Rattle.std.specs.Prelude.{◌≡◌, ◌<◌, ◌≤◌, ◌*◌, length, Some, None, IfErr};
ghost use Rattle.chip_trait.specs.Told.{Counts};
ghost use Rattle.ipl_base.specs.declared.limits.TheConstants.{VALUE_LEN};
ghost use Rattle.ipl_store.specs.Calls.{IsSound};
ghost use Rattle.ipl_keys.specs.BucketHome.{bucket_of};
ghost use Rattle.ipl_keys.specs.KeyState.{after_key_write};
ghost use Rattle.ipl_keys.specs.Calls.{
  CallsKey,
  Dels,
  HandsOn,
  AnswersNothing,
  IsMet,
  Puts,
  ServesKeys,
  WritesName,
  bad_key,
  bad_pair,
  change_of,
  early_key_fault,
  handed,
};

use crate::admitting::{bad_key, bad_pair};
use crate::bucket_changes::{with_pair, without};
use crate::{KeyFault, Keys};
use chip_trait::Chip;
use ipl_base::StoreFault;

/// What the store answered.
pub(crate) fn handed(answer: Result<(), StoreFault>) -> Result<(), KeyFault>
    ensures { result ≡ handed answer }
{
    match answer {
        Ok(()) => Ok(()),
        Err(fault) => Err(KeyFault::Store(fault)),
    }
}

impl Keys {
    /// Writes the bytes of a bucket at a name, for a session, or deletes its record where there are
    /// none.
    fn write<C: Chip>(&mut self, chip: &mut C, s: u32, n: u32, bytes: &[u8]) -> Result<(), KeyFault>
        requires sound { IsSound (C.told chip.old).places self.old.store }
        ensures writes { HandsOn (λ answer. WritesName s n (change_of bytes.now) self.old.store
            (C.told chip.old) answer self.new.store (C.told chip.new)) result }
        ensures sound { IsSound (C.told chip.old).places self.new.store }
        ensures units { self.new.store.units ≡ self.old.store.units }
        ensures sessions { length self.new.store.transactions.sessions
            ≡ length self.old.store.transactions.sessions }
        ensures counts { Counts (C.told chip.old) (C.told chip.new) }
    {
        if bytes.is_empty() {
            return handed(self.store.del(chip, s, n));
        }
        handed(self.store.put(chip, s, n, bytes))
    }

    /// Puts a value of at most 200 bytes at a key of 1 to 16, for a session. It counts once that is
    /// committed.
    pub fn put<C: Chip>(
        &mut self,
        chip: &mut C,
        s: u32,
        key: &[u8],
        value: &[u8],
    ) -> Result<(), KeyFault>
        requires sound { IsSound (C.told chip.old).places self.old.store }
        ensures calls { CallsKey (early_key_fault self.old.store (bad_pair key.now value.now) s)
            (Puts s (bucket_of self.old.store.units key.now) key.now value.now self.old.store
            (C.told chip.old) result self.new.store (C.told chip.new))
            self.old.store (C.told chip.old) result self.new.store (C.told chip.new) }
        ensures serves { ServesKeys (λ k. after_key_write k s (key.now, Some value.now)) AnswersNothing
            self.old.store (C.told chip.old) result self.new.store (C.told chip.new) }
        ensures met { IfErr result (λ fault. IsMet fault) }
    {
        let n = self.name_of(key);
        let len = self.look(chip, s, n, bad_pair(key, value))?;
        let mut changed = [0; 464];
        let Some(end) = with_pair(&self.bucket[..len], key, value, &mut changed) else {
            return Err(KeyFault::BucketFull(n));
        };
        self.write(chip, s, n, &changed[..end])
    }

    /// Deletes the value of a key, for a session. One that has none is written too.
    pub fn del<C: Chip>(&mut self, chip: &mut C, s: u32, key: &[u8]) -> Result<(), KeyFault>
        requires sound { IsSound (C.told chip.old).places self.old.store }
        ensures calls { CallsKey (early_key_fault self.old.store (bad_key key.now) s)
            (Dels s (bucket_of self.old.store.units key.now) key.now self.old.store
            (C.told chip.old) result self.new.store (C.told chip.new))
            self.old.store (C.told chip.old) result self.new.store (C.told chip.new) }
        ensures serves { ServesKeys (λ k. after_key_write k s (key.now, None)) AnswersNothing
            self.old.store (C.told chip.old) result self.new.store (C.told chip.new) }
        ensures met { IfErr result (λ fault. IsMet fault) }
    {
        let n = self.name_of(key);
        let len = self.look(chip, s, n, bad_key(key))?;
        let mut changed = [0; 464];
        let end = without(&self.bucket[..len], key, &mut changed);
        self.write(chip, s, n, &changed[..end])
    }
}
