//! Sessions look keys up.
ghost use Rattle.std.specs.Prelude.{◌≡◌, ◌<◌, ◌≤◌, ◌*◌, ℕ, None, IfOk, IfSome, OnOk, length, take, option_map};
ghost use Rattle.std.specs.Borrow.{sem};
ghost use Rattle.std.specs.Io.BufRead.{Rests};
ghost use Rattle.ipl_base.specs.declared.limits.TheConstants.{UNIT_NAMES, VALUE_LEN};
ghost use Rattle.ipl_store.specs.Calls.{Calls, IsSound, entry_fault, get_fault};
ghost use Rattle.ipl_keys.specs.BucketPairs.{Pairs, value_at};
ghost use Rattle.ipl_keys.specs.Bucket.{IsBucketText, SpellsBucket};
ghost use Rattle.ipl_keys.specs.BucketHome.{bucket_of};
ghost use Rattle.ipl_keys.specs.contracts.keys.Keys.{the_row};
ghost use Rattle.ipl_keys.specs.Records.{bytes_of};
ghost use Rattle.ipl_keys.specs.Calls.{
  CopiesBucket,
  GetsKey,
  Sees,
  early_key_fault,
  lent_of,
};

use crate::admitting::bad_key;
use crate::bucket_home::bucket_of;
use crate::bucket_place::find;
use crate::bucket_reading::is_bucket;
use crate::{KeyFault, Keys};
use chip_trait::Chip;
use ipl_base::StoreFault;

/// Copies a record of at most 464 bytes, or none, to the front of `into`, and answers how many bytes
/// it has.
fn copy(found: Option<&[u8]>, into: &mut [u8; 464]) -> usize
    requires short { IfSome found (λ b. length b.now ≤ VALUE_LEN) }
    ensures front { take result into.new ≡ bytes_of (option_map (λ b. b.now) found.entry) }
    ensures most { result ≤ VALUE_LEN }
{
    let Some(bytes) = found else {
        return 0;
    };
    into[..bytes.len()].copy_from_slice(bytes);
    bytes.len()
}

impl Keys {
    /// Copies what a session sees of a name, and answers how many bytes that has.
    fn see<C: Chip>(&mut self, chip: &mut C, s: u32, n: u32) -> Result<usize, StoreFault>
        requires sound { IsSound (C.told chip.old).places self.old.store }
        ensures calls { Calls (get_fault self.old.store s n) (λ state. state) 14
            self.old.store (C.told chip.old) result self.new.store (C.told chip.new) }
        ensures seen { IfOk result (λ len. Sees s n self.old.store (C.told chip.old)
            (λ seen. seen ≡ take len self.new.bucket)) }
        ensures most { IfOk result (λ len. len ≤ VALUE_LEN) }
    {
        match self.store.get(chip, s, n) {
            Ok(found) => Ok(copy(found, &mut self.bucket)),
            Err(fault) => Err(fault),
        }
    }

    /// Copies the bucket of a name of the chip as a session sees it, and answers how many bytes it
    /// has. The store isn't down, and has numbers left.
    fn read<C: Chip>(&mut self, chip: &mut C, s: u32, n: u32) -> Result<usize, KeyFault>
        requires sound { IsSound (C.told chip.old).places self.old.store }
        requires entry { entry_fault self.old.store ≡ None }
        requires name { n < UNIT_NAMES * self.old.store.units }
        ensures { CopiesBucket (early_key_fault self.old.store None s) s n
            self.old (C.told chip.old) result self.new (C.told chip.new) }
    {
        let len = match self.see(chip, s, n) {
            Ok(len) => len,
            Err(fault) => return Err(KeyFault::Store(fault)),
        };
        if !is_bucket(&self.bucket[..len]) {
            return Err(KeyFault::BadBucket(n));
        }
        Ok(len)
    }

    /// The name of the bucket that a key lives in.
    pub(crate) fn name_of(&self, key: &[u8]) -> u32
        requires { (places : ℕ) × IsSound places self.now.store }
        ensures name { result ≡ bucket_of self.now.store.units key.now }
        ensures within { result < UNIT_NAMES * self.now.store.units }
    {
        bucket_of(key, self.store.unit_count())
    }

    /// Copies the bucket of a name of the chip, for a call on a key that may be bad so.
    pub(crate) fn look<C: Chip>(
        &mut self,
        chip: &mut C,
        s: u32,
        n: u32,
        bad: Option<KeyFault>,
    ) -> Result<usize, KeyFault>
        requires sound { IsSound (C.told chip.old).places self.old.store }
        requires name { n < UNIT_NAMES * self.old.store.units }
        ensures copies { CopiesBucket (early_key_fault self.old.store bad s) s n
            self.old (C.told chip.old) result self.new (C.told chip.new) }
        ensures good { OnOk result (bad ≡ None) }
    {
        if let Err(fault) = self.admit(chip, bad) {
            return Err(fault);
        }
        self.read(chip, s, n)
    }
}

impl Keys {
    /// The value of a key in the bucket that was read, of so many bytes.
    fn found(&self, len: usize, key: &[u8]) -> Option<&[u8]>
        requires most { len ≤ VALUE_LEN }
        requires bucket { IsBucketText (take len self.now.bucket) }
        ensures { (pairs : Pairs) → SpellsBucket (take len self.now.bucket) pairs
            → option_map (λ b. b.now) result ≡ value_at key.now pairs }
    {
        find(&self.bucket[..len], key)
    }

    /// The value that a session sees of a key, where it has one: its own last write, or else the
    /// committed one. The slice, of at most 200 bytes, is lent from the memory of the store of keys.
    pub fn get<C: Chip>(
        &mut self,
        chip: &mut C,
        s: u32,
        key: &[u8],
    ) -> Result<Option<&[u8]>, KeyFault>
        requires sound { IsSound (C.told chip.old).places self.old.store }
        ensures* gets { sem 𝓛 (Rests the_row self.entry (λ new. GetsKey s key.now self.old.store
            (C.told chip.old) (lent_of result) new.store (C.told chip.new))) }
    {
        let n = self.name_of(key);
        let len = self.look(chip, s, n, bad_key(key))?;
        Ok(self.found(len, key))
    }
}
