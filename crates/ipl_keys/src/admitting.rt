//! Whether a call may begin.
ghost use Rattle.std.specs.Prelude.{◌≡◌, None};
ghost use Rattle.std.specs.Result.{result_err};
ghost use Rattle.ipl_store.specs.Calls.{IsSound, entry_fault};
ghost use Rattle.ipl_keys.specs.Calls.{bad_key, bad_pair, first_fault};

use crate::bucket_limits::{KEY_LEN, KEY_VALUE_LEN};
use crate::{KeyFault, Keys};
use chip_trait::Chip;
use ipl_base::StoreFault;

/// Why a key can't be one, if it can't.
pub(crate) fn bad_key(key: &[u8]) -> Option<KeyFault>
    ensures { result ≡ bad_key key.now }
{
    if key.is_empty() || key.len() > KEY_LEN {
        return Some(KeyFault::BadKey);
    }
    None
}

/// Why a key and a value can't be a pair, if they can't.
pub(crate) fn bad_pair(key: &[u8], value: &[u8]) -> Option<KeyFault>
    ensures { result ≡ bad_pair key.now value.now }
{
    if let Some(fault) = bad_key(key) {
        return Some(fault);
    }
    if value.len() > KEY_VALUE_LEN {
        return Some(KeyFault::LongValue);
    }
    None
}

impl Keys {
    /// Lets a call begin whose key and value aren't bad so: the store isn't down, and numbers are
    /// left.
    pub(crate) fn admit<C: Chip>(
        &mut self,
        chip: &mut C,
        bad: Option<KeyFault>,
    ) -> Result<(), KeyFault>
        requires sound { IsSound (C.told chip.old).places self.old.store }
        ensures early { result_err result ≡ first_fault (entry_fault self.old.store) bad None }
        ensures same { self.new ≡ self.old }
        ensures idle { C.told chip.new ≡ C.told chip.old }
    {
        // A session of that number is never opened: that is refused behind these two, and nothing
        // is done.
        match self.store.begin(chip, self.store.session_count()) {
            Err(StoreFault::Down) => return Err(KeyFault::Store(StoreFault::Down)),
            Err(StoreFault::Spent) => return Err(KeyFault::Store(StoreFault::Spent)),
            _ => {}
        }
        match bad {
            Some(fault) => Err(fault),
            None => Ok(()),
        }
    }
}
