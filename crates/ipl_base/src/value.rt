//! The bytes of one record.
ghost use Rattle.std.specs.Prelude.{◌≡◌, ◌≤◌, ◌<◌, ℕ, List, [], length, IfSome, IfNone};
ghost use Rattle.ipl_base.specs.declared.limits.TheConstants.{VALUE_LEN};

use crate::limits::VALUE_LEN;
use arrayvec::ArrayVec;
use std::alloc::AllocError;
use std::marker::Model;

/// The bytes of a record, at most 464. A contract sees them as a list.
#[derive(PartialEq, Eq, Debug, Drop)]
pub struct Value {
    bytes: ArrayVec<u8, VALUE_LEN>,
}

impl Model for Value {
    ghost Value = { List ℕ };

    ghost view = { λ v. v.bytes.items };

    ghost invariant = { λ v. length v.bytes.items ≤ VALUE_LEN };

    ghost inverse = { λ xs. record { bytes = record { items = xs } } };
}

impl Value {
    /// The most bytes that a record has.
    pub const MAX_LEN: usize = VALUE_LEN;

    /// The value of no bytes.
    pub fn empty() -> Value
        ensures { result ≡ [] }
    {
        Value {
            bytes: ArrayVec::new(),
        }
    }

    /// `None` exactly where there are more than 464 bytes.
    pub fn of(bytes: &[u8]) -> Option<Value>
        ensures some { IfSome result (λ v. (v ≡ bytes.now) × (length bytes.now ≤ VALUE_LEN)) }
        ensures none { IfNone result (VALUE_LEN < length bytes.now) }
    {
        let mut items = ArrayVec::new();
        match items.try_extend_from_slice(bytes) {
            Ok(()) => Some(Value { bytes: items }),
            Err(_) => None,
        }
    }

    /// Its bytes, at most 464.
    pub fn bytes(&self) -> &[u8]
        ensures value { result.now ≡ self.now }
        ensures fits { length result.now ≤ VALUE_LEN }
    {
        self.bytes.as_slice()
    }

    /// The same bytes again; it takes no memory.
    pub fn copy(&self) -> Value
        ensures { result ≡ self.now }
    {
        let mut items = ArrayVec::new();
        let _ = items.try_extend_from_slice(self.bytes());
        Value { bytes: items }
    }
}

impl Clone for Value {
    ghost is_clone = { λ v w. w ≡ v };

    ghost is_infallible = { λ _. Unit {0} };

    fn clone(&self) -> Result<Value, AllocError> {
        Ok(self.copy())
    }
}
