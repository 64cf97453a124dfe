//! The bounds of keys and of their values. A bucket is the value of a record, and has its bound.

/// The bytes of a key, at most.
pub const KEY_LEN: usize = 16;

/// The bytes of a key's value, at most.
pub const KEY_VALUE_LEN: usize = 200;
