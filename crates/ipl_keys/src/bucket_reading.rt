//! The pairs that a bucket's bytes spell, one after another.
ghost use Rattle.std.specs.Prelude.{◌≡◌, ◌≤◌, ◌+◌, ◌&&◌, ◌↔◌, IsTrue, length, nat_le, slice_index, true};
ghost use Rattle.std.specs.Ordering.{is_lt};
ghost use Rattle.ipl_keys.specs.declared.bucket_limits.TheConstants.{KEY_VALUE_LEN};
ghost use Rattle.ipl_keys.specs.BucketPairs.{by_bytes};
ghost use Rattle.ipl_keys.specs.Bucket.{IsBucketText};
ghost use Rattle.ipl_keys.specs.BucketReading.{after_pair, first_key, first_value, has_pair, pair_len};

use crate::bucket_limits::{KEY_LEN, KEY_VALUE_LEN};
use ipl_base::VALUE_LEN;

/// Whether the bytes begin with a pair: the length of a key, 1 to 16, the key, the length of its
/// value, 0 to 200, and the value.
pub(crate) fn has_pair(bytes: &[u8]) -> bool
    ensures { result ≡ has_pair bytes.now }
{
    if bytes.is_empty() {
        return false;
    }
    let key = usize::from(bytes[0]);
    1 <= key && key <= KEY_LEN && 2 + key <= bytes.len() && has_value(bytes, key)
}

// Whether behind a key of so many bytes stands a value.
fn has_value(bytes: &[u8], key: usize) -> bool
    requires { 2 + key ≤ length bytes.now }
    ensures { result ≡ (nat_le (slice_index bytes.now (1 + key)) KEY_VALUE_LEN
        && nat_le (2 + key + slice_index bytes.now (1 + key)) (length bytes.now)) }
{
    let value = usize::from(bytes[1 + key]);
    value <= KEY_VALUE_LEN && 2 + key + value <= bytes.len()
}

/// The key of the first pair, 1 to 16 bytes. The bytes begin with a pair (see `has_pair`).
pub(crate) fn first_key(bytes: &[u8]) -> &[u8]
    requires { has_pair bytes.now ≡ true }
    ensures { result.now ≡ first_key bytes.now }
{
    &bytes[1..1 + usize::from(bytes[0])]
}

/// The value of the first pair, 0 to 200 bytes. The bytes begin with a pair.
pub(crate) fn first_value(bytes: &[u8]) -> &[u8]
    requires { has_pair bytes.now ≡ true }
    ensures { result.now ≡ first_value bytes.now }
{
    let value = 2 + usize::from(bytes[0]);
    &bytes[value..pair_len(bytes)]
}

/// How many of the bytes the first pair takes, 3 to 218. The bytes begin with a pair.
pub(crate) fn pair_len(bytes: &[u8]) -> usize
    requires { has_pair bytes.now ≡ true }
    ensures len { result ≡ pair_len bytes.now }
    ensures within { result ≤ length bytes.now }
{
    let key = usize::from(bytes[0]);
    2 + key + usize::from(bytes[1 + key])
}

/// The bytes after the first pair. The bytes begin with a pair.
pub(crate) fn after_pair(bytes: &[u8]) -> &[u8]
    requires { has_pair bytes.now ≡ true }
    ensures { result.now ≡ after_pair bytes.now }
{
    &bytes[pair_len(bytes)..]
}

// Whether a key is above another one.
fn is_above(key: &[u8], last: &[u8]) -> bool
    ensures { result ≡ is_lt (by_bytes last.now key.now) }
{
    last.cmp(&key).is_lt()
}

/// Whether the bytes are a bucket: at most 464, and pairs by rising keys with nothing left over. No
/// bytes are one.
pub fn is_bucket(bytes: &[u8]) -> bool
    ensures { IsTrue result ↔ IsBucketText bytes.now }
{
    if bytes.len() > VALUE_LEN {
        return false;
    }
    let mut rest = bytes;
    let mut last: &[u8] = &[];
    while !rest.is_empty() {
        if !has_pair(rest) {
            return false;
        }
        let key = first_key(rest);
        if !is_above(key, last) {
            return false;
        }
        rest = after_pair(rest);
        last = key;
    }
    true
}
