//! Where a key's pair stands in a bucket's bytes, and its value.
ghost use Rattle.std.specs.Prelude.{◌≡◌, ◌≤◌, ◌<◌, length, drop, option_map, true};
ghost use Rattle.ipl_keys.specs.BucketPairs.{Pairs, value_at};
ghost use Rattle.ipl_keys.specs.Bucket.{IsBucketText, SpellsBucket};
ghost use Rattle.ipl_keys.specs.BucketReading.{has_pair};
ghost use Rattle.ipl_keys.specs.BucketSplits.{Splits};

use crate::bucket_reading::{first_key, first_value, pair_len};
use std::cmp::Ordering;

/// Where the pair of a key stands, from a byte until another; where there is none, both are where it
/// would stand.
#[derive(Clone, Copy)]
pub(crate) struct Span {
    pub(crate) from: usize,
    pub(crate) until: usize,
}

/// Where the pair of this key (any bytes) stands in the bytes of a bucket, or would stand. The span
/// ends within them, and is empty exactly where the bucket has no pair of the key.
pub(crate) fn span_of(bytes: &[u8], key: &[u8]) -> Span
    requires { IsBucketText bytes.now }
    ensures splits { (pairs : Pairs) → SpellsBucket bytes.now pairs
        → Splits bytes.now key.now pairs result.from result.until }
    ensures order { result.from ≤ result.until }
    ensures within { result.until ≤ length bytes.now }
    ensures held { result.from < result.until → has_pair (drop result.from bytes.now) ≡ true }
{
    let mut from = 0;
    while from < bytes.len() {
        let rest = &bytes[from..];
        let until = from + pair_len(rest);
        match first_key(rest).cmp(&key) {
            Ordering::Less => from = until,
            Ordering::Equal => return Span { from, until },
            Ordering::Greater => return Span { from, until: from },
        }
    }
    Span { from, until: from }
}

/// The value of a key (any bytes) in a bucket, where it has one.
pub fn find<'a>(bytes: &'a [u8], key: &[u8]) -> Option<&'a [u8]>
    requires { IsBucketText bytes.now }
    ensures { (pairs : Pairs) → SpellsBucket bytes.now pairs
        → option_map (λ value. value.now) result ≡ value_at key.now pairs }
{
    let span = span_of(bytes, key);
    if span.from == span.until {
        return None;
    }
    Some(first_value(&bytes[span.from..]))
}
