//! A bucket's bytes with a key set, and without one.
ghost use Rattle.std.specs.Prelude.{◌≡◌, ◌≤◌, ◌<◌, ◌+◌, ◌++◌, ◌↔◌, [], IfSome, IfNone, length, take};
ghost use Rattle.ipl_base.specs.declared.limits.TheConstants.{VALUE_LEN};
ghost use Rattle.ipl_keys.specs.declared.bucket_limits.TheConstants.{KEY_LEN, KEY_VALUE_LEN};
ghost use Rattle.ipl_keys.specs.BucketPairs.{Pairs, remove_pair, set_pair};
ghost use Rattle.ipl_keys.specs.Bucket.{IsBucketText, SpellsBucket, bucket_bytes, pair_bytes};

use crate::bucket_place::span_of;
use ipl_base::VALUE_LEN;

// Writes a part from a byte on, and answers where it ends.
fn add(into: &mut [u8; 464], at: usize, part: &[u8]) -> usize
    requires { at + length part.now ≤ VALUE_LEN }
    ensures front { take result into.new ≡ take at into.old ++ part.now }
    ensures end { result ≡ at + length part.now }
{
    let end = at + part.len();
    into[at..end].copy_from_slice(part);
    end
}

// The same of a pair.
fn add_pair(into: &mut [u8; 464], at: usize, key: &[u8], value: &[u8]) -> usize
    requires key { length key.now ≤ KEY_LEN }
    requires value { length value.now ≤ KEY_VALUE_LEN }
    requires room { at + 2 + length key.now + length value.now ≤ VALUE_LEN }
    ensures front { take result into.new ≡ take at into.old ++ pair_bytes (key.now, value.now) }
    ensures end { result ≡ at + 2 + length key.now + length value.now }
{
    let key_from = add(into, at, &[key.len() as u8]);
    let key_end = add(into, key_from, key);
    let value_from = add(into, key_end, &[value.len() as u8]);
    add(into, value_from, value)
}

/// Writes the bytes of a bucket with a value (at most 200 bytes) for this key (1 to 16) at the front
/// of `into`, and answers how many they are. `None` exactly where they pass 464.
pub fn with_pair(bytes: &[u8], key: &[u8], value: &[u8], into: &mut [u8; 464]) -> Option<usize>
    requires bucket { IsBucketText bytes.now }
    requires some { 1 ≤ length key.now }
    requires key { length key.now ≤ KEY_LEN }
    requires value { length value.now ≤ KEY_VALUE_LEN }
    ensures set { (pairs : Pairs) → SpellsBucket bytes.now pairs
        → IfSome result (λ len. SpellsBucket (take len into.new) (set_pair key.now value.now pairs)) }
    ensures full { (pairs : Pairs) → SpellsBucket bytes.now pairs
        → IfNone result (VALUE_LEN < length (bucket_bytes (set_pair key.now value.now pairs))) }
    ensures most { IfSome result (λ len. len ≤ VALUE_LEN) }
    ensures kept { IfNone result (into.new ≡ into.old) }
{
    let span = span_of(bytes, key);
    let below = &bytes[..span.from];
    let above = &bytes[span.until..];
    if below.len() + 2 + key.len() + value.len() + above.len() > VALUE_LEN {
        return None;
    }
    let from = add(into, 0, below);
    let until = add_pair(into, from, key, value);
    Some(add(into, until, above))
}

/// Writes the bytes of a bucket without this key at the front of `into`, and answers how many they
/// are: 0 exactly where no pair is left.
pub fn without(bytes: &[u8], key: &[u8], into: &mut [u8; 464]) -> usize
    requires bucket { IsBucketText bytes.now }
    ensures removed { (pairs : Pairs) → SpellsBucket bytes.now pairs
        → SpellsBucket (take result into.new) (remove_pair key.now pairs) }
    ensures most { result ≤ length bytes.now }
    ensures none { (pairs : Pairs) → SpellsBucket bytes.now pairs
        → result ≡ 0 ↔ remove_pair key.now pairs ≡ [] }
{
    let span = span_of(bytes, key);
    let from = add(into, 0, &bytes[..span.from]);
    add(into, from, &bytes[span.until..])
}
