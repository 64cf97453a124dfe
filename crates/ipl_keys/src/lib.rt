//! Values by keys: a map from keys of 1 to 16 bytes to values of 0 to 200, in buckets that are
//! records of a store. It stands on `ipl_store` for records and sessions; the bytes of a bucket, at
//! most 464, know no chip and no store, and are one spelling of the list of its pairs, by rising
//! keys: no bytes are that of none. A contract sees a `Keys` by its store of records, and says of
//! each call which key state it leads to from each key state that the store keeps (`KeepsKeys`): a
//! map from keys to values, and what each open session wrote. That the store is sound for the chip's
//! number of places is the one condition of all calls: `open` gives it, and each call keeps it.
//!
//! Proved, by `is_bucket`, `find`, `with_pair`, `without`: which bytes are a bucket, and a key looked
//! up, set and removed there; by `bucket_of`, the name of the record in which a key has its bucket;
//! by `spelling_laws`, `pair_laws`, `map_laws` and `home_laws`, what buckets say of a map from keys
//! to values.
//!
//! Proved, by `Keys`'s calls: each is refused exactly where the store is down or its numbers are used
//! up, the key or the value is none, the session is none or isn't open, what the session sees is no
//! bucket, the bucket is full, or the store refuses the write of the changed bytes; it never refuses
//! them for their name or their length. Else a call answers and changes the key state as a map with
//! lists of writes does, or leaves it where it fails, and no record is found to be no bucket; at each
//! moment a power cut leaves the keys before, or in a commit those after it, of one session or of several
//! together. A merge of a unit leaves all keys as they are, and so does a share, by which no other session
//! may write a key of the same bucket. A close is refused
//! exactly where the store is down, its numbers are used up or a session is open; else it keeps the
//! keys, and once it is done the store is down. All this is said of the keys in records of pages that
//! read well, also where others are known not to. By `key_laws`, without a chip: records have one map
//! of keys, and each operation on records is one on keys.
#![tactic(auto)]

mod admitting;
mod bucket_changes;
mod bucket_home;
mod bucket_laws;
mod bucket_limits;
mod bucket_place;
mod bucket_reading;
mod changing;
mod closing;
mod fault;
mod keys;
mod laws;
mod merging;
mod opening;
mod reading;
mod sessions;
mod sharing;

pub use bucket_laws::{home_laws, map_laws, pair_laws, spelling_laws};
pub use fault::KeyFault;
pub use keys::Keys;
pub use laws::key_laws;
