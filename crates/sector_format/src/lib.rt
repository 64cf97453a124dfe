//! Sectors of 512 bytes: a head of 32 bytes with a sum, and a payload of at most 480. It stands on
//! the formats of `ipl_format`, and takes the sum from `crc_sum`. A contract sees the bytes of a
//! sector as the spelling of what it says, and any 512 bytes as what they say, or why they say
//! nothing.
//!
//! Proved, by `encode`, `decode`: encoding spells the sector; decoding says what the bytes say,
//! and why not. By `encode_by`, `decode_by`, `tail_of`: the same, where what a payload brings into
//! the sum is known, as of one that is moved.
#![tactic(auto)]

mod decoding;
mod encoding;
mod laws;
mod reading;
mod sector;

pub use decoding::{decode, decode_by};
pub use encoding::{encode, encode_by};
pub use laws::decode_laws;
pub use reading::{payload_in, tail_of};
pub use sector::{Decoded, Head};
