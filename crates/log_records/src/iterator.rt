//! The records of a payload, one by one.
ghost use Rattle.std.specs.Prelude.{◌≡◌};
ghost use Rattle.std.specs.Iterator.{YieldsFirstBy, item_count};
ghost use Rattle.log_records.specs.Reading.{records_of};
ghost use Rattle.log_records.specs.View.{record_of, Versioned};

use crate::Record;
use crate::reading::record_at;
use std::marker::Model;

/// The records of a payload that are left, in order. A contract sees their bytes, and the version
/// by which they are read.
#[derive(Drop)]
pub struct Records<'a> {
    version: u8,
    rest: &'a [u8],
}

impl<'a> Model for Records<'a> {
    ghost Value = { Versioned };

    ghost view = { λ r. record { version = r.version; bytes = r.rest.now } };
}

impl<'a> Records<'a> {
    /// The records that these bytes begin with, in order, as they are read in this version.
    pub(crate) fn over(bytes: &'a [u8], version: u8) -> Records<'a>
        ensures { result ≡ record { version = version; bytes = bytes.entry.now } }
    {
        Records {
            version,
            rest: bytes,
        }
    }
}

impl<'a> Iterator for Records<'a> {
    type Item = Record;

    ghost next_gives = { YieldsFirstBy record_of (λ s. records_of s.version s.bytes) };

    ghost remaining = { item_count (λ s. records_of s.version s.bytes) };

    fn next(&mut self) -> Option<Record> {
        let (record, rest) = record_at(self.rest, self.version)?;
        self.rest = rest;
        Some(record)
    }
}
