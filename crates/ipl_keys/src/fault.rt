//! Why a call on keys did not do what it was asked. The texts are for a programmer's log; no contract
//! speaks of them.
use ipl_base::StoreFault;
use thiserror::Error;

/// Why a call on keys did not do what it was asked.
#[derive(Clone, Copy, Debug, PartialEq, Eq, Error)]
pub enum KeyFault {
    /// What the store answered.
    #[error("{0}")]
    Store(StoreFault),
    #[error("a key has 1 to 16 bytes")]
    BadKey,
    #[error("a value of more than 200 bytes")]
    LongValue,
    /// The changed bytes of the bucket of this name would pass 464.
    #[error("the bucket {0} is full")]
    BucketFull(u32),
    /// The record of this name is no bucket.
    #[error("the record {0} is no bucket")]
    BadBucket(u32),
}
