//! Why a chip can't be checked, or what is wrong with it.
use ipl_base::ImageFault;
use thiserror::Error;

/// What a check of a chip answers in place of a number of records.
#[derive(Clone, Copy, Debug, PartialEq, Eq, Error)]
pub enum CheckFault {
    /// The first thing that is wrong with the chip, or a read that failed.
    #[error("{0}")]
    Image(ImageFault),
    #[error("out of memory")]
    OutOfMemory,
}
