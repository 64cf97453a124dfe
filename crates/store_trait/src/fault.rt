//! Why a store's work doesn't succeed.
use ipl_base::{ChipFault, ImageFault};

/// A store's work didn't succeed: the chip failed or held what it must not, the image couldn't be opened again, or the
/// numbers are used up.
#[derive(Clone, Copy, Debug, PartialEq, Eq)]
pub enum Fault {
    Chip(ChipFault),
    Image(ImageFault),
    Spent,
}
