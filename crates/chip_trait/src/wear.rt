//! What an erase answers.

/// A place was erased; or it is worn: it holds what it held, and none of that is sure to last.
#[derive(Clone, Copy, Debug, PartialEq, Eq)]
pub enum Wear {
    Done,
    Worn,
}
