//! A pending change of a slot.

/// A pending change, lent from a frame: the number of its transaction, and the value of a put (at most
/// 464 bytes), or none for a delete.
#[derive(Clone, Copy)]
pub struct Pending<'a> {
    pub tid: u64,
    pub value: Option<&'a [u8]>,
}
