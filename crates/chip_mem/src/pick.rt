//! What a power cut is made to leave of a sector.

/// What a power cut leaves of a sector that may be torn.
#[derive(Clone, Copy, Debug, PartialEq, Eq)]
pub enum Choice {
    /// What it held at the last barrier, or at the start.
    Old,
    /// What it held after the event of this number, one of those since the last barrier. The oldest event of all is 0.
    After(u64),
    /// Any bytes.
    Bytes([u8; 512]),
}

/// A sector that may be torn, and what a power cut leaves of it.
#[derive(Clone, Copy, Debug, PartialEq, Eq)]
pub struct Pick {
    pub place: u32,
    pub sector: u32,
    pub choice: Choice,
}
