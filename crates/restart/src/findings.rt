//! What an opening reads by, and what it fills.
use crate::kept::{Header, Winner};
use crate::noted::Noted;
use crate::numbers::KeptNumbers;
use overflow::Overflow;
use txn_status::Status;
use unit_directory::Directory;

/// What a chip is read for: whether close marks count then, and whether numbers will be drawn.
#[derive(Clone, Copy)]
pub(crate) struct Aim {
    pub(crate) marks: bool,
    pub(crate) draws: bool,
}

/// The header of each place, and of each unit the one that counts.
#[derive(Clone, Copy)]
pub(crate) struct Heads<'a> {
    pub(crate) all: &'a [Option<Header>],
    pub(crate) current: &'a [Option<Winner>],
}

/// What an opening fills: what is noted of live log sectors, the tables, and the committed numbers
/// that are kept.
#[derive(Drop)]
pub(crate) struct Findings<'a> {
    pub(crate) noted: &'a mut Noted,
    pub(crate) directory: &'a mut Directory,
    pub(crate) overflow: &'a mut Overflow,
    pub(crate) status: &'a mut Status,
    pub(crate) numbers: &'a mut KeptNumbers,
}
