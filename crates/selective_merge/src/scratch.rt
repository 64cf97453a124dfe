//! The memory of one merge.
ghost use Rattle.std.specs.Prelude.{◌≡◌, [], IfOk};

use crate::home::HomeHeader;
use crate::log::Offsets;
use crate::packs::Packs;
use ipl_base::OutOfMemory;
use sector_format::Head;
use std::alloc::Global;
use unit_log::Scratch;

/// The memory of one merge: where the unit stands, its log sectors as they are read, where their
/// records stand, and those that are carried. What a call leaves there says nothing. Memory is taken
/// by `new` alone.
#[derive(Drop)]
pub struct MergeScratch {
    pub home: HomeHeader,
    pub sectors: Scratch,
    pub offsets: Offsets,
    pub packs: Packs,
}

impl MergeScratch {
    /// Nothing is in it yet.
    pub fn new(alloc: Global) -> Result<MergeScratch, OutOfMemory>
        ensures sectors { IfOk result (λ scratch. scratch.sectors ≡ []) }
        ensures packs { IfOk result (λ scratch. scratch.packs.closed.items ≡ []) }
    {
        let head = Head::written(Head::DATA_HEADER, 0, 0, 0);
        let home = HomeHeader {
            place: 0,
            head,
            pieces: [0; 15],
        };
        let sectors = Scratch::new(alloc)?;
        let offsets = Offsets::new(alloc)?;
        let packs = Packs::new(alloc)?;
        Ok(MergeScratch {
            home,
            sectors,
            offsets,
            packs,
        })
    }
}
