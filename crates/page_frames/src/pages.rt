//! The frames and the tables of a store.
ghost use Rattle.std.specs.Prelude.{◌≡◌, ◌≤◌, [], length, IfOk};
ghost use Rattle.ipl_base.specs.declared.limits.TheConstants.{LEAST_NUMBERS, STATUS_NUMBERS};
ghost use Rattle.buffer_pool.specs.Pools.{PoolView};

use buffer_pool::Pool;
use ipl_base::{Counter, Geometry, OutOfMemory};
use overflow::Overflow;
use selective_merge::{Active, MergeScratch, Parts};
use std::alloc::Global;
use txn_status::Status;
use unit_directory::Directory;

/// Pages in frames, and the tables of the chip that they are read from and whose log sectors their
/// records go to. Memory is taken by `new` alone.
#[derive(Drop)]
pub struct Pages {
    pub parts: Parts,
    pub pool: Pool,
}

impl Pages {
    /// No page in any of so many frames, at most 64, and empty tables for a chip of this geometry,
    /// with room for so many committed numbers, 120 to 15,300.
    pub fn new(
        alloc: Global,
        geometry: Geometry,
        frames: u32,
        numbers: u32,
    ) -> Result<Pages, OutOfMemory>
        requires few { frames ≤ 64 }
        requires least { LEAST_NUMBERS ≤ numbers }
        requires most { numbers ≤ STATUS_NUMBERS }
        ensures directory { IfOk result (λ pages. length pages.parts.directory.in_use
            ≡ geometry.places) }
        ensures overflow { IfOk result (λ pages. pages.parts.overflow.places ≡ geometry.places) }
        ensures numbers { IfOk result (λ pages. pages.parts.status.most ≡ numbers) }
        ensures active { IfOk result (λ pages. pages.parts.active ≡ []) }
        ensures empty { IfOk result (λ pages. pages.pool.buffers.slots ≡ []) }
        ensures limit { IfOk result (λ pages. pages.pool.limit ≡ frames) }
    {
        let parts = Parts {
            directory: Directory::new(alloc, geometry)?,
            overflow: Overflow::new(alloc, geometry)?,
            status: Status::new(alloc, geometry, numbers as usize)?,
            counter: Counter::at(0),
            active: Active::none(),
            scratch: MergeScratch::new(alloc)?,
        };
        let pool = Pool::new(alloc, frames)?;
        Ok(Pages { parts, pool })
    }
}
