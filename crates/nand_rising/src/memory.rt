//! A chip over a part in memory.
ghost use Rattle.std.specs.Prelude.{◌≡◌, ◌≤◌, ◌*◌, ◌/◌, is_some, IfOk, IfSome};
ghost use Rattle.chip_mem.specs.Sectors.{erased};
ghost use Rattle.chip_mem.specs.Tells.{telling_contents};
ghost use Rattle.nand_rising.specs.Shapes.{is_served, blocks_per_place};
ghost use Rattle.nand_rising.specs.Views.{rising_told_of};

use crate::chip::Rising;
use crate::mem_pages::MemPages;
use crate::shape::{Shape, is_served};
use crate::shaped::Shaped;
use crate::strict::Strict;
use ipl_base::OutOfMemory;
use std::alloc::Global;

/// A chip over an erased part in memory of this shape, of at most 256 chunks a block, which holds it to
/// the order of its pages. It tells that it is erased. None where slots can't stand on such a part.
pub fn in_memory(
    alloc: Global,
    shape: Shape,
) -> Result<Option<Rising<Shaped<Strict<MemPages>>>>, OutOfMemory>
    requires { shape.pages * shape.chunks ≤ 256 }
    ensures served { IfOk result (λ made. is_some made ≡ is_served shape) }
    ensures told { IfOk result (λ made. IfSome made (λ chip. rising_told_of chip
        ≡ telling_contents (shape.blocks / blocks_per_place shape) erased)) }
{
    if !is_served(shape) {
        return Ok(None);
    }
    let pages = Strict::new(alloc, MemPages::new(alloc, shape)?)?;
    match Shaped::new(pages) {
        Some(part) => Ok(Some(Rising::new(alloc, part)?)),
        None => Ok(None),
    }
}
