//! The sectors of a chip, one after another.
ghost use Rattle.std.specs.Prelude.{◌≡◌, ◌<◌, ◌≤◌, ◌+◌, ◌*◌, ℕ, List, false, length, replicate, IfOk};
ghost use Rattle.chip_trait.specs.declared.event.Event.TheVariants.{Program, Erase};
ghost use Rattle.chip_trait.specs.Story.{after, blank};
ghost use Rattle.chip_mem.specs.Sectors.{HasWholeSectors, contents_of, written_contents};

use ipl_base::{OutOfMemory, SECTORS};
use std::alloc::Global;

/// An erased sector.
pub const BLANK: [u8; 512] = [255; 512];

/// So many erased sectors.
pub(crate) fn erased_sectors(alloc: Global, count: usize) -> Result<Vec<[u8; 512]>, OutOfMemory>
    ensures { IfOk result (λ v. v.items ≡ replicate count BLANK) }
{
    let mut sectors = Vec::with_capacity(alloc, count)?;
    for i in 0..count {
        sectors.push_reserved(BLANK);
    }
    Ok(sectors)
}

/// A copy of the sectors, each of which has 512 bytes.
pub(crate) fn copy_sectors(
    alloc: Global,
    sectors: &[[u8; 512]],
) -> Result<Vec<[u8; 512]>, OutOfMemory>
    ensures items { IfOk result (λ v. v.items ≡ sectors.now) }
    ensures fits { HasWholeSectors (contents_of sectors.now) }
{
    Ok(Vec::from_slice(alloc, sectors)?)
}

/// Erases a place.
pub(crate) fn erase_place(sectors: &mut [[u8; 512]], place: usize)
    requires { place * 256 + 256 ≤ length sectors.old }
    ensures { contents_of sectors.new ≡ after (Erase place) (contents_of sectors.old) }
{
    for s in 0..SECTORS as usize {
        sectors[place * SECTORS as usize + s] = BLANK;
    }
}

/// Programs a sector, 0 to 255, of a place.
pub(crate) fn program_sector(
    sectors: &mut [[u8; 512]],
    place: usize,
    sector: usize,
    bytes: &[u8; 512],
)
    requires place { place * 256 + 256 ≤ length sectors.old }
    requires sector { sector < 256 }
    ensures { contents_of sectors.new ≡ after (Program place sector bytes.now) (contents_of sectors.old) }
{
    sectors[place * SECTORS as usize + sector] = *bytes;
}

/// Reads a sector, 0 to 255, of a place.
pub fn read_sector(sectors: &[[u8; 512]], place: usize, sector: usize, into: &mut [u8; 512])
    requires place { place * 256 + 256 ≤ length sectors.now }
    requires sector { sector < 256 }
    ensures { into.new ≡ contents_of sectors.now place sector }
{
    *into = sectors[place * SECTORS as usize + sector];
}

// ---- sectors of which only those count that were written since their place was erased

/// So many sectors, none of which was written.
pub(crate) fn none_written(alloc: Global, count: usize) -> Result<Vec<bool>, OutOfMemory>
    ensures { IfOk result (λ v. v.items ≡ replicate count false) }
{
    let mut written = Vec::with_capacity(alloc, count)?;
    for i in 0..count {
        written.push_reserved(false);
    }
    Ok(written)
}

/// Erases a place: from now on none of its sectors counts as written, and no byte is set.
pub(crate) fn forget_place(written: &mut [bool], place: usize)
    requires { place * 256 + 256 ≤ length written.old }
    ensures { (sectors : List (List ℕ)) → written_contents written.new sectors
        ≡ after (Erase place) (written_contents written.old sectors) }
{
    for s in 0..SECTORS as usize {
        written[place * SECTORS as usize + s] = false;
    }
}

/// Programs a sector, 0 to 255, of a place.
pub(crate) fn write_sector(
    written: &mut [bool],
    sectors: &mut [[u8; 512]],
    place: usize,
    sector: usize,
    bytes: &[u8; 512],
)
    requires place { place * 256 + 256 ≤ length sectors.old }
    requires written { length written.old ≡ length sectors.old }
    requires sector { sector < 256 }
    ensures { written_contents written.new sectors.new
        ≡ after (Program place sector bytes.now) (written_contents written.old sectors.old) }
{
    let n = place * SECTORS as usize + sector;
    sectors[n] = *bytes;
    written[n] = true;
}

/// Reads a sector, 0 to 255, of a place.
pub(crate) fn read_written(
    written: &[bool],
    sectors: &[[u8; 512]],
    place: usize,
    sector: usize,
    into: &mut [u8; 512],
)
    requires place { place * 256 + 256 ≤ length sectors.now }
    requires written { length written.now ≡ length sectors.now }
    requires sector { sector < 256 }
    ensures { into.new ≡ written_contents written.now sectors.now place sector }
{
    let n = place * SECTORS as usize + sector;
    *into = if written[n] { sectors[n] } else { BLANK };
}
