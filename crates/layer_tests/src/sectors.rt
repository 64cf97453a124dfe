//! Sectors of chips in memory, put there no matter what stood in their place.
ghost use Rattle.std.specs.Prelude.{◌≡◌};

use chip_mem::MemChip;
use chip_trait::Chip;
use ipl_base::{Spot, VERSION};
use sector_format::{Head, encode};
use std::process::Abort;

/// A sector of a chip, and what it says.
pub(crate) type Put<'a> = (Spot, Head, &'a [u8]);

/// The spot of a sector of a place.
pub(crate) fn at(place: u32, sector: u32) -> Spot
    ensures { (result.place ≡ place) × (result.sector ≡ sector) }
{
    Spot { place, sector }
}

/// Puts a sector.
fn put(rt: &impl Abort, chip: &mut MemChip, put: &Put<'_>) {
    let (spot, head, payload) = put;
    let mut bytes = [0; 512];
    assert!(rt; 1 <= head.kind && head.kind <= 7 && payload.len() <= 480);
    assert!(rt; 1 <= head.version && head.version <= VERSION);
    encode(head, payload, &mut bytes);
    assert!(rt; spot.place < chip.units() && spot.sector < 256);
    chip.alter(spot.place, spot.sector, &bytes);
}

/// Puts sectors, one after another.
pub(crate) fn put_all(rt: &impl Abort, chip: &mut MemChip, sectors: &[Put<'_>]) {
    for sector in sectors {
        put(rt, chip, sector);
    }
}
