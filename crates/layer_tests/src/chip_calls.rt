//! What tests ask of a chip, whatever it is kept in.
use chip_trait::{Chip, Wear};
use std::process::Abort;

/// Programs a sector with 512 times this byte; whether that went well.
pub(crate) fn programs<C: Chip>(
    rt: &impl Abort,
    chip: &mut C,
    place: u32,
    sector: u32,
    byte: u8,
) -> bool {
    assert!(rt; place < chip.units() && sector < 256);
    chip.program(place, sector, &[byte; 512]).is_ok()
}

/// Erases a place; whether that went well.
pub(crate) fn erases<C: Chip>(rt: &impl Abort, chip: &mut C, place: u32) -> bool {
    assert!(rt; place < chip.units());
    matches!(chip.erase(place), Ok(Wear::Done))
}

/// The first and the last byte of a sector, where it can be read.
pub(crate) fn ends<C: Chip>(
    rt: &impl Abort,
    chip: &mut C,
    place: u32,
    sector: u32,
) -> Option<(u8, u8)> {
    assert!(rt; place < chip.units() && sector < 256);
    let mut bytes = [0; 512];
    if chip.read(place, sector, &mut bytes).is_err() {
        return None;
    }
    Some((bytes[0], bytes[511]))
}
