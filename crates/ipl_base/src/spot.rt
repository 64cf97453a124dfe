//! Where things are: a record in a unit, a sector on a chip.

/// Where a record lives: its unit, the page in it (0 to 14) and the slot on that (0 to 63).
#[derive(Clone, Copy, Debug, PartialEq, Eq)]
pub struct Home {
    pub unit: u32,
    pub page: u32,
    pub slot: u32,
}

/// A sector (0 to 255) of a place.
#[derive(Clone, Copy, Debug, Default, PartialEq, Eq)]
pub struct Spot {
    pub place: u32,
    pub sector: u32,
}
