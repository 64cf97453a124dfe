//! Where a unit stands.
use sector_format::Head;

/// The place of a unit, the head of its header, and how many base sectors each of its pages has
/// there, 0 to 16.
#[derive(Clone, Copy)]
pub struct HomeHeader {
    pub place: u32,
    pub head: Head,
    pub pieces: [u8; 15],
}
