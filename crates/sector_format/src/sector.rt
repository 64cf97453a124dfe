//! What a sector's head says, and what 512 bytes may be.
ghost use Rattle.std.specs.Prelude.{◌≡◌};
ghost use Rattle.sector_format.specs.Written.{written_head};

use ipl_base::VERSION;

/// The numbers of a sector's head. The table is in docs/FORMAT.md, "The sector".
#[derive(Clone, Copy, Debug, PartialEq, Eq)]
pub struct Head {
    /// One of the seven kinds that are named below.
    pub kind: u8,
    /// The version of the format by which its payload is read, from 1 to `VERSION`.
    pub version: u8,
    /// The logical unit; 0 in what is of no unit.
    pub unit: u32,
    /// Which writing of its place the sector belongs to.
    pub generation: u64,
    /// Its age among those of its kind; in a base sector, the page and the piece that it holds.
    pub serial: u64,
}

// The kinds of sector.
impl Head {
    /// Sector 0 of a unit's place.
    pub const DATA_HEADER: u8 = 1;

    /// Sector 0 of the place of commit sectors.
    pub const STATUS_HEADER: u8 = 2;

    /// Sector 0 of a place for log sectors of any unit.
    pub const OVERFLOW_HEADER: u8 = 3;

    /// A piece of a page's text.
    pub const BASE: u8 = 4;

    /// Log records.
    pub const LOG: u8 = 5;

    /// Numbers of committed transactions.
    pub const COMMIT: u8 = 6;

    /// The units of which a clean close knew the unused log sectors.
    pub const MARK: u8 = 7;
}

impl Head {
    /// The head of a sector that is written now, of one of the seven kinds.
    pub fn written(kind: u8, unit: u32, generation: u64, serial: u64) -> Head
        ensures { result ≡ written_head kind unit generation serial }
    {
        Head {
            kind,
            version: VERSION,
            unit,
            generation,
            serial,
        }
    }
}

/// What a sector's bytes are.
#[derive(Clone, Copy, Debug, PartialEq, Eq)]
pub enum Decoded {
    /// All bytes are FF.
    Erased,
    /// The stored sum isn't that of the other bytes.
    Bad { stored: u32, computed: u32 },
    /// The sums agree, and another rule of the format is broken.
    Strange,
    /// A sector that checks: its head, and how many bytes of payload it uses, from byte 32 on.
    Sector(Head, usize),
}
