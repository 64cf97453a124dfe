//! Where sectors stand: sector 0 is the header, 1 to 240 are base sectors, 241 to 255 are for log records.
ghost use Rattle.std.specs.Prelude.{◌≡◌, ◌≤◌, ◌<◌};
ghost use Rattle.ipl_base.specs.declared.limits.TheConstants.{PAGE_SECTORS};
ghost use Rattle.ipl_format.specs.Place.{base_sector_of, log_sector_of};

use ipl_base::{FIRST_LOG_SECTOR, PAGE_SECTORS};

/// The sector (1 to 240) of a piece (0 to 15) of the text of a page (0 to 14).
pub fn base_sector(page: u32, piece: u32) -> u32
    requires page { page < 15 }
    requires piece { piece < PAGE_SECTORS }
    ensures sector { result ≡ base_sector_of page piece }
    ensures in_range { (1 ≤ result) × (result ≤ 240) }
{
    1 + page * PAGE_SECTORS + piece
}

/// The i-th sector for log records (i from 0 to 14), 241 to 255.
pub fn log_sector(i: u32) -> u32
    requires { i < 15 }
    ensures sector { result ≡ log_sector_of i }
    ensures in_range { (241 ≤ result) × (result ≤ 255) }
{
    FIRST_LOG_SECTOR + i
}
