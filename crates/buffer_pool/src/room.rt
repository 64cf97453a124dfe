//! Whether a frame is free, or which page may leave its frame.
ghost use Rattle.std.specs.Prelude.{◌≡◌};
ghost use Rattle.buffer_pool.specs.Rooms.{older};

use crate::pool::Buffer;

/// Whether a frame is free; or else a page (unit and page) without a pin; or else all have pins.
#[derive(Clone, Copy, Debug, PartialEq, Eq)]
pub enum Room {
    Free,
    Victim(u32, u32),
    AllPinned,
}

/// A page without a pin, and when it was last used.
#[derive(Clone, Copy)]
pub struct Oldest {
    pub unit: u32,
    pub page: u32,
    pub used: u64,
}

/// The one that was used longer ago: this one or the buffer's page, where that has no pin.
pub(crate) fn older(oldest: Option<Oldest>, buffer: &Buffer) -> Option<Oldest>
    ensures { result ≡ older oldest buffer.now }
{
    if buffer.pins != 0 {
        return oldest;
    }
    let own = Oldest {
        unit: buffer.unit,
        page: buffer.page,
        used: buffer.used,
    };
    match oldest {
        Some(other) if other.used <= buffer.used => Some(other),
        _ => Some(own),
    }
}
