//! Why calls are refused, and how they fail. The texts are for a programmer's log; no contract speaks of them.
use std::alloc::AllocError;
use thiserror::Error;

/// Memory was wanting.
#[derive(Clone, Copy, Debug, PartialEq, Eq, Error)]
#[error("out of memory")]
pub struct OutOfMemory;

/// Why a command is refused. A refusal changes nothing.
#[derive(Clone, Copy, Debug, PartialEq, Eq, Error)]
pub enum Refusal {
    #[error("no such session")]
    BadSession,
    #[error("no such name")]
    BadName,
    #[error("a value of more than 464 bytes")]
    TooLong,
    #[error("the session is open already")]
    AlreadyOpen,
    #[error("the session isn't open")]
    NotOpen,
    #[error("session {0} holds the name")]
    Conflict(u32),
    #[error("the session has written its last name")]
    WritesFull,
    #[error("the session has shared its last name")]
    SharesFull,
    #[error("the pending names of unit {0} would weigh too much")]
    PendingFull(u32),
    #[error("no such unit or page")]
    BadUnit,
    #[error("all frames but one are held")]
    HoldsFull,
    #[error("the page isn't held")]
    NotHeld,
    #[error("the page is full")]
    PageFull,
    #[error("session {0} is named twice")]
    Twice(u32),
    #[error("session {0} is open")]
    SessionsOpen(u32),
}

/// What a chip did not do, or what it held that it must not hold.
#[derive(Clone, Copy, Debug, PartialEq, Eq, Error)]
pub enum ChipFault {
    #[error("chip read failed")]
    ReadFault,
    #[error("chip write failed")]
    Stopped,
    #[error("damaged place {place} sector {sector} stored {stored:08x} computed {computed:08x}")]
    Damaged {
        place: u32,
        sector: u32,
        stored: u32,
        computed: u32,
    },
    #[error("malformed place {place} sector {sector}")]
    Malformed {
        place: u32,
        sector: u32,
    },
    /// So many places were found worn, and no other one may be taken.
    #[error("worn out {0}")]
    WornOut(u32),
}

/// Why an image can't be opened, in the order in which the causes are tried.
#[derive(Clone, Copy, Debug, PartialEq, Eq, Error)]
pub enum ImageFault {
    #[error("geometry")]
    Geometry,
    #[error("not formatted")]
    NotFormatted,
    #[error("missing unit {0}")]
    Missing(u32),
    #[error("{0}")]
    Chip(ChipFault),
    #[error("numbers spent")]
    Spent,
    #[error("no spare {0}")]
    NoSpare(u32),
    /// More numbers are committed in the status place than this opening has room for in memory. It is
    /// about both, and none of the faults that an image has by itself.
    #[error("too many numbers")]
    TooManyNumbers,
}

/// Why a store did not do what it was asked.
#[derive(Clone, Copy, Debug, PartialEq, Eq, Error)]
pub enum StoreFault {
    #[error("the store is down until it is opened again")]
    Down,
    #[error("numbers spent")]
    Spent,
    #[error("{0}")]
    Refused(Refusal),
    #[error("{0}")]
    Chip(ChipFault),
}

/// Why a chip can't be formatted.
#[derive(Clone, Copy, Debug, PartialEq, Eq, Error)]
pub enum FormatFault {
    #[error("geometry")]
    Geometry,
    #[error("chip write failed")]
    Stopped,
    /// This place is worn.
    #[error("worn place {0}")]
    Worn(u32),
}

impl From<AllocError> for OutOfMemory {
    ghost from_gives = { λ fault made. Unit {0} };

    fn from(_fault: AllocError) -> OutOfMemory {
        OutOfMemory
    }
}

impl From<ChipFault> for ImageFault {
    ghost use Rattle.std.specs.Prelude.{◌≡◌};
    ghost use Rattle.ipl_base.specs.declared.fault.ImageFault.TheVariants.{Chip};

    ghost from_gives = { λ fault made. made ≡ Chip fault };

    fn from(fault: ChipFault) -> ImageFault {
        ImageFault::Chip(fault)
    }
}

impl From<ChipFault> for StoreFault {
    ghost use Rattle.std.specs.Prelude.{◌≡◌};
    ghost use Rattle.ipl_base.specs.declared.fault.StoreFault.TheVariants.{Chip};

    ghost from_gives = { λ fault made. made ≡ Chip fault };

    fn from(fault: ChipFault) -> StoreFault {
        StoreFault::Chip(fault)
    }
}

impl From<Refusal> for StoreFault {
    ghost use Rattle.std.specs.Prelude.{◌≡◌};
    ghost use Rattle.ipl_base.specs.declared.fault.StoreFault.TheVariants.{Refused};

    ghost from_gives = { λ refusal made. made ≡ Refused refusal };

    fn from(refusal: Refusal) -> StoreFault {
        StoreFault::Refused(refusal)
    }
}
