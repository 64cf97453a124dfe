//! The numbers of a chip's geometry and of a store's bounds, which the formats and all tables share.

/// The sectors of a place: its header, 240 base sectors and 15 log sectors.
pub const SECTORS: u32 = 256;

/// The bytes of a sector behind its head of 32 bytes.
pub const PAYLOAD_LEN: usize = 480;

/// The version of all that is written.
pub const VERSION: u8 = 3;

/// The bytes of a value, at most.
pub const VALUE_LEN: usize = 464;

/// The bytes of a value in what is written in version 1, at most; a write of more is long.
pub const SHORT_LEN: usize = 108;

/// The bytes that a value takes in the text of its page, at most, where its write isn't long.
pub const SHORT_SIZE: usize = 111;

/// The bytes of a log record before its value.
pub const RECORD_HEAD: usize = 12;

/// The places of a chip that can be used, at least.
pub const LEAST_PLACES: u32 = 5;

/// The places of a chip that can be used, at most.
pub const MOST_PLACES: u32 = 1028;

/// The places of a chip that are no unit's: the status place, two overflow places, one to write anew.
pub const RESERVED_PLACES: u32 = 4;

/// The places of a chip that are kept for those that wear out, at most.
pub const MOST_SPARES: u32 = 64;

/// The units of a chip, at most.
pub const MOST_UNITS: u32 = 1024;

/// The pages of a unit.
pub const PAGES: u32 = 15;

/// The slots of a page.
pub const SLOTS: u32 = 64;

/// The names that live in a unit, one in each slot of its pages.
pub const UNIT_NAMES: u32 = 960;

/// The base sectors of a page, at most.
pub const PAGE_SECTORS: u32 = 16;

/// The bytes of a page's text, at most: what its base sectors hold.
pub const PAGE_LEN: usize = 7680;

/// The first log sector of a unit's place.
pub const FIRST_LOG_SECTOR: u32 = 241;

/// The log sectors of a unit's place.
pub const LOG_SECTORS: u32 = 15;

/// The log sectors that a merge carries over, at most.
pub const CARRIED_SECTORS: usize = 12;

/// The log sectors that a unit has in overflow places, at most.
pub const OVERFLOW_SECTORS: usize = 16;

/// The live log sectors of a unit, at most: those of its place and those in overflow places.
pub const LIVE_SECTORS: usize = 31;

/// The records in the live log sectors of a unit, at most: 40 without a value in each.
pub const LIVE_RECORDS: usize = 1240;

/// The most carried sectors with which a unit is merged; with more it is given an overflow sector.
pub const MERGE_THRESHOLD: u32 = 7;

/// The overflow places in use, at most.
pub const OVERFLOW_PLACES: usize = 2;

/// The sessions of a store of all units.
pub const SESSIONS: u32 = 32;

/// What a name weighs on which a long write is pending; with short ones alone it weighs 1.
pub const LONG_WEIGHT: u32 = 8;

/// What the names of a unit weigh that open sessions wrote, at most, all sessions together.
pub const PENDING_WEIGHT: u32 = 48;

/// The names that a session wrote, at most; and those that it shares.
pub const SESSION_NAMES: usize = 256;

/// The numbers in a commit sector, at most.
pub const COMMIT_NUMBERS: usize = 60;

/// The numbers in the commit sectors of a status place, at most: 60 in each of 255.
pub const STATUS_NUMBERS: usize = 15_300;

/// The committed numbers that a store has room for in memory, at least: those of one commit sector that is
/// kept, and those of one commit more.
pub const LEAST_NUMBERS: usize = 120;

/// The numbers that a switch of the status place keeps, at most.
pub const KEPT_NUMBERS: usize = 3840;

/// The pages that a buffer pool holds, at most.
pub const FRAMES: usize = 64;

/// The first number with which an image is spent: a store that has found it isn't opened.
pub const FIRST_SPENT: u64 = 1 << 63;

/// The last number that is drawn for a command: what a call draws beyond it still fits 64 bits.
pub const LAST_NUMBER: u64 = 18_446_744_073_708_503_040;
