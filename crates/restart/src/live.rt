//! Which log sectors are live, and the greatest number in one.
ghost use Rattle.std.specs.Prelude.{◌≡◌, ◌<◌, ◌≤◌, ℕ, List, true, map, length, Some};
ghost use Rattle.ipl_base.specs.declared.limits.TheConstants.{PAYLOAD_LEN};
ghost use Rattle.sector_format.specs.Decode.{sector_of};
ghost use Rattle.ipl_meaning.specs.Masks.{mask_of};
ghost use Rattle.log_records.specs.Reading.{records_of};
ghost use Rattle.ipl_meaning.specs.First.{at, greatest_of};
ghost use Rattle.ipl_meaning.specs.Payloads.{is_log_payload, tid_of};
ghost use Rattle.ipl_meaning.specs.Live.{is_at, is_generation, is_log_spot, is_overflow_place, is_place_of, is_live};
ghost use Rattle.ipl_meaning.specs.Faults.{log_number};

use crate::findings::Heads;
use crate::kept::{Header, Winner};
use ipl_base::FIRST_LOG_SECTOR;
use log_records::{Payload, is_list, records};
use sector_format::Head;
use unit_log::mask_of;

/// Whether the place is an overflow place.
pub(crate) fn is_overflow_place(heads: &[Option<Header>], place: u32) -> bool
    requires { place < length heads.now }
    ensures { result ≡ is_overflow_place (at heads.now place) }
{
    match heads[place as usize] {
        Some(header) => header.is_overflow(),
        None => false,
    }
}

fn current_of(current: &[Option<Winner>], unit: u32) -> Option<Winner>
    ensures { result ≡ at current.now unit }
{
    if (unit as usize) < current.len() {
        current[unit as usize]
    } else {
        None
    }
}

fn is_at(winner: Option<Winner>, place: u32) -> bool
    ensures { result ≡ is_at winner place }
{
    match winner {
        Some(winner) => winner.place() == place,
        None => false,
    }
}

fn is_generation(winner: Option<Winner>, generation: u64) -> bool
    ensures { result ≡ is_generation winner generation }
{
    match winner {
        Some(winner) => winner.header().generation() == generation,
        None => false,
    }
}

/// Whether log sectors may stand at this number of a place.
pub(crate) fn may_hold_log(heads: &Heads<'_>, place: u32, sector: u32) -> bool
    requires { place < length heads.now.all.now }
    ensures { result ≡ is_log_spot (at heads.now.all.now) (at heads.now.current.now) place sector }
{
    match heads.all[place as usize] {
        Some(header) => {
            (header.is_overflow() && 1 <= sector)
                || (header.is_data()
                    && FIRST_LOG_SECTOR <= sector
                    && is_at(current_of(heads.current, header.unit()), place))
        }
        None => false,
    }
}

/// Whether log sectors of the unit may stand in a place.
fn is_place_of(heads: &[Option<Header>], place: u32, unit: u32) -> bool
    requires { place < length heads.now }
    ensures { result ≡ is_place_of (at heads.now place) unit }
{
    match heads[place as usize] {
        Some(header) => header.is_overflow() || header.unit() == unit,
        None => false,
    }
}

/// Whether a log sector with this head, in this place, is live.
pub(crate) fn is_live(heads: &Heads<'_>, place: u32, head: &Head) -> bool
    requires { place < length heads.now.all.now }
    ensures { (payload : List ℕ) → result
        ≡ is_live (at heads.now.all.now) (at heads.now.current.now) place (sector_of head.now payload) }
{
    is_place_of(heads.all, place, head.unit)
        && is_generation(current_of(heads.current, head.unit), head.generation)
}

/// Whether the payload is a list of records, by the version of its sector.
pub(crate) fn is_log_payload(payload: &[u8], version: u8) -> bool
    ensures { result ≡ is_log_payload version payload.now }
{
    is_list(payload, version)
}

/// Which pages the records of a log sector name: bit p is page p's.
pub(crate) fn pages_of(payload: &[u8], version: u8) -> u16
    requires list { is_log_payload version payload.now ≡ true }
    requires fits { length payload.now ≤ PAYLOAD_LEN }
    ensures { result ≡ mask_of (records_of version payload.now) }
{
    mask_of(&Payload::of(payload, version))
}

/// The greatest transaction number in a list of records, and at least this.
fn greatest_tid(payload: &[u8], version: u8, least: u64) -> u64
    requires list { is_log_payload version payload.now ≡ true }
    requires fits { length payload.now ≤ PAYLOAD_LEN }
    ensures { result ≡ greatest_of least (map tid_of (records_of version payload.now)) }
{
    let payload = Payload::of(payload, version);
    let mut greatest = least;
    for record in records(&payload) {
        greatest = greatest.max(record.tid);
    }
    greatest
}

/// The greatest number in a log sector.
pub(crate) fn log_number(head: &Head, payload: &[u8]) -> u64
    requires { length payload.now ≤ PAYLOAD_LEN }
    ensures { result ≡ log_number (Some (sector_of head.now payload.now)) }
{
    let own = head.generation.max(head.serial);
    if is_log_payload(payload, head.version) {
        greatest_tid(payload, head.version, own)
    } else {
        own
    }
}
