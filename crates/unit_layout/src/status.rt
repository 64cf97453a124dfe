//! The payload of a status header.
ghost use Rattle.std.specs.Prelude.{◌≡◌, ◌≤◌, ◌+◌, ◌*◌, ◌++◌, ℕ, List, IfSome, IfNone, take, length};
ghost use Rattle.std.specs.List.{flat_map};
ghost use Rattle.ipl_base.specs.declared.limits.TheConstants.{MOST_SPARES, VERSION};
ghost use Rattle.ipl_format.specs.Numbers.{word};
ghost use Rattle.ipl_format.specs.Header.{AreRetired, SpellsStatusHeader};
ghost use Rattle.unit_layout.specs.Header.{SpellsStatus};
ghost use Rattle.unit_layout.specs.Retired.{is_status_length, listed_bytes, may_be_retired, retired_in, rise_within, words_in};

use crate::words::{erases_at, write_word};
use ipl_base::{MOST_SPARES, RESERVED_PLACES, VERSION};
use ipl_format::word_at;

/// What a status header says beside the places that are retired. The table is in docs/FORMAT.md,
/// "Header payloads".
#[derive(Clone, Copy, Debug, PartialEq, Eq)]
pub struct StatusHeader {
    /// How many units the chip holds.
    pub units: u32,
    /// How often its place was erased.
    pub erases: u32,
}

// Writes places one after the other, behind the first nine bytes.
fn write_places(places: &[u32], out: &mut [u8; 265])
    requires { length places.now ≤ MOST_SPARES }
    ensures { take (9 + 4 * length places.now) out.new ≡ take 9 out.old ++ flat_map word places.now }
{
    for i in 0..places.len() {
        write_word(places[i], 9 + 4 * i, out);
    }
}

/// Writes the payload of a status header that lists these places, in the version of all that is
/// written, and answers how many bytes it has. On each chip that may have retired them they say
/// so.
pub fn write_status_header(header: &StatusHeader, retired: &[u32], out: &mut [u8; 265]) -> usize
    requires { length retired.now ≤ MOST_SPARES }
    ensures size { result ≡ 9 + 4 * length retired.now }
    ensures spells { (places : ℕ) → AreRetired VERSION places header.now.units retired.now
        → SpellsStatus VERSION places header.now retired.now (take result out.new) }
{
    write_word(header.units, 0, out);
    write_word(header.erases, 4, out);
    out[8] = retired.len() as u8;
    write_places(retired, out);
    9 + 4 * retired.len()
}

// Whether the payload has as many bytes as it says.
fn is_status_length(payload: &[u8], version: u8) -> bool
    ensures { result ≡ is_status_length version payload.now }
{
    if version < VERSION {
        return payload.len() == 4;
    }
    payload.len() > 8 && payload.len() == 9 + 4 * usize::from(payload[8])
}

// The bytes of the places that it lists.
fn listed(payload: &[u8], version: u8) -> &[u8]
    ensures { result.now ≡ listed_bytes version payload.now }
{
    if version < VERSION || payload.len() < 9 {
        return &[];
    }
    &payload[9..]
}

// Whether the places in these bytes rise, and are the chip's.
fn rise_within(places: u32, bytes: &[u8]) -> bool
    ensures { result ≡ rise_within places 0 (words_in bytes.now) }
{
    let mut least = 0;
    for i in 0..bytes.len() / 4 {
        let place = word_at(bytes, 4 * i);
        if place < least || places <= place {
            return false;
        }
        least = place + 1;
    }
    true
}

// Whether a chip of so many places that keeps so many units may have retired these.
fn may_be_retired(places: u32, units: u32, bytes: &[u8]) -> bool
    ensures { result ≡ may_be_retired places units (words_in bytes.now) }
{
    if !rise_within(places, bytes) {
        return false;
    }
    let count = bytes.len() / 4;
    count <= MOST_SPARES as usize
        && count + units as usize + RESERVED_PLACES as usize <= places as usize
}

/// What a status header's payload says, by the version of its sector, on a chip of so many places;
/// `None` exactly where it isn't one: another length than 4, from version 3 on than 9 and 4 for
/// each retired place, places that don't rise or aren't the chip's, or more of them, with the
/// units, than the chip has room for.
pub fn read_status_header(payload: &[u8], version: u8, places: u32) -> Option<StatusHeader>
    ensures some { IfSome result (λ header.
        SpellsStatus version places header (retired_in version payload.now) payload.now) }
    ensures none { IfNone result ((units : ℕ)
        → SpellsStatusHeader version places units payload.now → ⊥) }
{
    if !is_status_length(payload, version) {
        return None;
    }
    let units = word_at(payload, 0);
    if !may_be_retired(places, units, listed(payload, version)) {
        return None;
    }
    Some(StatusHeader {
        units,
        erases: erases_at(payload, 4, version),
    })
}
