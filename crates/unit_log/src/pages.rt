//! Which log sectors of a unit name a page.
ghost use Rattle.std.specs.Prelude.{◌≡◌, ◌≤◌, ◌<◌, ◌++◌, ℕ, length, map, slice_index, [], All};
ghost use Rattle.ipl_base.specs.declared.limits.TheConstants.{LIVE_SECTORS};
ghost use Rattle.ipl_meaning.specs.Masks.{has_page, mask_of};
ghost use Rattle.ipl_meaning.specs.Tables.{masks_in};
ghost use Rattle.log_records.specs.Reading.{records_of};
ghost use Rattle.overflow.specs.Lists.{pair_of, spots_in, masks_at, AreWithin};
ghost use Rattle.unit_log.specs.Paged.{home_with, listed_with, page_spots};

use arrayvec::ArrayVec;
use ipl_base::{FIRST_LOG_SECTOR, LIVE_SECTORS, SECTORS, Spot};
use log_records::{Payload, records};
use overflow::Overflow;
use unit_directory::Directory;

/// Which pages the records of a log sector name: bit p is page p's.
pub fn mask_of(payload: &Payload) -> u16
    ensures { result ≡ mask_of (records_of payload.now.version payload.now.bytes) }
{
    // The bytes are a list of records, so each page is one of 15.
    let _ = payload.bytes();
    let mut mask = 0;
    for logged in records(payload) {
        mask |= 1 << logged.page;
    }
    mask
}

/// Whether a mask has a page (0 to 14).
fn has_page(mask: u16, page: u32) -> bool
    requires { page < 15 }
    ensures { result ≡ has_page mask page }
{
    (mask >> page) & 1 == 1
}

/// Puts those log sectors at the unit's place among the spots that name the page.
fn add_home(spots: &mut ArrayVec<Spot, LIVE_SECTORS>, directory: &Directory, unit: u32, page: u32)
    requires unit { unit < length directory.now.current }
    requires page { page < 15 }
    requires none { spots.old.items ≡ [] }
    ensures spots { map pair_of spots.new.items
        ≡ home_with page (slice_index directory.now.current unit) (masks_in directory.now unit) }
    ensures few { length spots.new.items ≤ 15 }
{
    let place = directory.current(unit);
    for sector in FIRST_LOG_SECTOR..SECTORS {
        if has_page(directory.mask(unit, sector), page) {
            spots.push(Spot { place, sector });
        }
    }
}

/// Puts those of its spots in overflow places among them.
fn add_listed(spots: &mut ArrayVec<Spot, LIVE_SECTORS>, overflow: &Overflow, unit: u32, page: u32)
    requires unit { unit < length overflow.now.spots }
    requires page { page < 15 }
    requires few { length spots.old.items ≤ 15 }
    ensures spots { map pair_of spots.new.items ≡ map pair_of spots.old.items
        ++ listed_with page (spots_in overflow.now unit) (masks_at overflow.now unit) }
    ensures few { length spots.new.items ≤ LIVE_SECTORS }
    ensures within { AreWithin overflow.now.places (spots_in overflow.now unit) }
{
    let all = overflow.list(unit);
    let listed = all.as_slice();
    let all_masks = overflow.masks(unit);
    let masks = all_masks.as_slice();
    for i in 0..listed.len() {
        if has_page(masks[i], page) {
            spots.push(listed[i]);
        }
    }
}

/// Where the log sectors of the unit stand that have a record of the page, by the tables.
pub(crate) fn page_spots(
    directory: &Directory,
    overflow: &Overflow,
    unit: u32,
    page: u32,
) -> ArrayVec<Spot, LIVE_SECTORS>
    requires unit { unit < length directory.now.current }
    requires units { length overflow.now.spots ≡ length directory.now.current }
    requires sized { overflow.now.places ≡ length directory.now.in_use }
    requires page { page < 15 }
    ensures spots { map pair_of result.items ≡ page_spots directory.now overflow.now unit page }
    ensures few { length result.items ≤ LIVE_SECTORS }
    ensures within { AreWithin (length directory.now.in_use)
        (page_spots directory.now overflow.now unit page) }
{
    directory.facts();
    let mut spots = ArrayVec::new();
    add_home(&mut spots, directory, unit, page);
    add_listed(&mut spots, overflow, unit, page);
    spots
}
