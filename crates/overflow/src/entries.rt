//! The log sectors in overflow places, one entry each: those of a unit beside one another, and the
//! units in their order.
ghost use Rattle.std.specs.Prelude.{◌≡◌, ◌≤◌, ◌<◌, ◌+◌, length, map, take, drop, slice_range};
ghost use Rattle.std.specs.List.{remove_range};
ghost use Rattle.bounded_vec.specs.Bounded.{with_items};
ghost use Rattle.ipl_base.specs.declared.limits.TheConstants.{OVERFLOW_SECTORS};
ghost use Rattle.overflow.specs.Lists.{pair_of, names_place};
ghost use Rattle.overflow.specs.Parted.{total, mask_of, spot_of};

use arrayvec::ArrayVec;
use bounded_vec::BoundedVec;
use ipl_base::{OVERFLOW_SECTORS, Spot};

/// A log sector in an overflow place, in six bytes: where it stands, and which pages it names.
/// Places are below 1028, and sectors below 256.
#[derive(Clone, Copy, Debug, Default, PartialEq, Eq)]
pub struct Entry {
    place: u16,
    sector: u16,
    mask: u16,
}

impl Entry {
    /// The one at a spot, which names these pages.
    pub fn of(spot: Spot, mask: u16) -> Entry
        requires place { spot.place < 65536 }
        requires sector { spot.sector < 65536 }
        ensures spot { spot_of result ≡ pair_of spot }
        ensures mask { result.mask ≡ mask }
    {
        Entry {
            place: spot.place as u16,
            sector: spot.sector as u16,
            mask,
        }
    }
}

/// How many entries the first units have together.
pub(crate) fn first_of(counts: &[u8], units: usize) -> usize
    requires units { units ≤ length counts.now }
    requires small { total counts.now < 65536 }
    ensures { result ≡ total (take units counts.now) }
{
    let mut first: usize = 0;
    for unit in 0..units {
        first += usize::from(counts[unit]);
    }
    first
}

/// Where so many of them stand, from one on.
pub(crate) fn spots_in(
    entries: &[Entry],
    from: usize,
    count: usize,
) -> ArrayVec<Spot, OVERFLOW_SECTORS>
    requires within { from + count ≤ length entries.now }
    requires few { count ≤ OVERFLOW_SECTORS }
    ensures spots { map pair_of result.items ≡ take count (drop from (map spot_of entries.now)) }
    ensures count { length result.items ≡ count }
{
    let mut spots = ArrayVec::new();
    for i in 0..count {
        let entry = entries[from + i];
        spots.push(Spot {
            place: u32::from(entry.place),
            sector: u32::from(entry.sector),
        });
    }
    spots
}

/// Which pages each of these names.
pub(crate) fn masks_in(
    entries: &[Entry],
    from: usize,
    count: usize,
) -> ArrayVec<u16, OVERFLOW_SECTORS>
    requires within { from + count ≤ length entries.now }
    requires few { count ≤ OVERFLOW_SECTORS }
    ensures masks { result.items ≡ take count (drop from (map mask_of entries.now)) }
    ensures count { length result.items ≡ count }
{
    let mut masks = ArrayVec::new();
    for i in 0..count {
        masks.push(entries[from + i].mask);
    }
    masks
}

/// Takes so many out, from one on; those behind them move up.
pub(crate) fn cut(entries: &mut BoundedVec<Entry>, from: usize, count: usize)
    requires { from + count ≤ length entries.old.items }
    ensures { entries.new ≡ with_items entries.old (remove_range entries.old.items from (from + count)) }
{
    let left = entries.len() - count;
    entries.as_mut_slice().copy_within(from + count.., from);
    entries.truncate(left);
}

/// Whether one of them stands in a place.
pub(crate) fn is_named(entries: &[Entry], place: u32) -> bool
    ensures { result ≡ names_place place (map spot_of entries.now) }
{
    for entry in entries {
        if u32::from(entry.place) == place {
            return true;
        }
    }
    false
}
