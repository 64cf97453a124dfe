//! The overflow places in use, each with its first clean sector.
ghost use Rattle.std.specs.Prelude.{◌≡◌, ◌≤◌, ◌<◌, length, map, None};
ghost use Rattle.std.specs.List.{filter};
ghost use Rattle.std.specs.Option.{option_map};
ghost use Rattle.ipl_meaning.specs.Tables.{place_of};
ghost use Rattle.overflow.specs.Lists.{pair_of, first_of, left_of, listed, clean_behind, lower_spot, first_spot, names_place, as_used};
ghost use Rattle.overflow.specs.Parted.{spot_of, keeps, leaves};

use crate::entries::{Entry, is_named};
use arrayvec::ArrayVec;
use ipl_base::{OVERFLOW_PLACES, SECTORS, Spot};

/// An overflow place in use, and its first clean sector: 1 to 255, or 256 where it has none.
#[derive(Clone, Copy, Debug, Default, PartialEq, Eq)]
pub struct PlaceInUse {
    pub place: u32,
    pub first: u32,
}

/// The lower of two spots by their places, the second being the first clean sector of a place that
/// may have none.
fn lower_spot(best: Option<Spot>, other: PlaceInUse) -> Option<Spot>
    ensures { option_map pair_of result ≡ lower_spot (option_map pair_of best) (first_of other) }
{
    if other.first >= SECTORS {
        return best;
    }
    match best {
        Some(spot) if spot.place <= other.place => Some(spot),
        _ => Some(Spot {
            place: other.place,
            sector: other.first,
        }),
    }
}

/// The first clean sector of the lowest place that has one.
pub(crate) fn first_spot(places: &[PlaceInUse]) -> Option<Spot>
    ensures { option_map pair_of result ≡ first_spot None (map first_of places.now) }
{
    let mut best = None;
    for place in places {
        best = lower_spot(best, *place);
    }
    best
}

/// The place as it is once the spot is used: where the spot stands in it, only the sectors behind
/// the spot are clean, of those that were.
fn used(it: PlaceInUse, spot: Spot) -> PlaceInUse
    requires { spot.sector < 256 }
    ensures { first_of result ≡ clean_behind spot.place spot.sector (first_of it) }
{
    if it.place != spot.place {
        return it;
    }
    PlaceInUse {
        place: it.place,
        first: it.first.max(spot.sector + 1),
    }
}

/// Takes the spot, and what stands before it in its place, out of the clean sectors.
pub fn use_spot(places: &mut [PlaceInUse], spot: Spot)
    requires { spot.sector < 256 }
    ensures { map first_of places.new
        ≡ map (clean_behind spot.place spot.sector) (map first_of places.old) }
{
    for place in places.iter_mut() {
        *place = used(*place, spot);
    }
}

/// No sector of these places is known clean any more.
pub(crate) fn use_all(places: &mut [PlaceInUse])
    ensures { map first_of places.new ≡ map as_used (map first_of places.old) }
{
    for place in places.iter_mut() {
        *place = PlaceInUse {
            place: place.place,
            first: SECTORS,
        };
    }
}

/// Whether one of them is this place.
pub(crate) fn has_place(places: &[PlaceInUse], place: u32) -> bool
    ensures { result ≡ names_place place (map first_of places.now) }
{
    for it in places {
        if it.place == place {
            return true;
        }
    }
    false
}

/// The place, where no entry is of it.
fn left_of(entries: &[Entry], place: Option<&PlaceInUse>) -> Option<u32>
    ensures { result ≡ left_of (map spot_of entries.now) (option_map (λ it. it.now.place) place.entry) }
{
    let it = place?;
    if is_named(entries, it.place) {
        return None;
    }
    Some(it.place)
}

/// Of at most two places those that no entry is of.
pub(crate) fn places_left(entries: &[Entry], places: &[PlaceInUse]) -> [Option<u32>; 2]
    requires { length places.now ≤ 2 }
    ensures { listed result
        ≡ filter (leaves (map spot_of entries.now)) (map place_of (map first_of places.now)) }
{
    [
        left_of(entries, places.first()),
        left_of(entries, places.get(1)),
    ]
}

/// Keeps the places that an entry is of.
pub(crate) fn keep_named(entries: &[Entry], places: &mut ArrayVec<PlaceInUse, OVERFLOW_PLACES>)
    requires { length places.old.items ≤ 2 }
    ensures named { map first_of places.new.items
        ≡ filter (keeps (map spot_of entries.now)) (map first_of places.old.items) }
    ensures few { length places.new.items ≤ 2 }
{
    let mut kept = ArrayVec::new();
    for place in places.as_slice() {
        if is_named(entries, place.place) {
            kept.push(*place);
        }
    }
    *places = kept;
}
