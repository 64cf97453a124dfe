//! The directory is filled.
ghost use Rattle.std.specs.Prelude.{◌≡◌, ◌<◌, ◌≤◌, ◌+◌, ◌&&◌, ◌||◌, Bool, ℕ, [], true, length, if◌then◌else◌, Option, Some};
ghost use Rattle.ipl_base.specs.declared.limits.TheConstants.{MOST_PLACES};
ghost use Rattle.ipl_base.specs.Places.{KeepsUnits};
ghost use Rattle.ipl_meaning.specs.First.{at, count_below};
ghost use Rattle.ipl_meaning.specs.Chosen.{Winner as Chosen};
ghost use Rattle.ipl_meaning.specs.Live.{is_overflow_place};
ghost use Rattle.restart.specs.Notes.{places_of, holds_one};
ghost use Rattle.restart.specs.Shown.{is_held as is_held_place};
ghost use Rattle.unit_layout.specs.Retired.{may_be_retired};
ghost use Rattle.unit_directory.specs.Free.{spares_of};
ghost use Rattle.restart.specs.Kept.{retired_of};
ghost use Rattle.restart.specs.Filled.{is_home, is_used, erases_by, with_counts, with_aside, with_all_aside, AreUsed, AreErasedAsTold, SameUnits, AreAdopted};
ghost use Rattle.restart.specs.Masked.{NoneNamed};
ghost use Rattle.restart.specs.Counted.{NoneKnown, SameHomes, AreUnitsMarked};
ghost use Rattle.txn_status.specs.Marks.{counting, none_read};
ghost use Rattle.ipl_meaning.specs.Marked.{is_marked_by};

use crate::head_sector::HeadSector;
use crate::kept::{Header, Winner};
use crate::live::is_overflow_place;
use crate::noted::Noted;
use ipl_format::word_at;
use txn_status::LastMark;
use unit_directory::Directory;

/// Gives each unit the place and the generation of its header, with nothing known of its log sectors,
/// and none that names a page. Nothing else is in use then, and no place is retired.
pub(crate) fn adopt_all(directory: &mut Directory, current: &[Option<Winner>])
    requires units { KeepsUnits (length directory.old.in_use) (length current.now) }
    requires places { length directory.old.in_use ≤ MOST_PLACES }
    requires within { (u : ℕ) (winner : Chosen) → at current.now u ≡ Some winner
        → winner.place < length directory.old.in_use }
    ensures adopted { AreAdopted (at current.now) (length current.now) (length current.now) directory.new }
    ensures used { AreUsed (is_home (at current.now) (length current.now)) (length directory.old.in_use)
        (length current.now) directory.new.in_use }
    ensures blank { NoneNamed (length current.now) directory.new }
    ensures unknown { NoneKnown (length current.now) directory.new }
    ensures none { directory.new.retired ≡ [] }
{
    directory.facts();
    directory.set_units(current.len() as u32);
    for unit in 0..current.len() {
        match current[unit] {
            Some(winner) => directory.adopt(unit as u32, winner.place(), winner.generation()),
            None => {}
        }
    }
}

/// The close mark, if marks count; else none.
pub(crate) fn counted(mark: LastMark, marks: bool) -> LastMark
    ensures { result ≡ (if marks then mark else none_read) }
{
    if marks { mark } else { LastMark::none() }
}

/// Whether the close mark has the unit, and came behind its header.
fn is_marked(mark: &LastMark, unit: u32, home: Option<Winner>) -> bool
    ensures { result ≡ is_marked_by (counting mark.now) unit home }
{
    match home {
        Some(winner) => mark.has(unit, winner.header().serial()),
        None => false,
    }
}

/// Notes the units that the close mark has, with none of their log sectors found written yet. That
/// nothing is known of any of these is a condition.
pub(crate) fn mark_units(directory: &mut Directory, current: &[Option<Winner>], mark: &LastMark)
    requires units { length directory.old.current ≡ length current.now }
    requires unknown { NoneKnown (length current.now) directory.old }
    ensures marked { AreUnitsMarked (counting mark.now) (at current.now) (length current.now) directory.new }
    ensures homes { SameHomes directory.old directory.new }
    ensures masks { directory.new.masks ≡ directory.old.masks }
{
    directory.facts();
    for unit in 0..current.len() {
        if is_marked(mark, unit as u32, current[unit]) {
            directory.set_marked(unit as u32, 0);
        }
    }
}

/// Whether the place is an overflow place that holds live log sectors.
pub(crate) fn is_held(heads: &[Option<Header>], noted: &Noted, place: u32) -> bool
    requires heads { place < length heads.now }
    requires places { place < places_of noted.now }
    ensures { result ≡ (is_overflow_place (at heads.now place) && holds_one noted.now place) }
{
    is_overflow_place(heads, place) && noted.holds(place)
}

/// Takes the overflow places that hold live log sectors.
fn take_overflows(directory: &mut Directory, heads: &[Option<Header>], noted: &Noted)
    requires small { length heads.now ≤ MOST_PLACES }
    requires places { length heads.now ≡ length directory.old.in_use }
    requires noted { places_of noted.now ≡ length directory.old.in_use }
    ensures used { (used : ℕ → Bool) (most : ℕ) → AreUsed used (length heads.now) most directory.old.in_use
        → AreUsed (λ p. used p || (is_overflow_place (at heads.now p) && holds_one noted.now p)) (length heads.now)
        (most + count_below (λ p. is_overflow_place (at heads.now p) && holds_one noted.now p) (length heads.now)) directory.new.in_use }
    ensures size { length directory.new.in_use ≡ length directory.old.in_use }
    ensures same { SameUnits directory.old directory.new }
{
    for place in 0..heads.len() {
        let place = place as u32;
        if is_held(heads, noted, place) {
            directory.take(place);
        }
    }
}

/// How often a place with this header was erased: once, where it has none.
fn erases_of(header: Option<Header>) -> u32
    ensures { result ≡ erases_by header }
{
    match header {
        Some(header) => header.erases(),
        None => 1,
    }
}

/// Sets how often each place was erased, as its header says.
fn count_erases(directory: &mut Directory, heads: &[Option<Header>])
    requires small { length heads.now ≤ MOST_PLACES }
    requires places { length heads.now ≡ length directory.old.in_use }
    ensures counted { AreErasedAsTold (at heads.now) (length heads.now) directory.new }
    ensures same { directory.new ≡ with_counts directory.old directory.new.erases }
{
    directory.facts();
    for place in 0..heads.len() {
        directory.set_erases(place as u32, erases_of(heads[place]));
    }
}

/// Ends the directory by the headers: takes what is in use beside the places of the units, which is the
/// status place and the overflow places that hold live log sectors, and sets how often each place was
/// erased.
pub(crate) fn fill_places(
    directory: &mut Directory,
    heads: &[Option<Header>],
    status: &Winner,
    noted: &Noted,
)
    requires small { length heads.now ≤ MOST_PLACES }
    requires places { length heads.now ≡ length directory.old.in_use }
    requires noted { places_of noted.now ≡ length directory.old.in_use }
    requires status { status.now.place < length directory.old.in_use }
    ensures used { (current : ℕ → Option Chosen) (units : ℕ)
        → AreUsed (is_home current units) (length heads.now) units directory.old.in_use
        → AreUsed (is_used current units status.now.place (is_held_place heads.now noted.now))
        (length heads.now) (units + 1 + count_below (is_held_place heads.now noted.now) (length heads.now))
        directory.new.in_use }
    ensures counted { AreErasedAsTold (at heads.now) (length heads.now) directory.new }
    ensures same { SameUnits directory.old directory.new }
{
    directory.take(status.place());
    take_overflows(directory, heads, noted);
    count_erases(directory, heads);
}

/// Retires a place that is listed as retired, if it is free.
fn retire_free(directory: &mut Directory, place: u32)
    requires place { place < length directory.old.in_use }
    requires few { length directory.old.retired < spares_of directory.old }
    ensures { directory.new ≡ with_aside directory.old place }
{
    let free = directory.free_count();
    directory.take(place);
    // It was free where one place is free less.
    if directory.free_count() < free {
        directory.retire(place);
    }
}

/// Retires the places that the status header lists as retired and that are free.
pub(crate) fn retire_listed(directory: &mut Directory, status: &HeadSector)
    requires none { directory.old.retired ≡ [] }
    requires listed { may_be_retired (length directory.old.in_use) (length directory.old.current)
        (retired_of status.now) ≡ true }
    ensures { directory.new ≡ with_all_aside directory.old (retired_of status.now) }
{
    let listed = status.listed();
    for i in 0..listed.len() / 4 {
        retire_free(directory, word_at(listed, 4 * i));
    }
}
