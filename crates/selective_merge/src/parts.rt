//! The tables of a store, as a merge needs them.
ghost use Rattle.std.specs.Prelude.{◌≡◌, ◌≢◌, ◌<◌, ◌≤◌, IfSome, length, slice_index};
ghost use Rattle.selective_merge.specs.Moving.{tables_of, places_moved, Frees, MayTakeHome, MovesHome};

use crate::packs::masks_of;
use crate::{Active, MergeScratch};
use ipl_base::Counter;
use overflow::{Overflow, overflow_laws};
use txn_status::Status;
use unit_directory::{Directory, directory_laws};

/// The tables of a store and the counter, the numbers of its open sessions, and the memory of one
/// merge.
#[derive(Drop)]
pub struct Parts {
    pub directory: Directory,
    pub overflow: Overflow,
    pub status: Status,
    pub counter: Counter,
    pub active: Active,
    pub scratch: MergeScratch,
}

/// Makes a place that was taken a unit's, with a header of this generation and so many log sectors
/// written there, at most 15. Its old place is free.
fn move_home(directory: &mut Directory, unit: u32, place: u32, generation: u64, used: u32)
    requires unit { unit < length directory.old.current }
    requires place { place < length directory.old.in_use }
    requires another { place ≢ slice_index directory.old.current unit }
    requires few { used ≤ 15 }
    ensures { directory.new ≡ places_moved directory.old unit place generation used }
{
    directory.facts();
    directory.replace(unit, place, generation);
    for _i in 0..used {
        directory.used_log(unit);
    }
}

/// Gives a place of the chip back, where there is one.
fn free_one(directory: &mut Directory, place: Option<u32>)
    requires { IfSome place (λ p. p < length directory.old.in_use) }
    ensures frees { Frees directory.old directory.new place }
    ensures masks { directory.new.masks ≡ directory.old.masks }
{
    directory_laws();
    if let Some(place) = place {
        directory.give_back(place);
    }
}

/// The unit stands at a place that was taken, with a header of this generation and as many log sectors
/// written there as were packed, which name the pages of these. Its old place is free, and so are
/// overflow places that no list names any more.
pub(crate) fn move_unit(parts: &mut Parts, unit: u32, place: u32, generation: u64)
    requires { MayTakeHome unit place (tables_of parts.old) }
    ensures { MovesHome unit place generation parts.old parts.new }
{
    overflow_laws();
    directory_laws();
    parts.directory.facts();
    parts.overflow.facts();
    let used = u32::from(parts.scratch.packs.count());
    let masks = masks_of(parts.scratch.packs.payloads());
    move_home(&mut parts.directory, unit, place, generation, used);
    let left = parts.overflow.drop_unit(unit);
    parts.overflow.facts();
    free_one(&mut parts.directory, left[0]);
    free_one(&mut parts.directory, left[1]);
    parts.directory.set_masks(unit, masks);
}
