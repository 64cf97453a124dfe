//! Places in rising order.
ghost use Rattle.std.specs.Prelude.{◌≡◌, ◌<◌, length, AllPairs};
ghost use Rattle.ipl_base.specs.declared.limits.TheConstants.{MOST_SPARES};
ghost use Rattle.ipl_format.specs.Header.{IsLower};
ghost use Rattle.ipl_meaning.specs.Tables.{inserted};

use arrayvec::ArrayVec;

/// Places that are retired, at most as many as may be spare.
pub type RetiredList = ArrayVec<u32, 64>;

/// Puts a place among others in rising order, unless it is one of them.
pub(crate) fn insert_place(places: &mut RetiredList, place: u32)
    requires rising { AllPairs IsLower places.old.items }
    requires room { length places.old.items < MOST_SPARES }
    ensures { places.new.items ≡ inserted place places.old.items }
{
    if let Err(at) = places.as_slice().binary_search(&place) {
        places.insert(at, place);
    }
}
