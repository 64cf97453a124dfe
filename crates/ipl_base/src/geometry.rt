//! The size of a chip that can be used.
ghost use Rattle.std.specs.Prelude.{◌≡◌, ◌≤◌, ◌-◌, IfSome, IfNone};
ghost use Rattle.ipl_base.specs.declared.limits.TheConstants.{MOST_UNITS};
ghost use Rattle.ipl_base.specs.Places.{Extent, IsGeometry, IsSpared, KeepsUnits, units_on};

use crate::limits::{LEAST_PLACES, MOST_PLACES, MOST_SPARES, RESERVED_PLACES};
use std::marker::Model;

/// The size of a chip that can be used: its places, 5 to 1028, and the units that are kept on them,
/// one at least; four places are no unit's, and at most 64 more are spare. A contract sees both
/// numbers.
#[derive(Clone, Copy, Debug, PartialEq, Eq)]
pub struct Geometry {
    places: u32,
    units: u32,
}

impl Model for Geometry {
    ghost Value = { Extent };

    ghost view = { λ g. record { places = g.places; units = g.units } };

    ghost invariant = { λ g. IsGeometry g.places × KeepsUnits g.places g.units };

    ghost inverse = { λ g. record { places = g.places; units = g.units } };
}

impl Geometry {
    /// With no place to spare. `None` exactly outside 5 to 1028.
    pub fn of(places: u32) -> Option<Geometry>
        ensures some { IfSome result (λ g. IsGeometry places × (g.places ≡ places)) }
        ensures units { IfSome result (λ g. g.units ≡ units_on places) }
        ensures none { IfNone result (IsGeometry places → ⊥) }
    {
        Geometry::spared(places, 0)
    }

    /// With so many places to spare for those that wear out. `None` exactly where the places are
    /// outside 5 to 1028, more than 64 are to be spare, or no unit is left.
    pub fn spared(places: u32, spares: u32) -> Option<Geometry>
        ensures some { IfSome result (λ g. IsSpared places spares × (g.places ≡ places)) }
        ensures units { IfSome result (λ g. g.units ≡ units_on places - spares) }
        ensures none { IfNone result (IsSpared places spares → ⊥) }
    {
        if places < LEAST_PLACES || places > MOST_PLACES {
            return None;
        }
        let most = places - RESERVED_PLACES;
        if spares > MOST_SPARES || spares >= most {
            return None;
        }
        Some(Geometry {
            places,
            units: most - spares,
        })
    }

    /// The places of the chip, its erase units.
    pub fn places(&self) -> u32
        ensures places { result ≡ self.now.places }
        ensures range { IsGeometry result }
    {
        self.places
    }

    /// The logical units that are kept on such a chip.
    pub fn units(&self) -> u32
        ensures units { result ≡ self.now.units }
        ensures keeps { KeepsUnits self.now.places result }
        ensures range { (1 ≤ result) × (result ≤ MOST_UNITS) }
    {
        self.units
    }
}
