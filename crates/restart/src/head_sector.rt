//! The sector 0 of a place, which may be a header.
ghost use Rattle.std.specs.Prelude.{◌≡◌, ◌≤◌, IfSome, None};
ghost use Rattle.ipl_base.specs.declared.limits.TheConstants.{PAYLOAD_LEN};
ghost use Rattle.unit_layout.specs.Retired.{listed_bytes};
ghost use Rattle.unit_io.specs.Kinds.{sector_named};
ghost use Rattle.ipl_meaning.specs.Chosen.{header_in};
ghost use Rattle.restart.specs.Kept.{listed_in};

use crate::kept::Header;
use ipl_base::{Geometry, VERSION};
use sector_format::{Head, payload_in};
use std::marker::Model;

/// The sector 0 of a place, as it was read. That of the status header is kept until all is read, since
/// it lists the retired places. A contract sees what it says.
#[derive(Drop)]
pub(crate) struct HeadSector {
    found: Option<(Head, usize)>,
    bytes: [u8; 512],
}

impl Model for HeadSector {
    ghost use Rattle.std.specs.Prelude.{◌≤◌, IfSome, Option};
    ghost use Rattle.ipl_base.specs.declared.limits.TheConstants.{PAYLOAD_LEN};
    ghost use Rattle.ipl_format.specs.Sector.{Sector};
    ghost use Rattle.unit_io.specs.Kinds.{sector_named};

    ghost Value = { Option Sector };

    ghost view = { λ s. sector_named s.bytes s.found };

    ghost invariant = { λ s. IfSome s.found (λ it. it.1 ≤ PAYLOAD_LEN) };
}

// The bytes of the places that a status header lists.
fn listed(payload: &[u8], version: u8) -> &[u8]
    ensures { result.now ≡ listed_bytes version payload.now }
{
    if version < VERSION || payload.len() < 9 {
        return &[];
    }
    &payload[9..]
}

impl HeadSector {
    /// None was read yet.
    pub(crate) fn none() -> HeadSector
        ensures { result ≡ None }
    {
        HeadSector {
            found: None,
            bytes: [0; 512],
        }
    }

    /// The one that was found in these bytes.
    pub(crate) fn of(found: Option<(Head, usize)>, bytes: &[u8; 512]) -> HeadSector
        requires { IfSome found (λ it. it.1 ≤ PAYLOAD_LEN) }
        ensures { result ≡ sector_named bytes.now found }
    {
        HeadSector {
            found,
            bytes: *bytes,
        }
    }

    /// It is the other one then.
    pub(crate) fn copy_from(&mut self, other: &HeadSector)
        ensures { self.new ≡ other.now }
    {
        self.found = other.found;
        self.bytes = other.bytes;
    }

    /// What is kept of it, if it is a header.
    pub(crate) fn header(&self, geometry: Geometry) -> Option<Header>
        ensures { result ≡ header_in geometry.places self.now }
    {
        match self.found {
            None => None,
            Some((head, used)) => {
                if Head::DATA_HEADER <= head.kind && head.kind <= Head::OVERFLOW_HEADER {
                    Some(Header::of(geometry, &head, payload_in(&self.bytes, used)))
                } else {
                    None
                }
            }
        }
    }

    /// The bytes of the places that it lists as retired, where it is a status header.
    pub(crate) fn listed(&self) -> &[u8]
        ensures { result.now ≡ listed_in self.now }
    {
        match self.found {
            Some((head, used)) => listed(payload_in(&self.bytes, used), head.version),
            None => &[],
        }
    }
}
