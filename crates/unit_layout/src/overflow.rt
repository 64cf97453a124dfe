//! The payload of an overflow header.
ghost use Rattle.std.specs.Prelude.{ℕ, IfSome, IfNone};
ghost use Rattle.ipl_base.specs.declared.limits.TheConstants.{VERSION};
ghost use Rattle.ipl_format.specs.Header.{SpellsOverflowHeader};
ghost use Rattle.unit_layout.specs.Header.{SpellsOverflow};

use crate::words::{erases_at, erases_len, write_word};
use ipl_format::word_at;

/// What an overflow header says. The table is in docs/FORMAT.md, "Header payloads".
#[derive(Clone, Copy, Debug, PartialEq, Eq)]
pub struct OverflowHeader {
    /// How many units the chip holds.
    pub units: u32,
    /// How often its place was erased.
    pub erases: u32,
}

/// Writes the payload of an overflow header, in the version of all that is written.
pub fn write_overflow_header(units: u32, erases: u32, out: &mut [u8; 8])
    ensures { SpellsOverflow VERSION units erases out.new }
{
    write_word(units, 0, out);
    write_word(erases, 4, out);
}

/// What an overflow header's payload says, by the version of its sector; `None` exactly where it
/// has another length than 4, from version 3 on 8.
pub fn read_overflow_header(payload: &[u8], version: u8) -> Option<OverflowHeader>
    ensures some { IfSome result (λ header.
        SpellsOverflow version header.units header.erases payload.now) }
    ensures none { IfNone result ((units : ℕ)
        → SpellsOverflowHeader version units payload.now → ⊥) }
{
    if payload.len() != 4 + erases_len(version) {
        return None;
    }
    Some(OverflowHeader {
        units: word_at(payload, 0),
        erases: erases_at(payload, 4, version),
    })
}
