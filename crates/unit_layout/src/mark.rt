//! The payload of a mark.
ghost use Rattle.std.specs.Prelude.{◌≡◌, ◌≤◌, ◌<◌, ◌+◌, ◌-◌, ◌++◌, ◌==◌, ◌||◌, ℕ, false, length, replicate, take};
ghost use Rattle.ipl_base.specs.declared.limits.TheConstants.{MOST_UNITS};
ghost use Rattle.ipl_format.specs.Mark.{SpellsMark, bits_length, has_unit};
ghost use Rattle.unit_layout.specs.Mark.{ends_in_time, is_mark_payload};

use crate::words::write_word;
use ipl_format::word_at;

// How many bytes have a bit for each of so many units.
fn bits_length(units: u32) -> usize
    ensures { result ≡ bits_length units }
{
    (units as usize + 7) / 8
}

// Fills a payload with zeros from a byte on.
fn clear_from(start: usize, out: &mut [u8; 132])
    requires { start ≤ 132 }
    ensures { out.new ≡ take start out.old ++ replicate (132 - start) 0 }
{
    out[start..].fill(0);
}

/// Begins the payload of a mark, with the number of units, and none of them: answers how many bytes
/// it has. The table is in docs/FORMAT.md, "Mark payload".
pub fn begin_mark(units: u32, out: &mut [u8; 132]) -> usize
    requires { units ≤ MOST_UNITS }
    ensures size { result ≡ 4 + bits_length units }
    ensures spells { SpellsMark units (take result out.new) }
    ensures none { (u : ℕ) → has_unit (take result out.new) u ≡ false }
{
    write_word(units, 0, out);
    clear_from(4, out);
    4 + bits_length(units)
}

/// Adds a unit to such a payload.
pub fn add_unit(units: u32, unit: u32, out: &mut [u8; 132])
    requires most { units ≤ MOST_UNITS }
    requires unit { unit < units }
    requires spelled { SpellsMark units (take (4 + bits_length units) out.old) }
    ensures spells { SpellsMark units (take (4 + bits_length units) out.new) }
    ensures has { (u : ℕ) → has_unit (take (4 + bits_length units) out.new) u
        ≡ ((u == unit) || has_unit (take (4 + bits_length units) out.old) u) }
{
    out[4 + unit as usize / 8] |= 1 << (unit % 8);
}

// Whether the last byte of a mark's payload has no bit above that of the last unit.
fn ends_in_time(payload: &[u8], units: u32) -> bool
    requires { 4 + bits_length units ≤ length payload.now }
    ensures { result ≡ ends_in_time units payload.now }
{
    payload[3 + bits_length(units)] >> ((units as usize + 7) % 8) <= 1
}

/// Whether a payload is that of a mark of so many units, 1 to 1,024.
pub fn is_mark(payload: &[u8], units: u32) -> bool
    ensures { result ≡ is_mark_payload units payload.now }
{
    payload.len() == 4 + bits_length(units)
        && word_at(payload, 0) == units
        && ends_in_time(payload, units)
}

/// Whether the mark of this payload has the unit; not, where the payload ends before its bit.
pub fn has_unit(payload: &[u8], unit: u32) -> bool
    ensures { result ≡ has_unit payload.now unit }
{
    let byte = 4 + unit as usize / 8;
    byte < payload.len() && (payload[byte] >> (unit % 8)) & 1 == 1
}
