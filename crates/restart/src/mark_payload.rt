//! The units of which something is known, as a mark has them.
ghost use Rattle.std.specs.Prelude.{◌≡◌, ◌≤◌, ◌<◌, ◌+◌, ℕ, take, length};
ghost use Rattle.ipl_format.specs.Mark.{SpellsMark, bits_length, has_unit};
ghost use Rattle.unit_directory.specs.Directory.{is_known};

use unit_directory::Directory;
use unit_layout::{add_unit, begin_mark};

/// The payload of the mark that has exactly the units of whose log sectors something is known: answers how many bytes it has.
pub(crate) fn known_units(directory: &Directory, payload: &mut [u8; 132]) -> usize
    ensures size { result ≡ 4 + bits_length (length directory.now.current) }
    ensures fits { result ≤ 132 }
    ensures spelled { SpellsMark (length directory.now.current) (take result payload.new) }
    ensures known { (u : ℕ) → u < length directory.now.current
        → has_unit (take result payload.new) u ≡ is_known directory.now u }
{
    directory.facts();
    let units = directory.units();
    let len = begin_mark(units, payload);
    for unit in 0..units {
        if directory.is_known(unit) {
            add_unit(units, unit, payload);
        }
    }
    len
}
