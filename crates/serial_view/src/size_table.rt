//! Tables that have a size for each name.
ghost use Rattle.std.specs.Prelude.{◌≡◌, map, replicate, slice_index, slice_set, IfOk};
ghost use Rattle.serial_view.specs.Running.{Sets};

use ipl_base::Name;
use std::alloc::{AllocError, Global};

/// A table in which the size of each of so many names is 0.
pub fn zeros(alloc: Global, names: usize) -> Result<Vec<u32>, AllocError>
    ensures { IfOk result (λ sizes. sizes.items ≡ replicate names 0) }
{
    vec![in alloc; 0; names]
}

/// The size of a name in a table, 0 past the last.
pub fn size_at(sizes: &Vec<u32>, name: u32) -> u32
    ensures { result ≡ slice_index sizes.now.items name }
{
    if (name as usize) < sizes.len() {
        sizes[name as usize]
    } else {
        0
    }
}

/// Sets the size of a name in a table; past the last nothing is kept.
pub(crate) fn set_size(sizes: &mut Vec<u32>, name: u32, size: u32)
    ensures { sizes.new.items ≡ slice_set sizes.old.items name size }
{
    if (name as usize) < sizes.len() {
        sizes[name as usize] = size;
    }
}

/// Sets the sizes of these names to those in another table.
pub(crate) fn copy_sizes(sizes: &mut Vec<u32>, from: &Vec<u32>, names: &[Name])
    ensures { Sets (map (λ n. n.0) names.now) (slice_index from.now.items) sizes.old.items
        sizes.new.items }
{
    for name in names {
        set_size(sizes, name.0, size_at(from, name.0));
    }
}

/// Sets the sizes of these names to 0.
pub(crate) fn clear_sizes(sizes: &mut Vec<u32>, names: &[Name])
    ensures { Sets (map (λ n. n.0) names.now) (λ n. 0) sizes.old.items sizes.new.items }
{
    for name in names {
        set_size(sizes, name.0, 0);
    }
}
