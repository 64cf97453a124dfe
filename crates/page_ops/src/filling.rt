//! What the slots of a page take in its text, and may come to take.
ghost use Rattle.std.specs.Prelude.{◌≡◌, ◌≤◌, ◌<◌, ◌+◌, ◌==◌, ◌↔◌, ℕ, IsTrue, length, if◌then◌else◌};
ghost use Rattle.std.specs.Bool.{OnTrue};
ghost use Rattle.ipl_base.specs.declared.limits.TheConstants.{PAGE_LEN, SLOTS, VALUE_LEN};
ghost use Rattle.ipl_base.specs.Sizes.{size_in_page};
ghost use Rattle.ipl_model.specs.Peaks.{fill_of};
ghost use Rattle.ipl_format.specs.Page.{value_in};
ghost use Rattle.log_records.specs.View.{change_of};
ghost use Rattle.page_ops.specs.declared.filling.TheConstants.{HEAD};

use ipl_base::{PAGE_LEN, SLOTS};
use log_records::Change;
use page_text::PageMap;

/// The bytes of a slot's number and of the length, which stand before each value in a page's text.
pub(crate) const HEAD: usize = 3;

/// How many bytes a slot (0 to 63) of a page takes in the text.
fn slot_size(map: &PageMap, slot: u32) -> usize
    requires { slot < 64 }
    ensures size { result ≡ size_in_page (value_in map.now slot) }
    ensures few { result ≤ HEAD + VALUE_LEN }
{
    match map.get(slot) {
        Some(value) => HEAD + value.len(),
        None => 0,
    }
}

/// How many bytes a slot takes in the text after a change.
pub(crate) fn change_size(change: &Change) -> usize
    ensures size { result ≡ size_in_page (change_of change.now) }
    ensures few { result ≤ HEAD + VALUE_LEN }
{
    match change {
        Change::Put(value) => HEAD + value.bytes().len(),
        Change::Delete => 0,
    }
}

/// How many bytes a slot (0 to 63) of a page takes in the text; but one slot takes so many.
fn coming_size(values: &PageMap, k: u32, slot: u32, size: usize) -> usize
    requires low { k < 64 }
    requires few { size ≤ HEAD + VALUE_LEN }
    ensures size { result
        ≡ (if k == slot then size else size_in_page (value_in values.now k)) }
    ensures few { result ≤ HEAD + VALUE_LEN }
{
    if k == slot {
        size
    } else {
        slot_size(values, k)
    }
}

/// How many bytes a page may come to take, where each slot becomes what it is in the page of `values` or
/// stays; but one slot (0 to 63) may come to take so many.
fn fill_after(page: &PageMap, values: &PageMap, slot: u32, size: usize) -> usize
    requires { size ≤ HEAD + VALUE_LEN }
    ensures { result ≡ fill_of (value_in page.now)
        (λ k. 1 + (if k == slot then size else size_in_page (value_in values.now k))) }
{
    let mut fill = 0;
    for k in 0..SLOTS {
        fill += slot_size(page, k).max(coming_size(values, k, slot, size));
    }
    fill
}

/// Whether a page has room even where each slot takes both what it is in the page and what it is in that
/// of `values`, and one of them so many bytes too. Most pages do, and no slot is looked at to see it;
/// where it's false there may be room still.
fn surely_fits(page: &PageMap, values: &PageMap, size: usize) -> bool
    requires { size ≤ HEAD + VALUE_LEN }
    ensures { OnTrue result ((slot : ℕ) → slot < SLOTS → fill_of (value_in page.now)
        (λ k. 1 + (if k == slot then size else size_in_page (value_in values.now k))) ≤ PAGE_LEN) }
{
    page.text().len() + values.text().len() + size <= PAGE_LEN
}

/// Whether a page has room for all that it may come to take, where each slot becomes what it is in the
/// page of `values` or stays; but one slot (0 to 63) may come to take so many bytes.
pub(crate) fn fits_after(page: &PageMap, values: &PageMap, slot: u32, size: usize) -> bool
    requires slot { slot < 64 }
    requires few { size ≤ HEAD + VALUE_LEN }
    ensures { IsTrue result ↔ (fill_of (value_in page.now)
        (λ k. 1 + (if k == slot then size else size_in_page (value_in values.now k))) ≤ PAGE_LEN) }
{
    surely_fits(page, values, size) || fill_after(page, values, slot, size) <= PAGE_LEN
}
