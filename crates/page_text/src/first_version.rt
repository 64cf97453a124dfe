//! Texts of version 1, in which a length is one byte: read into a page record by record, and
//! written.
ghost use Rattle.std.specs.Prelude.{◌≡◌, ◌≤◌, ◌<◌, ◌+◌, ◌++◌, ◌↔◌, IsTrue, Some, drop, length, slice_index, take};
ghost use Rattle.std.specs.Bool.{OnTrue, OnFalse};
ghost use Rattle.ipl_base.specs.declared.limits.TheConstants.{PAGE_LEN, SHORT_LEN};
ghost use Rattle.ipl_format.specs.Page.{IsPage, IsPageText, SpellsPage, empty_page, page_text, slot_bytes, value_in};
ghost use Rattle.page_text.specs.Reading.{has_slot, size_at};

use crate::PageMap;
use ipl_base::{PAGE_LEN, SHORT_LEN};

// The length behind the slot.
fn size_at(bytes: &[u8]) -> usize
    requires { 2 ≤ length bytes.now }
    ensures size { result ≡ size_at 1 bytes.now }
    ensures few { result < 256 }
{
    usize::from(bytes[1])
}

// Whether the bytes begin with the record of a slot from `least` on.
fn has_slot(bytes: &[u8], least: u32) -> bool
    ensures { result ≡ has_slot 1 least bytes.now }
{
    bytes.len() >= 2
        && u32::from(bytes[0]) >= least
        && bytes[0] < 64
        && size_at(bytes) <= SHORT_LEN
        && 2 + size_at(bytes) <= bytes.len()
}

// The bytes of the first record, after its slot and its length.
fn first_value(bytes: &[u8]) -> &[u8]
    requires long { 2 ≤ length bytes.now }
    requires whole { 2 + size_at 1 bytes.now ≤ length bytes.now }
    ensures { result.now ≡ take (size_at 1 bytes.now) (drop 2 bytes.now) }
{
    &bytes[2..2 + size_at(bytes)]
}

// The bytes after the first record.
fn after_value(bytes: &[u8]) -> &[u8]
    requires long { 2 ≤ length bytes.now }
    requires whole { 2 + size_at 1 bytes.now ≤ length bytes.now }
    ensures { result.now ≡ drop (2 + size_at 1 bytes.now) bytes.now }
{
    &bytes[2 + size_at(bytes)..]
}

/// Reads a page's text, all of the bytes. False exactly where they aren't one; the page is then
/// empty.
pub(crate) fn read_first(bytes: &[u8], map: &mut PageMap) -> bool
    ensures exact { IsTrue result ↔ IsPageText 1 bytes.now }
    ensures page { OnTrue result (SpellsPage 1 bytes.now map.new) }
    ensures empty { OnFalse result (map.new ≡ empty_page) }
{
    map.reset();
    if bytes.len() > PAGE_LEN {
        return false;
    }
    let mut rest = bytes;
    let mut next = 0;
    while !rest.is_empty() {
        if !has_slot(rest, next) {
            map.reset();
            return false;
        }
        let slot = u32::from(rest[0]);
        map.set(slot, first_value(rest));
        rest = after_value(rest);
        next = slot + 1;
    }
    true
}

// Writes a slot's number, its length and its bytes, and answers where they end.
fn put_slot(slot: u32, value: &[u8], out: &mut [u8; PAGE_LEN], at: usize) -> usize
    requires slot { slot < 64 }
    requires short { length value.now ≤ SHORT_LEN }
    requires room { at + (2 + length value.now) ≤ PAGE_LEN }
    ensures text { out.new ≡ take at out.old ++ slot_bytes 1 slot (Some value.now)
        ++ drop (at + (2 + length value.now)) out.old }
    ensures end { result ≡ at + (2 + length value.now) }
{
    out[at] = slot as u8;
    out[at + 1] = value.len() as u8;
    out[at + 2..at + 2 + value.len()].copy_from_slice(value);
    at + (2 + value.len())
}

// The same of what a slot of a page holds: nothing where it is empty.
fn write_slot(map: &PageMap, slot: u32, out: &mut [u8; PAGE_LEN], at: usize) -> usize
    requires slot { slot < 64 }
    requires page { IsPage 1 map.now }
    requires room { at + length (slot_bytes 1 slot (value_in map.now slot)) ≤ PAGE_LEN }
    ensures text { out.new ≡ take at out.old ++ slot_bytes 1 slot (value_in map.now slot)
        ++ drop result out.old }
    ensures end { result ≡ at + length (slot_bytes 1 slot (value_in map.now slot)) }
{
    match map.get(slot) {
        Some(value) => put_slot(slot, value, out, at),
        None => at,
    }
}

/// Writes a page's text at the front, and answers its length; what stood behind it stays.
pub(crate) fn write_first(map: &PageMap, out: &mut [u8; PAGE_LEN]) -> usize
    requires { IsPage 1 map.now }
    ensures text { SpellsPage 1 (take result out.new) map.now }
    ensures rest { drop result out.new ≡ drop result out.old }
    ensures end { result ≡ length (page_text 1 map.now) }
{
    let mut end = 0;
    for slot in 0..64 {
        end = write_slot(map, slot, out, end);
    }
    end
}
