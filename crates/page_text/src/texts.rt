//! Texts of pages, from other bytes and to other bytes, in each version.
ghost use Rattle.std.specs.Prelude.{◌≡◌, ◌≤◌, ◌↔◌, All, IsTrue, drop, length, take};
ghost use Rattle.std.specs.Bool.{OnTrue, OnFalse};
ghost use Rattle.ipl_base.specs.declared.limits.TheConstants.{PAGE_LEN, VERSION};
ghost use Rattle.ipl_format.specs.Page.{IsPageText, IsShort, SpellsPage, empty_page, page_text};

use crate::PageMap;
use crate::first_version::{read_first, write_first};
use ipl_base::PAGE_LEN;

// Writes a text at the front.
fn put_text(text: &[u8], out: &mut [u8; PAGE_LEN])
    requires { length text.now ≤ PAGE_LEN }
    ensures text { take (length text.now) out.new ≡ text.now }
    ensures rest { drop (length text.now) out.new ≡ drop (length text.now) out.old }
{
    out[..text.len()].copy_from_slice(text);
}

/// Writes a page's text in a version at the front, and answers its length; what stood behind it
/// stays. In version 1 each value has at most 108 bytes. The records are in docs/FORMAT.md, "Page
/// text".
pub fn write(map: &PageMap, out: &mut [u8; PAGE_LEN], version: u8) -> usize
    requires short { version ≡ 1 → All (IsShort 1) map.now }
    ensures text { SpellsPage version (take result out.new) map.now }
    ensures rest { drop result out.new ≡ drop result out.old }
    ensures end { result ≡ length (page_text version map.now) }
    ensures most { result ≤ PAGE_LEN }
{
    let text = map.text();
    if version == 1 {
        return write_first(map, out);
    }
    put_text(text, out);
    text.len()
}

// Reads a text in which a page can be kept.
fn read_kept(bytes: &[u8], map: &mut PageMap) -> bool
    ensures exact { IsTrue result ↔ IsPageText VERSION bytes.now }
    ensures page { OnTrue result (SpellsPage VERSION bytes.now map.new) }
    ensures empty { OnFalse result (map.new ≡ empty_page) }
{
    let text = map.bytes_mut();
    text.reset();
    if bytes.len() > PAGE_LEN {
        return false;
    }
    text.put(0, bytes);
    text.read(bytes.len())
}

/// Reads a page's text in a version, all of the bytes. False exactly where they aren't one; the
/// page is then empty.
pub fn read(bytes: &[u8], map: &mut PageMap, version: u8) -> bool
    ensures exact { IsTrue result ↔ IsPageText version bytes.now }
    ensures page { OnTrue result (SpellsPage version bytes.now map.new) }
    ensures empty { OnFalse result (map.new ≡ empty_page) }
{
    if version == 1 {
        read_first(bytes, map)
    } else {
        read_kept(bytes, map)
    }
}
