//! The text of a page, in the place where it stays.
ghost use Rattle.std.specs.Prelude.{◌≡◌, ◌≤◌, ◌<◌, ◌+◌, ◌++◌, ◌↔◌, ℕ, Some, None, IfSome, IsTrue, drop, length, option_map, slice_set, take};
ghost use Rattle.std.specs.Bool.{OnTrue, OnFalse};
ghost use Rattle.ipl_base.specs.declared.limits.TheConstants.{PAGE_LEN, VALUE_LEN, VERSION};
ghost use Rattle.ipl_format.specs.Page.{IsPage, IsPageText, SpellsPage, empty_page, page_text, value_in};

use crate::indexing::index;
use crate::moving::{HEAD, put_part, put_record, resize, value_between};
use ipl_base::PAGE_LEN;
use std::marker::Model;

/// The bytes of a page's text, with room for the longest, and where the record of each slot stands in
/// them. A contract sees all bytes, and the page whose text they begin with.
#[derive(Drop)]
pub struct PageBytes {
    bytes: [u8; PAGE_LEN],
    // Where the record of each slot begins, and behind the last one the end of the text.
    bounds: [u16; 65],
}

impl Model for PageBytes {
    ghost use Rattle.page_text.specs.Texts.{BytesView, IsIndexed, page_in};

    ghost Value = { BytesView };

    ghost view = { λ t. record { bytes = t.bytes; page = page_in t.bytes t.bounds } };

    ghost invariant = { λ t. IsIndexed t.bytes t.bounds (page_in t.bytes t.bounds) };
}

impl PageBytes {
    /// A page with nothing.
    pub(crate) fn empty() -> PageBytes
        ensures { result.page ≡ empty_page }
    {
        PageBytes {
            bytes: [0; PAGE_LEN],
            bounds: [0; 65],
        }
    }

    /// Makes it a page with nothing. The bytes stay: they are no text then.
    pub fn reset(&mut self)
        ensures page { self.new.page ≡ empty_page }
        ensures bytes { self.new.bytes ≡ self.old.bytes }
    {
        self.bounds = [0; 65];
    }

    /// Writes bytes at a place, where the page has nothing.
    pub fn put(&mut self, start: usize, part: &[u8])
        requires empty { self.old.page ≡ empty_page }
        requires room { start + length part.now ≤ PAGE_LEN }
        ensures size { length self.old.bytes ≡ PAGE_LEN }
        ensures page { self.new.page ≡ empty_page }
        ensures bytes { self.new.bytes
            ≡ take start self.old.bytes ++ part.now ++ drop (start + length part.now) self.old.bytes }
    {
        put_part(&mut self.bytes, start, part);
    }

    /// Makes the first bytes the text of the page. False exactly where they aren't one; the page has
    /// nothing then.
    pub fn read(&mut self, end: usize) -> bool
        requires { end ≤ PAGE_LEN }
        ensures exact { IsTrue result ↔ IsPageText VERSION (take end self.old.bytes) }
        ensures page { OnTrue result (SpellsPage VERSION (take end self.old.bytes) self.new.page) }
        ensures empty { OnFalse result (self.new.page ≡ empty_page) }
        ensures bytes { self.new.bytes ≡ self.old.bytes }
    {
        if index(&self.bytes, end, &mut self.bounds) {
            return true;
        }
        self.bounds = [0; 65];
        false
    }

    /// The first bytes, so many of them.
    pub fn front(&self, end: usize) -> &[u8]
        requires { end ≤ PAGE_LEN }
        ensures { result.now ≡ take end self.now.bytes }
    {
        &self.bytes[..end]
    }

    /// The text of the page.
    pub(crate) fn text(&self) -> &[u8]
        ensures text { SpellsPage VERSION result.now self.now.page }
        ensures fits { length result.now ≤ PAGE_LEN }
    {
        &self.bytes[..usize::from(self.bounds[64])]
    }

    /// What a slot (0 to 63) holds.
    pub(crate) fn get(&self, slot: u32) -> Option<&[u8]>
        requires { slot < 64 }
        ensures page { IsPage VERSION self.now.page }
        ensures value { option_map (λ bytes. bytes.now) result ≡ value_in self.now.page slot }
        ensures short { IfSome result (λ bytes. length bytes.now ≤ VALUE_LEN) }
    {
        let start = usize::from(self.bounds[slot as usize]);
        let end = usize::from(self.bounds[slot as usize + 1]);
        value_between(&self.bytes, start, end)
    }

    /// How many bytes the text has with a value of at most 464 bytes in a slot (0 to 63).
    pub(crate) fn len_with(&self, slot: u32, value: &[u8]) -> usize
        requires slot { slot < 64 }
        requires short { length value.now ≤ VALUE_LEN }
        ensures { result
            ≡ length (page_text VERSION (slice_set self.now.page slot (Some value.now))) }
    {
        let start = usize::from(self.bounds[slot as usize]);
        let end = usize::from(self.bounds[slot as usize + 1]);
        usize::from(self.bounds[64]) + start + HEAD + value.len() - end
    }

    /// Puts at most 464 bytes into a slot (0 to 63), for which the text has room; the others stay.
    pub(crate) fn set(&mut self, slot: u32, value: &[u8])
        requires slot { slot < 64 }
        requires short { length value.now ≤ VALUE_LEN }
        requires room { length (page_text VERSION (slice_set self.old.page slot (Some value.now)))
            ≤ PAGE_LEN }
        ensures page { IsPage VERSION self.new.page }
        ensures set { self.new.page ≡ slice_set self.old.page slot (Some value.now) }
    {
        let start = resize(&mut self.bytes, &mut self.bounds, slot, HEAD + value.len());
        put_record(&mut self.bytes, start, slot, value);
    }

    /// Empties a slot (0 to 63); the others stay.
    pub(crate) fn clear(&mut self, slot: u32)
        requires { slot < 64 }
        ensures page { IsPage VERSION self.new.page }
        ensures cleared { self.new.page ≡ slice_set self.old.page slot None }
    {
        resize(&mut self.bytes, &mut self.bounds, slot, 0);
    }
}
