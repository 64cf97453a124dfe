//! What the slots of a page hold.
ghost use Rattle.std.specs.Prelude.{◌≡◌, ◌≤◌, ◌<◌, ◌↔◌, Some, None, IfSome, IsTrue, length, option_map, slice_set};
ghost use Rattle.std.specs.Borrow.{sem};
ghost use Rattle.ipl_base.specs.declared.limits.TheConstants.{PAGE_LEN, VALUE_LEN, VERSION};
ghost use Rattle.ipl_format.specs.Page.{IsPage, SpellsPage, empty_page, page_text, value_in};
ghost use Rattle.page_text.specs.Lending.{LendsBytes};

use crate::PageBytes;
use ipl_base::PAGE_LEN;
use std::marker::Model;

/// What each of the 64 slots of a page holds: nothing, or at most 464 bytes. It is kept as the page's
/// text, in the version of all that is written. A contract sees the list of the slots.
#[derive(Drop)]
pub struct PageMap {
    text: PageBytes,
}

impl Model for PageMap {
    ghost use Rattle.std.specs.Prelude.{ℕ, List, Option};

    ghost Value = { List (Option (List ℕ)) };

    ghost view = { λ m. m.text.page };
}

impl PageMap {
    /// A page with nothing.
    pub fn empty() -> PageMap
        ensures { result ≡ empty_page }
    {
        PageMap {
            text: PageBytes::empty(),
        }
    }

    /// Makes it a page with nothing.
    pub fn reset(&mut self)
        ensures { self.new ≡ empty_page }
    {
        self.text.reset();
    }

    /// The text of the page, in the version of all that is written.
    pub fn text(&self) -> &[u8]
        ensures text { SpellsPage VERSION result.now self.now }
        ensures fits { length result.now ≤ PAGE_LEN }
    {
        self.text.text()
    }

    /// The bytes of the text, for reading another page. The page is then the one that they begin with.
    pub fn bytes_mut(&mut self) -> &mut PageBytes
        ensures* lends { sem 𝓛 (LendsBytes self.entry result) }
        ensures page { result.now.page ≡ self.old }
    {
        &mut self.text
    }

    /// What a slot (0 to 63) holds.
    pub fn get(&self, slot: u32) -> Option<&[u8]>
        requires { slot < 64 }
        ensures page { IsPage VERSION self.now }
        ensures value { option_map (λ bytes. bytes.now) result ≡ value_in self.now slot }
        ensures short { IfSome result (λ bytes. length bytes.now ≤ VALUE_LEN) }
    {
        self.text.get(slot)
    }

    /// Whether the text has room for a value of at most 464 bytes in a slot (0 to 63).
    pub fn has_room(&self, slot: u32, value: &[u8]) -> bool
        requires slot { slot < 64 }
        requires short { length value.now ≤ VALUE_LEN }
        ensures { IsTrue result
            ↔ (length (page_text VERSION (slice_set self.now slot (Some value.now))) ≤ PAGE_LEN) }
    {
        self.text.len_with(slot, value) <= PAGE_LEN
    }

    /// Puts at most 464 bytes into a slot (0 to 63), for which the text has room (see `has_room`);
    /// the others stay.
    pub fn set(&mut self, slot: u32, value: &[u8])
        requires slot { slot < 64 }
        requires short { length value.now ≤ VALUE_LEN }
        requires room { length (page_text VERSION (slice_set self.old slot (Some value.now)))
            ≤ PAGE_LEN }
        ensures page { IsPage VERSION self.new }
        ensures set { self.new ≡ slice_set self.old slot (Some value.now) }
    {
        self.text.set(slot, value);
    }

    /// Empties a slot (0 to 63); the others stay.
    pub fn clear(&mut self, slot: u32)
        requires { slot < 64 }
        ensures page { IsPage VERSION self.new }
        ensures cleared { self.new ≡ slice_set self.old slot None }
    {
        self.text.clear(slot);
    }
}
