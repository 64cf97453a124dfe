//! Which buffer has which page, by rising number of the page.
ghost use Rattle.std.specs.Prelude.{◌≡◌, ◌<◌, ◌+◌, ◌*◌, ℕ, [], Some, None, IfOk, IfErr, IsSome, length};
ghost use Rattle.buffer_pool.specs.Index.{key_of, number_at, page_number, with_key, HasNumberAt, IsGapFor, NumbersRise};

use arrayvec::ArrayVec;
use ipl_base::PAGES;
use std::marker::Model;

/// The number of a page among all pages of a chip.
pub(crate) fn page_number(unit: u32, page: u32) -> u64
    ensures { result ≡ page_number unit page }
{
    u64::from(unit) * u64::from(PAGES) + u64::from(page)
}

/// The numbers of at most 64 pages in rising order, each with the key of its buffer. It takes no memory.
#[derive(Drop)]
pub struct PageIndex {
    entries: ArrayVec<(u64, usize), 64>,
}

impl Model for PageIndex {
    ghost use Rattle.std.specs.Prelude.{ℕ, List};
    ghost use Rattle.buffer_pool.specs.Index.{NumbersRise};

    ghost Value = { List (ℕ × ℕ) };

    ghost view = { λ i. i.entries.items };

    ghost invariant = { λ i. NumbersRise i.entries.items };
}

impl PageIndex {
    /// No pages.
    pub fn empty() -> PageIndex
        ensures { result ≡ [] }
    {
        PageIndex {
            entries: ArrayVec::new(),
        }
    }

    /// Takes all pages out.
    pub fn clear(&mut self)
        ensures { self.new ≡ [] }
    {
        self.entries.clear();
    }

    /// What always holds: the numbers rise.
    pub fn facts(&self)
        ensures { NumbersRise self.now }
    {
        let _ = &self.entries;
    }

    /// The key of the page at a place of the order.
    pub(crate) fn key_at(&self, at: usize) -> usize
        requires { at < length self.now }
        ensures { key_of self.now (number_at self.now at) ≡ Some result }
    {
        self.entries.as_slice()[at].1
    }

    /// The key of a page, by a search that halves what is left.
    pub fn find(&self, number: u64) -> Option<usize>
        ensures { result ≡ key_of self.now number }
    {
        match self.search(number) {
            Ok(at) => Some(self.entries.as_slice()[at].1),
            Err(_) => None,
        }
    }

    /// Lists a page that isn't listed.
    pub fn add(&mut self, number: u64, key: usize)
        requires absent { key_of self.old number ≡ None }
        requires room { length self.old < 64 }
        ensures added { (n : ℕ) → key_of self.new n
            ≡ with_key (key_of self.old) number (Some key) n }
        ensures len { length self.new ≡ length self.old + 1 }
    {
        match self.search(number) {
            Ok(_) => unreachable!("the page isn't listed"),
            Err(at) => self.entries.insert(at, (number, key)),
        }
    }

    /// Takes a page out that is listed.
    pub(crate) fn remove(&mut self, number: u64)
        requires { IsSome (key_of self.old number) }
        ensures removed { (n : ℕ) → key_of self.new n
            ≡ with_key (key_of self.old) number None n }
        ensures len { length self.new + 1 ≡ length self.old }
    {
        match self.search(number) {
            Ok(at) => {
                let _ = self.entries.remove(at);
            }
            Err(_) => unreachable!("the page is listed"),
        }
    }

    // Where the page is, or where it would go.
    fn search(&self, number: u64) -> Result<usize, usize>
        ensures found { IfOk result (HasNumberAt self.now number) }
        ensures absent { IfErr result (IsGapFor self.now number) }
    {
        self.entries
            .as_slice()
            .binary_search_by_key(&number, |&(own, _)| own)
    }
}
