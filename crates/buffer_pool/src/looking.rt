//! The pages that are in frames, in their order, and a look at one of them.
ghost use Rattle.std.specs.Prelude.{◌≡◌, ◌<◌, ◌≤◌, length, option_map, slice_index_or};
ghost use Rattle.buffer_pool.specs.Pools.{IsThere};
ghost use Rattle.buffer_pool.specs.Index.{page_number};
ghost use Rattle.buffer_pool.specs.Laws.{buffer_of};

use crate::pool::Pool;
use mem_log_sector::MemLog;
use page_ops::Frame;

impl Pool {
    /// How many pages are in frames.
    pub fn len(&self) -> usize
        ensures all { result ≡ length self.now.order }
        ensures few { result ≤ 64 }
    {
        self.buffers.len()
    }

    /// The unit and the page at a place of the order.
    pub fn page_at(&self, i: usize) -> (u32, u32)
        requires { i < length self.now.order }
        ensures number { page_number result.0 result.1 ≡ slice_index_or self.now.order i 0 }
        ensures page { result.1 < 15 }
        ensures there { IsThere self.now.buffers result.0 result.1 }
    {
        let buffer = &self.buffers[self.index.key_at(i)];
        (buffer.unit, buffer.page)
    }

    /// The frame of a page (0 to 14 of a unit), where it is in one.
    pub fn look(&self, unit: u32, page: u32) -> Option<&Frame>
        requires { page < 15 }
        ensures { option_map (λ f. f.now) result
            ≡ option_map (λ b. b.frame) (buffer_of self.now.buffers unit page) }
    {
        match self.find(unit, page) {
            Some(key) => Some(&self.buffers[key].frame),
            None => None,
        }
    }

    /// The records of a page that aren't on the chip yet, where it is in a frame.
    pub fn records(&self, unit: u32, page: u32) -> Option<&MemLog>
        requires { page < 15 }
        ensures { option_map (λ m. m.now) result
            ≡ option_map (λ b. b.log) (buffer_of self.now.buffers unit page) }
    {
        match self.find(unit, page) {
            Some(key) => Some(&self.buffers[key].log),
            None => None,
        }
    }
}
