//! A part without its bad blocks.
ghost use Rattle.std.specs.Prelude.{◌≡◌, ◌<◌, ◌≤◌, Err, IfOk, true, length};
ghost use Rattle.nand_2k.specs.Answers.{fails};
ghost use Rattle.nand_2k.specs.Part.{ChangesStatus};
ghost use Rattle.nand_rising.specs.declared.good.NoTable.TheVariants.{Unread};
ghost use Rattle.bounded_vec.specs.Bounded.{with_items};
ghost use Rattle.nand_rising.specs.Marks.{good_in, taking};

use crate::pages::Pages;
use crate::shape::Shape;
use bounded_vec::BoundedVec;
use chip_trait::Failed;
use nand_2k::Status;
use std::alloc::Global;

/// Why there is no table of good blocks.
#[derive(Clone, Copy, Debug, PartialEq, Eq)]
pub enum NoTable {
    OutOfMemory,
    /// A block's mark couldn't be read.
    Unread,
}

/// Puts a block behind the good ones, unless it is marked.
fn take(good: &mut BoundedVec<u16>, block: u16, marked: bool)
    requires { length good.old.items < good.old.room }
    ensures { good.new ≡ with_items good.old (taking marked block good.old.items) }
{
    if !marked {
        good.push(block);
    }
}

/// The numbers of the blocks that the factory didn't mark as bad, in rising order, two bytes each. They
/// are the same at each start.
pub fn good_blocks<D: Pages>(alloc: Global, pages: &mut D) -> Result<BoundedVec<u16>, NoTable>
    requires few { (D.shape pages.old).blocks ≤ 65536 }
    ensures good { IfOk result (λ table. table.items
        ≡ good_in (D.bad pages.old) (D.shape pages.old).blocks) }
    ensures shape { D.shape pages.new ≡ D.shape pages.old }
    ensures marks { D.bad pages.new ≡ D.bad pages.old }
    ensures only { ChangesStatus (D.told pages.old) (D.told pages.new) }
    ensures cause { result ≡ Err Unread → fails (D.told pages.new).status ≡ true }
{
    let count = pages.shape().blocks;
    let mut good = match BoundedVec::new(alloc, count as usize) {
        Ok(good) => good,
        Err(_) => return Err(NoTable::OutOfMemory),
    };
    for block in 0..count {
        let marked = match pages.reads_mark(block) {
            Ok(marked) => marked,
            Err(Failed) => return Err(NoTable::Unread),
        };
        take(&mut good, block as u16, marked);
    }
    Ok(good)
}

/// Pages over the good blocks of a driver, one after another: block n is the n-th good one. A bad block
/// is never read, programmed or erased.
#[derive(Drop)]
pub struct Good<D: Pages + Drop> {
    pages: D,
    good: BoundedVec<u16>,
    ghost table: { good.items ≡ good_in (D.bad pages) (D.shape pages).blocks },
    ghost few: { (D.shape pages).blocks ≤ 65536 },
}

impl<D: Pages + Drop> Good<D> {
    ghost use Rattle.std.specs.Prelude.{get_or};
    ghost use Rattle.nand_rising.specs.Marks.{telling_good};
    ghost use Rattle.nand_rising.specs.Good.{good_of, all_shape_of, all_pages_of, good_shape_of, good_told_of};

    /// Over these pages, with the table that `good_blocks` makes of them.
    pub fn new(pages: D, good: BoundedVec<u16>) -> Good<D>
        requires table { good.items ≡ good_in (D.bad pages) (D.shape pages).blocks }
        requires few { (D.shape pages).blocks ≤ 65536 }
        ensures good { good_of result ≡ good.items }
        ensures shape { good_shape_of result ≡ record (D.shape pages) { blocks = length good.items } }
        ensures told { good_told_of result ≡ telling_good good.items (D.told pages) }
    {
        Good { pages, good }
    }

    /// The pages of all blocks.
    pub fn into_pages(self) -> D
        ensures { D.told result ≡ all_pages_of self }
    {
        self.pages
    }

    /// The pages of all blocks, to be looked at.
    pub fn pages(&self) -> &D
        ensures { D.told result.now ≡ all_pages_of self.now }
    {
        &self.pages
    }

    // The n-th good block.
    fn block(&self, n: u32) -> u32
        requires { n < length (good_of self.now) }
        ensures value { result ≡ get_or (good_of self.now) n 0 }
        ensures within { result < (all_shape_of self.now).blocks }
    {
        u32::from(self.good[n as usize])
    }
}

impl<D: Pages + Drop> Pages for Good<D> {
    ghost use Rattle.std.specs.Prelude.{◌+◌, ◌*◌, false, get_or, Ok, IfSome};
    ghost use Rattle.chip_trait.specs.declared.event.Event.TheVariants.{Program, Erase};
    ghost use Rattle.nand_2k.specs.declared.part.Status.TheVariants.{Passed};
    ghost use Rattle.nand_2k.specs.Part.{AsksPart, AsksErase};
    ghost use Rattle.nand_rising.specs.Shapes.{AreErasedFrom};
    ghost use Rattle.nand_rising.specs.Good.{good_of, all_pages_of, good_shape_of, good_told_of, good_marks_of, good_corrected_of};

    ghost shape = { good_shape_of };

    ghost told = { good_told_of };

    ghost bad = { good_marks_of };

    ghost corrected = { good_corrected_of };

    fn shape(&self) -> Shape {
        let all = self.pages.shape();
        Shape {
            blocks: self.good.len() as u32,
            pages: all.pages,
            chunks: all.chunks,
        }
    }

    /// None of its blocks is bad.
    fn reads_mark(&mut self, block: u32) -> Result<bool, Failed>
        requires { block < (good_shape_of self.old).blocks }
        ensures same { self.new ≡ self.old }
        ensures never { result ≡ Ok false }
    {
        Ok(false)
    }

    fn corrected(&self) -> bool {
        self.pages.corrected()
    }

    fn read_chunk(&mut self, block: u32, page: u32, chunk: u32, into: &mut [u8; 512]) -> Status
        requires block { block < (good_shape_of self.old).blocks }
        requires page { page < (good_shape_of self.old).pages }
        requires chunk { chunk < (good_shape_of self.old).chunks }
        ensures shape { good_shape_of self.new ≡ good_shape_of self.old }
        ensures only { good_told_of self.new ≡ record (good_told_of self.old) { status = result } }
        ensures bytes { result ≡ Passed → IfSome (good_told_of self.old).contents
            (λ x. into.new ≡ x block (page * (good_shape_of self.old).chunks + chunk)) }

        // Nothing is asked of the pages but this chunk of the good block.
        ensures pages { ChangesStatus (all_pages_of self.old) (all_pages_of self.new) }
        ensures good { good_of self.new ≡ good_of self.old }
    {
        let block = self.block(block);
        self.pages.read_chunk(block, page, chunk, into)
    }

    fn program_chunk(&mut self, block: u32, page: u32, chunk: u32, from: &[u8; 512]) -> Status
        requires block { block < (good_shape_of self.old).blocks }
        requires page { page < (good_shape_of self.old).pages }
        requires chunk { chunk < (good_shape_of self.old).chunks }
        requires rising { IfSome (good_told_of self.old).contents
            (λ x. AreErasedFrom (good_shape_of self.old) page chunk (x block)) }
        ensures shape { good_shape_of self.new ≡ good_shape_of self.old }
        ensures asks { AsksPart result
            (Program block (page * (good_shape_of self.old).chunks + chunk) from.now)
            (good_told_of self.old) (good_told_of self.new) }

        // Of the pages it asks this chunk of the good block.
        ensures pages { AsksPart result (Program (get_or (good_of self.old) block 0)
            (page * (good_shape_of self.old).chunks + chunk) from.now)
            (all_pages_of self.old) (all_pages_of self.new) }
        ensures good { good_of self.new ≡ good_of self.old }
    {
        let block = self.block(block);
        self.pages.program_chunk(block, page, chunk, from)
    }

    fn erase_block(&mut self, block: u32) -> Status
        requires { block < (good_shape_of self.old).blocks }
        ensures shape { good_shape_of self.new ≡ good_shape_of self.old }
        ensures asks { AsksErase result (Erase block) (good_told_of self.old) (good_told_of self.new) }

        // Of the pages it asks the good block.
        ensures pages { AsksErase result (Erase (get_or (good_of self.old) block 0))
            (all_pages_of self.old) (all_pages_of self.new) }
        ensures good { good_of self.new ≡ good_of self.old }
    {
        let block = self.block(block);
        self.pages.erase_block(block)
    }
}
