//! A part in memory, by pages.
ghost use Rattle.std.specs.Prelude.{◌≡◌, ◌<◌, ◌≤◌, ◌+◌, ◌*◌};
ghost use Rattle.chip_mem.specs.Views.{plain_told_of};

use crate::pages::Pages;
use crate::shape::Shape;
use chip_mem::PlainChip;
use chip_trait::{Chip, Failed};
use ipl_base::OutOfMemory;
use nand_2k::Status;
use std::alloc::Global;

/// A part in memory of which each call passes. It tells what it holds, and not what it was asked.
#[derive(Drop)]
pub struct MemPages {
    // Chunk c of page g is sector (chunks a page) g + c of its block.
    chunks: PlainChip,
    shape: Shape,
    ghost sized: { (plain_told_of chunks).places ≡ shape.blocks },
    ghost small: { shape.pages * shape.chunks ≤ 256 },
}

impl MemPages {
    ghost use Rattle.std.specs.Prelude.{Some, IfOk};
    ghost use Rattle.chip_mem.specs.Sectors.{erased};
    ghost use Rattle.nand_2k.specs.Tells.{holding};
    ghost use Rattle.nand_rising.specs.Memory.{mem_shape_of, mem_pages_told_of};

    /// An erased part of this shape, of at most 256 chunks a block.
    pub fn new(alloc: Global, shape: Shape) -> Result<MemPages, OutOfMemory>
        requires { shape.pages * shape.chunks ≤ 256 }
        ensures shape { IfOk result (λ part. mem_shape_of part ≡ shape) }
        ensures told { IfOk result (λ part. mem_pages_told_of part ≡ holding shape.blocks (Some erased)) }
    {
        Ok(MemPages {
            chunks: PlainChip::new(alloc, shape.blocks)?,
            shape,
        })
    }
}

/// Chunk c of page g, by its number in the block.
#[tactic(auto, using(std::proofs::lemmas::Nat::row_fits))]
fn index_of(shape: Shape, page: u32, chunk: u32) -> u32
    requires page { page < shape.pages }
    requires chunk { chunk < shape.chunks }
    requires small { shape.pages * shape.chunks ≤ 256 }
    ensures value { result ≡ page * shape.chunks + chunk }
    ensures within { result < 256 }
{
    page * shape.chunks + chunk
}

impl Pages for MemPages {
    ghost use Rattle.std.specs.Prelude.{◌<◌, ◌+◌, false, Ok, IfSome};
    ghost use Rattle.chip_trait.specs.declared.event.Event.TheVariants.{Program, Erase};
    ghost use Rattle.nand_2k.specs.declared.part.Status.TheVariants.{Passed};
    ghost use Rattle.nand_2k.specs.Part.{AsksPart, AsksErase};
    ghost use Rattle.nand_rising.specs.Memory.{mem_shape_of, mem_pages_told_of, mem_marks_of, mem_corrected_of};

    ghost shape = { mem_shape_of };

    ghost told = { mem_pages_told_of };

    ghost bad = { mem_marks_of };

    ghost corrected = { mem_corrected_of };

    fn shape(&self) -> Shape {
        self.shape
    }

    /// No block is bad.
    fn reads_mark(&mut self, block: u32) -> Result<bool, Failed>
        requires { block < (mem_shape_of self.old).blocks }
        ensures same { self.new ≡ self.old }
        ensures never { result ≡ Ok false }
    {
        Ok(false)
    }

    /// Nothing has to be corrected.
    fn corrected(&self) -> bool
        ensures { result ≡ false }
    {
        false
    }

    /// It always passes.
    fn read_chunk(&mut self, block: u32, page: u32, chunk: u32, into: &mut [u8; 512]) -> Status
        requires block { block < (mem_shape_of self.old).blocks }
        requires page { page < (mem_shape_of self.old).pages }
        requires chunk { chunk < (mem_shape_of self.old).chunks }
        ensures shape { mem_shape_of self.new ≡ mem_shape_of self.old }
        ensures marks { mem_marks_of self.new ≡ mem_marks_of self.old }
        ensures only { mem_pages_told_of self.new ≡ mem_pages_told_of self.old }
        ensures bytes { IfSome (mem_pages_told_of self.old).contents
            (λ x. into.new ≡ x block (page * (mem_shape_of self.old).chunks + chunk)) }
        ensures passed { result ≡ Passed }
    {
        let index = index_of(self.shape, page, chunk);
        let _ = self.chunks.read(block, index, into);
        Status::Passed
    }

    /// It always passes.
    fn program_chunk(&mut self, block: u32, page: u32, chunk: u32, from: &[u8; 512]) -> Status
        requires block { block < (mem_shape_of self.old).blocks }
        requires page { page < (mem_shape_of self.old).pages }
        requires chunk { chunk < (mem_shape_of self.old).chunks }
        ensures shape { mem_shape_of self.new ≡ mem_shape_of self.old }
        ensures marks { mem_marks_of self.new ≡ mem_marks_of self.old }
        ensures asks { AsksPart result (Program block (page * (mem_shape_of self.old).chunks + chunk) from.now)
            (mem_pages_told_of self.old) (mem_pages_told_of self.new) }
        ensures passed { result ≡ Passed }
    {
        let index = index_of(self.shape, page, chunk);
        let _ = self.chunks.program(block, index, from);
        Status::Passed
    }

    /// It always passes.
    fn erase_block(&mut self, block: u32) -> Status
        requires { block < (mem_shape_of self.old).blocks }
        ensures shape { mem_shape_of self.new ≡ mem_shape_of self.old }
        ensures marks { mem_marks_of self.new ≡ mem_marks_of self.old }
        ensures asks { AsksErase result (Erase block)
            (mem_pages_told_of self.old) (mem_pages_told_of self.new) }
        ensures passed { result ≡ Passed }
    {
        let _ = self.chunks.erase(block);
        Status::Passed
    }
}
