//! Pages that hold whoever programs them to their order.
ghost use Rattle.std.specs.Prelude.{◌≡◌, ◌<◌, ◌+◌, ◌*◌, true, length};
ghost use Rattle.nand_2k.specs.declared.part.Status.TheVariants.{Passed};
ghost use Rattle.nand_rising.specs.Shapes.{is_served};

use crate::pages::Pages;
use crate::shape::Shape;
use bounded_vec::BoundedVec;
use chip_trait::Failed;
use ipl_base::OutOfMemory;
use nand_2k::Status;
use std::alloc::Global;

/// Pages over those of a driver. A program of a chunk that isn't behind all that its block got since
/// its erase fails, is counted, and isn't asked of the driver: so pages rise, and of a page no more
/// programs pass than its shape has chunks. It stands between a chip and a driver while these are
/// tried. What the driver was asked it doesn't tell.
#[derive(Drop)]
pub struct Strict<D: Pages + Drop> {
    pages: D,
    // From which chunk on each block may be programmed.
    free: BoundedVec<u32>,
    // How many programs were refused, up to its last value.
    refused: u64,
    said: Status,
    ghost sized: { length free.items ≡ (D.shape pages).blocks },
    ghost served: { is_served (D.shape pages) ≡ true },
}

/// Chunk c of page g, by its number in the block.
fn chunk_number(shape: Shape, page: u32, chunk: u32) -> u32
    requires served { is_served shape ≡ true }
    requires page { page < shape.pages }
    requires chunk { chunk < shape.chunks }
    ensures value { result ≡ page * shape.chunks + chunk }
    ensures within { result < 65536 }
{
    page * shape.chunks + chunk
}

impl<D: Pages + Drop> Strict<D> {
    ghost use Rattle.std.specs.Prelude.{replicate, IfOk};
    ghost use Rattle.nand_rising.specs.Strict.{strict_told_of, strict_shape_of, strict_pages_of, telling_strict, free_of, refused_of};

    /// Over these pages, any of which may be programmed yet.
    pub fn new(alloc: Global, pages: D) -> Result<Strict<D>, OutOfMemory>
        requires { is_served (D.shape pages) ≡ true }
        ensures shape { IfOk result (λ part. strict_shape_of part ≡ D.shape pages) }
        ensures told { IfOk result (λ part. strict_told_of part ≡ telling_strict Passed (D.told pages)) }
        ensures free { IfOk result (λ part. free_of part ≡ replicate (D.shape pages).blocks 0) }
        ensures refused { IfOk result (λ part. refused_of part ≡ 0) }
    {
        let count = pages.shape().blocks as usize;
        let free = BoundedVec::filled(alloc, count, count, 0)?;
        Ok(Strict {
            pages,
            free,
            refused: 0,
            said: Status::Passed,
        })
    }

    /// How many programs were refused.
    pub fn refused(&self) -> u64
        ensures { result ≡ refused_of self.now }
    {
        self.refused
    }

    /// The pages.
    pub fn into_pages(self) -> D
        ensures { D.told result ≡ strict_pages_of self }
    {
        self.pages
    }

    /// The pages, to be looked at.
    pub fn pages(&self) -> &D
        ensures { D.told result.now ≡ strict_pages_of self.now }
    {
        &self.pages
    }
}

impl<D: Pages + Drop> Pages for Strict<D> {
    ghost use Rattle.std.specs.Prelude.{◌≢◌, OnErr, IfOk, IfSome, set};
    ghost use Rattle.nand_2k.specs.Answers.{fails};
    ghost use Rattle.chip_trait.specs.declared.event.Event.TheVariants.{Program, Erase};
    ghost use Rattle.nand_2k.specs.Part.{ChangesStatus, AsksPart, AsksErase};
    ghost use Rattle.nand_rising.specs.Shapes.{AreErasedFrom};
    ghost use Rattle.nand_rising.specs.Strict.{strict_told_of, strict_shape_of, strict_pages_of, strict_marks_of, strict_corrected_of, free_of, refused_of, IsHeldTo};

    ghost shape = { strict_shape_of };

    ghost told = { strict_told_of };

    ghost bad = { strict_marks_of };

    ghost corrected = { strict_corrected_of };

    fn shape(&self) -> Shape {
        self.pages.shape()
    }

    fn reads_mark(&mut self, block: u32) -> Result<bool, Failed>
        requires { block < (strict_shape_of self.old).blocks }
        ensures shape { strict_shape_of self.new ≡ strict_shape_of self.old }
        ensures marks { strict_marks_of self.new ≡ strict_marks_of self.old }
        ensures only { ChangesStatus (strict_told_of self.old) (strict_told_of self.new) }
        ensures mark { IfOk result (λ marked. strict_marks_of self.old block ≡ marked) }
        ensures cause { OnErr result (fails (strict_told_of self.new).status ≡ true) }
        ensures free { free_of self.new ≡ free_of self.old }
        ensures refused { refused_of self.new ≡ refused_of self.old }
    {
        match self.pages.reads_mark(block) {
            Ok(marked) => {
                self.said = Status::Passed;
                Ok(marked)
            }
            Err(Failed) => {
                self.said = Status::Failed;
                Err(Failed)
            }
        }
    }

    fn corrected(&self) -> bool {
        self.pages.corrected()
    }

    fn read_chunk(&mut self, block: u32, page: u32, chunk: u32, into: &mut [u8; 512]) -> Status
        requires block { block < (strict_shape_of self.old).blocks }
        requires page { page < (strict_shape_of self.old).pages }
        requires chunk { chunk < (strict_shape_of self.old).chunks }
        ensures shape { strict_shape_of self.new ≡ strict_shape_of self.old }
        ensures marks { strict_marks_of self.new ≡ strict_marks_of self.old }
        ensures only { strict_told_of self.new ≡ record (strict_told_of self.old) { status = result } }
        ensures bytes { result ≡ Passed → IfSome (strict_told_of self.old).contents
            (λ x. into.new ≡ x block (page * (strict_shape_of self.old).chunks + chunk)) }

        // It changes nothing of the pages but their status, and counts nothing.
        ensures pages { ChangesStatus (strict_pages_of self.old) (strict_pages_of self.new) }
        ensures free { free_of self.new ≡ free_of self.old }
        ensures refused { refused_of self.new ≡ refused_of self.old }
    {
        self.said = self.pages.read_chunk(block, page, chunk, into);
        self.said
    }

    /// It is refused exactly where the chunk isn't behind all that its block got since its erase.
    fn program_chunk(&mut self, block: u32, page: u32, chunk: u32, from: &[u8; 512]) -> Status
        requires block { block < (strict_shape_of self.old).blocks }
        requires page { page < (strict_shape_of self.old).pages }
        requires chunk { chunk < (strict_shape_of self.old).chunks }
        requires rising { IfSome (strict_told_of self.old).contents
            (λ x. AreErasedFrom (strict_shape_of self.old) page chunk (x block)) }
        ensures shape { strict_shape_of self.new ≡ strict_shape_of self.old }
        ensures marks { strict_marks_of self.new ≡ strict_marks_of self.old }
        ensures asks { AsksPart result
            (Program block (page * (strict_shape_of self.old).chunks + chunk) from.now)
            (strict_told_of self.old) (strict_told_of self.new) }
        ensures held { IsHeldTo block (page * (strict_shape_of self.old).chunks + chunk) from.now result
            self.old self.new }
    {
        let index = chunk_number(self.pages.shape(), page, chunk);
        if index < self.free[block as usize] {
            self.refused = self.refused.saturating_add(1);
            self.said = Status::Failed;
            return Status::Failed;
        }
        self.said = self.pages.program_chunk(block, page, chunk, from);
        self.free[block as usize] = index + 1;
        self.said
    }

    fn erase_block(&mut self, block: u32) -> Status
        requires { block < (strict_shape_of self.old).blocks }
        ensures shape { strict_shape_of self.new ≡ strict_shape_of self.old }
        ensures marks { strict_marks_of self.new ≡ strict_marks_of self.old }
        ensures asks { AsksErase result (Erase block) (strict_told_of self.old) (strict_told_of self.new) }

        // Where it passed, each chunk of the block may be programmed again.
        ensures pages { AsksErase result (Erase block) (strict_pages_of self.old) (strict_pages_of self.new) }
        ensures free { result ≡ Passed → free_of self.new ≡ set (free_of self.old) block 0 }
        ensures left { result ≢ Passed → free_of self.new ≡ free_of self.old }
        ensures refused { refused_of self.new ≡ refused_of self.old }
    {
        self.said = self.pages.erase_block(block);
        if self.said == Status::Passed {
            self.free[block as usize] = 0;
        }
        self.said
    }
}
