//! A part as its driver sees it, by pages.
ghost use Rattle.std.specs.Prelude.{◌≡◌, ◌<◌, ◌+◌, ◌*◌, ℕ, Bool, true, OnErr, IfOk, IfSome};
ghost use Rattle.chip_trait.specs.declared.event.Event.TheVariants.{Program, Erase};
ghost use Rattle.nand_2k.specs.declared.part.Status.TheVariants.{Passed};
ghost use Rattle.nand_2k.specs.Answers.{fails};
ghost use Rattle.nand_2k.specs.Part.{PartTold, ChangesStatus, AsksPart, AsksErase};
ghost use Rattle.nand_rising.specs.declared.shape.Shape.{Shape};
ghost use Rattle.nand_rising.specs.Shapes.{AreErasedFrom};

use crate::shape::Shape;
use chip_trait::Failed;
use nand_2k::Status;

/// A part of blocks of pages, whatever its shape. Between erases of a block its pages are programmed in
/// rising order, and the chunks of a page too, each once; some may be left out.
///
/// A call returns once the part is ready again, and what passed lasts.
pub trait Pages {
    /// Its shape; it never changes.
    ghost shape: { Self → Shape };

    /// What it tells of itself: chunk c of page g is sector (chunks a page) g + c of its block.
    ghost told: { Self → PartTold };

    /// Which blocks the factory marked as bad; it never changes.
    ghost bad: { Self → ℕ → Bool };

    /// Whether the ECC had to correct the chunk that was read last.
    ghost corrected: { Self → Bool };

    fn shape(&self) -> Shape
        ensures { result ≡ shape self.now };

    /// Whether a block has the factory's mark of a bad one. It may be asked before anything is programmed
    /// or erased, and a block that has it is neither.
    fn reads_mark(&mut self, block: u32) -> Result<bool, Failed>
        requires { block < (shape self.old).blocks }
        ensures shape { shape self.new ≡ shape self.old }
        ensures marks { bad self.new ≡ bad self.old }
        ensures only { ChangesStatus (told self.old) (told self.new) }
        ensures mark { IfOk result (λ marked. bad self.old block ≡ marked) }
        ensures cause { OnErr result (fails (told self.new).status ≡ true) };

    /// Whether the ECC had to correct the chunk that was read last.
    fn corrected(&self) -> bool
        ensures { result ≡ corrected self.now };

    /// Reads a chunk of a page, with its errors corrected. One that can't be corrected, as a power cut
    /// leaves one, is handed over as it reads, and passed. Unless it passed, the buffer holds anything.
    fn read_chunk(&mut self, block: u32, page: u32, chunk: u32, into: &mut [u8; 512]) -> Status
        requires block { block < (shape self.old).blocks }
        requires page { page < (shape self.old).pages }
        requires chunk { chunk < (shape self.old).chunks }
        ensures shape { shape self.new ≡ shape self.old }
        ensures marks { bad self.new ≡ bad self.old }
        ensures only { told self.new ≡ record (told self.old) { status = result } }
        ensures bytes { result ≡ Passed → IfSome (told self.old).contents
            (λ x. into.new ≡ x block (page * (shape self.old).chunks + chunk)) };

    /// Programs a chunk of a page. That chunk, those behind it and those of all later pages are erased, as
    /// far as they are ever used. Unless it passed, the part holds anything: but a driver owes that this
    /// is so of that chunk alone, also where a power cut meets it.
    fn program_chunk(&mut self, block: u32, page: u32, chunk: u32, from: &[u8; 512]) -> Status
        requires block { block < (shape self.old).blocks }
        requires page { page < (shape self.old).pages }
        requires chunk { chunk < (shape self.old).chunks }
        requires rising { IfSome (told self.old).contents
            (λ x. AreErasedFrom (shape self.old) page chunk (x block)) }
        ensures shape { shape self.new ≡ shape self.old }
        ensures marks { bad self.new ≡ bad self.old }
        ensures asks { AsksPart result
            (Program block (page * (shape self.old).chunks + chunk) from.now) (told self.old) (told self.new) };

    /// Erases a block. `Failed` says that it holds what it held, as long as the part has power; a part
    /// that can't be sure of that says `Unknown`, after which it holds anything.
    fn erase_block(&mut self, block: u32) -> Status
        requires { block < (shape self.old).blocks }
        ensures shape { shape self.new ≡ shape self.old }
        ensures marks { bad self.new ≡ bad self.old }
        ensures asks { AsksErase result (Erase block) (told self.old) (told self.new) };
}
