//! A part in memory.
ghost use Rattle.std.specs.Prelude.{◌≡◌, IfOk};

use crate::part::{Part, Status};
use chip_mem::PlainChip;
use chip_trait::Chip;
use ipl_base::OutOfMemory;
use std::alloc::Global;

/// A part in memory of which each call passes. It tells what it holds, and not what it was asked.
#[derive(Drop)]
pub struct MemPart {
    // Sector 4 g + q of a place is quarter q of page g.
    sectors: PlainChip,
}

impl MemPart {
    ghost use Rattle.std.specs.Prelude.{Some};
    ghost use Rattle.chip_mem.specs.Sectors.{erased};
    ghost use Rattle.nand_2k.specs.Tells.{holding};
    ghost use Rattle.nand_2k.specs.Views.{mem_told_of};

    /// An erased part of so many blocks.
    pub fn new(alloc: Global, blocks: u32) -> Result<MemPart, OutOfMemory>
        ensures { IfOk result (λ part. mem_told_of part ≡ holding blocks (Some erased)) }
    {
        Ok(MemPart {
            sectors: PlainChip::new(alloc, blocks)?,
        })
    }
}

impl Part for MemPart {
    ghost use Rattle.std.specs.Prelude.{◌<◌, ◌+◌, ◌*◌};
    ghost use Rattle.chip_trait.specs.declared.event.Event.TheVariants.{Program, Erase};
    ghost use Rattle.nand_2k.specs.declared.part.Status.TheVariants.{Passed};
    ghost use Rattle.nand_2k.specs.Part.{AreQuarters, AsksPart, AsksErase};
    ghost use Rattle.nand_2k.specs.Views.{mem_told_of};

    ghost told = { mem_told_of };

    fn blocks(&self) -> u32 {
        self.sectors.units()
    }

    /// It always passes.
    fn read_page(&mut self, block: u32, page: u32, into: &mut [[u8; 512]; 4]) -> Status
        requires block { block < (mem_told_of self.old).blocks }
        requires page { page < 64 }
        ensures only { mem_told_of self.new ≡ mem_told_of self.old }
        ensures bytes { AreQuarters (mem_told_of self.old).contents block page into.new }
        ensures passed { result ≡ Passed }
    {
        for quarter in 0..4 {
            let mut bytes = [0; 512];
            let _ = self.sectors.read(block, page * 4 + quarter, &mut bytes);
            into[quarter as usize] = bytes;
        }
        Status::Passed
    }

    /// It always passes.
    fn program_part(&mut self, block: u32, page: u32, quarter: u32, from: &[u8; 512]) -> Status
        requires block { block < (mem_told_of self.old).blocks }
        requires page { page < 64 }
        requires quarter { quarter < 4 }
        ensures asks { AsksPart result (Program block (page * 4 + quarter) from.now)
            (mem_told_of self.old) (mem_told_of self.new) }
        ensures passed { result ≡ Passed }
    {
        let _ = self.sectors.program(block, page * 4 + quarter, from);
        Status::Passed
    }

    /// It always passes.
    fn erase_block(&mut self, block: u32) -> Status
        requires { block < (mem_told_of self.old).blocks }
        ensures asks { AsksErase result (Erase block)
            (mem_told_of self.old) (mem_told_of self.new) }
        ensures passed { result ≡ Passed }
    {
        let _ = self.sectors.erase(block);
        Status::Passed
    }
}
