//! A chip over a part.
ghost use Rattle.std.specs.Prelude.{◌≡◌};
ghost use Rattle.std.proofs.Props.{props};
ghost use Rattle.nand_2k.specs.Cached.{IsCached};

use crate::page_at::{PageAt, is_at, other_than, outside};
use crate::part::{Part, Status};
use chip_mem::Faults;
use chip_trait::{Chip, Failed, Wear};

/// A chip over a part: each of its blocks is a place, and each quarter of a page a sector. One page
/// is kept in memory. It tells what the part tells of its contents, and no story.
#[derive(Drop)]
pub struct Nand2k<P: Part + Drop> {
    part: P,
    cached: Option<PageAt>,
    quarters: [[u8; 512]; 4],
    faults: Faults,
    // How many blocks were found worn, up to its last value.
    worn: u64,
    ghost right: { IsCached (P.told part).contents cached quarters } by { Prim.hlevel props },
}

impl<P: Part + Drop> Nand2k<P> {
    ghost use Rattle.chip_mem.specs.Tells.{none_yet};
    ghost use Rattle.nand_2k.specs.Tells.{telling_part};
    ghost use Rattle.nand_2k.specs.Views.{part_of, nand_told_of};

    /// A chip over this part, of which nothing was asked yet.
    pub fn new(part: P) -> Nand2k<P>
        ensures part { part_of result ≡ P.told part }
        ensures told { nand_told_of result ≡ telling_part (P.told part) none_yet 0 }
    {
        Nand2k {
            part,
            cached: None,
            quarters: [[0; 512]; 4],
            faults: Faults::new(),
            worn: 0,
        }
    }
}

impl<P: Part + Drop> Nand2k<P> {
    ghost use Rattle.std.specs.Prelude.{◌<◌, true, OnOk, OnErr};
    ghost use Rattle.nand_2k.specs.Answers.{fails};
    ghost use Rattle.nand_2k.specs.Part.{ChangesStatus};
    ghost use Rattle.nand_2k.specs.Views.{part_of, nand_told_of, HasInMemory};
    ghost use Rattle.chip_trait.specs.Told.{Counts};
    ghost use Rattle.chip_mem.specs.Tells.{missed};

    // Reads a page into memory.
    fn fetch(&mut self, block: u32, page: u32) -> Result<(), Failed>
        requires block { block < (part_of self.old).blocks }
        requires page { page < 64 }
        ensures there { OnOk result (HasInMemory self.new block page) }
        ensures told { OnOk result (nand_told_of self.new ≡ nand_told_of self.old) }
        ensures err { OnErr result (nand_told_of self.new ≡ missed (nand_told_of self.old)) }
        ensures cause { OnErr result (fails (part_of self.new).status ≡ true) }
        ensures only { ChangesStatus (part_of self.old) (part_of self.new) }
        ensures counts { Counts (nand_told_of self.old) (nand_told_of self.new) }
    {
        self.cached = None;
        match self.part.read_page(block, page, &mut self.quarters) {
            Status::Passed => {
                self.cached = Some(PageAt { block, page });
                Ok(())
            }
            Status::Failed | Status::Unknown => {
                self.faults.count_read();
                Err(Failed)
            }
        }
    }
}

impl<P: Part + Drop> Chip for Nand2k<P> {
    ghost use Rattle.std.specs.Prelude.{◌<◌, ◌/◌, true, Some, None, IfSome};
    ghost use Rattle.std.specs.Prelude.{is_err, OnOk, OnErr, IsOk, MatchResult};
    ghost use Rattle.chip_trait.specs.declared.event.Event.TheVariants.{Program, Erase};
    ghost use Rattle.chip_trait.specs.Told.{Counts};
    ghost use Rattle.chip_mem.specs.Tells.{appended, missed, broken};
    ghost use Rattle.nand_2k.specs.Part.{ChangesStatus, with_request};
    ghost use Rattle.nand_2k.specs.Answers.{fails, wear_of, told_after_wear};
    ghost use Rattle.nand_2k.specs.Tells.{part_consistently};
    ghost use Rattle.nand_2k.specs.Views.{part_of, nand_told_of, HasInMemory};

    ghost told = { nand_told_of };

    ghost consistent = { λ chip. part_consistently (P.told chip.part) chip.faults chip.worn };

    fn units(&self) -> u32 {
        self.part.blocks()
    }

    /// A sector of the page in memory, or of the page that is then read there.
    fn read(&mut self, p: u32, s: u32, into: &mut [u8; 512]) -> Result<(), Failed>
        requires place { p < (nand_told_of self.old).places }
        requires sector { s < 256 }
        ensures tells { MatchResult result
            (λ _. nand_told_of self.new ≡ nand_told_of self.old)
            (λ _. nand_told_of self.new ≡ missed (nand_told_of self.old)) }
        ensures bytes { OnOk result
            (IfSome (nand_told_of self.old).contents (λ x. into.new ≡ x p s)) }
        ensures counts { Counts (nand_told_of self.old) (nand_told_of self.new) }

        // It fails only where the part's read does. That changes nothing of the part but its status.
        ensures cause { OnErr result (fails (part_of self.new).status ≡ true) }
        ensures only { ChangesStatus (part_of self.old) (part_of self.new) }

        // The page is in memory then, and one that is there isn't read again.
        ensures caches { OnOk result (HasInMemory self.new p (s / 4)) }
        ensures cached { HasInMemory self.old p (s / 4) →
            IsOk result × (part_of self.new ≡ part_of self.old) }
    {
        if !is_at(self.cached, p, s / 4) {
            self.fetch(p, s / 4)?;
        }
        *into = self.quarters[(s % 4) as usize];
        Ok(())
    }

    /// One partial program.
    fn program(&mut self, p: u32, s: u32, from: &[u8; 512]) -> Result<(), Failed>
        requires place { p < (nand_told_of self.old).places }
        requires sector { s < 256 }
        ensures tells { MatchResult result
            (λ _. nand_told_of self.new
            ≡ appended (Program p s from.now) (nand_told_of self.old))
            (λ _. nand_told_of self.new ≡ broken (nand_told_of self.old)) }
        ensures counts { Counts (nand_told_of self.old) (nand_told_of self.new) }

        // It fails exactly where the part's program does, and nothing else is asked of the part.
        ensures answers { is_err result ≡ fails (part_of self.new).status }
        ensures asks { (part_of self.new).asked
            ≡ with_request (Program p s from.now) (part_of self.old).asked }
    {
        // What is in memory of this page is about to be old.
        self.cached = other_than(self.cached, p, s / 4);
        match self.part.program_part(p, s / 4, s % 4, from) {
            Status::Passed => Ok(()),
            Status::Failed | Status::Unknown => {
                self.cached = None;
                self.faults.count_write();
                Err(Failed)
            }
        }
    }

    /// One erase of the block.
    fn erase(&mut self, p: u32) -> Result<Wear, Failed>
        requires { p < (nand_told_of self.old).places }
        ensures tells { MatchResult result
            (λ wear. nand_told_of self.new
            ≡ told_after_wear wear p (nand_told_of self.old))
            (λ _. nand_told_of self.new ≡ broken (nand_told_of self.old)) }
        ensures counts { Counts (nand_told_of self.old) (nand_told_of self.new) }

        // The part's answer says whether the block is worn, and nothing else is asked of the part.
        ensures answers { MatchResult result
            (λ wear. wear_of (part_of self.new).status ≡ Some wear)
            (λ _. wear_of (part_of self.new).status ≡ None) }
        ensures asks { (part_of self.new).asked ≡ with_request (Erase p) (part_of self.old).asked }
    {
        self.cached = outside(self.cached, p);
        match self.part.erase_block(p) {
            Status::Passed => Ok(Wear::Done),
            Status::Failed => {
                self.worn = self.worn.saturating_add(1);
                Ok(Wear::Worn)
            }
            Status::Unknown => {
                self.cached = None;
                self.faults.count_write();
                Err(Failed)
            }
        }
    }

    /// It never fails and asks nothing of the part, which holds nothing back: each of its calls
    /// ends once the part is ready again.
    fn barrier(&mut self) -> Result<(), Failed>
        ensures same { self.new ≡ self.old }
        ensures never { IsOk result }
    {
        Ok(())
    }
}
