//! A part as its driver sees it.
ghost use Rattle.std.specs.Prelude.{◌≡◌, ◌<◌, ◌+◌, ◌*◌};
ghost use Rattle.chip_trait.specs.declared.event.Event.TheVariants.{Program, Erase};
ghost use Rattle.nand_2k.specs.declared.part.Status.TheVariants.{Passed};
ghost use Rattle.nand_2k.specs.Part.{PartTold, AreQuarters, AsksPart, AsksErase};

/// What a part says of a call, once it is ready again.
#[derive(Clone, Copy, Debug, PartialEq, Eq)]
pub enum Status {
    /// It was done.
    Passed,
    /// The part says that it failed.
    Failed,
    /// The part didn't say: its status couldn't be had, or it didn't get ready.
    Unknown,
}

/// A part of blocks of 64 pages. A page is 2,048 bytes, four quarters of 512, each programmed by
/// itself and once between erases of its block: four partial programs a page, in any order.
///
/// A call returns once the part is ready again, and what passed lasts.
pub trait Part {
    /// What it tells of itself.
    ghost told: { Self → PartTold };

    /// The number of blocks; it never changes.
    fn blocks(&self) -> u32
        ensures { result ≡ (told self.now).blocks };

    /// Reads a page, 0 to 63, with its errors corrected. A quarter that can't be corrected, as a power
    /// cut leaves one, is handed over as it reads, and the page passed: a sector's sum tells it. Unless
    /// it passed, the buffer holds anything.
    fn read_page(&mut self, block: u32, page: u32, into: &mut [[u8; 512]; 4]) -> Status
        requires block { block < (told self.old).blocks }
        requires page { page < 64 }
        ensures only { told self.new ≡ record (told self.old) { status = result } }
        ensures bytes { result ≡ Passed → AreQuarters (told self.old).contents block page into.new };

    /// Programs a quarter of a page, 0 to 3. Unless it passed, the part holds anything: but a driver
    /// owes that this is so of that quarter alone, also where a power cut meets it.
    fn program_part(&mut self, block: u32, page: u32, quarter: u32, from: &[u8; 512]) -> Status
        requires block { block < (told self.old).blocks }
        requires page { page < 64 }
        requires quarter { quarter < 4 }
        ensures { AsksPart result (Program block (page * 4 + quarter) from.now)
            (told self.old) (told self.new) };

    /// Erases a block: each of its bytes is FF. `Failed` says that the block holds what it held, as
    /// long as the part has power; a part that can't be sure of that says `Unknown`, after which it
    /// holds anything.
    fn erase_block(&mut self, block: u32) -> Status
        requires { block < (told self.old).blocks }
        ensures { AsksErase result (Erase block) (told self.old) (told self.new) };
}
