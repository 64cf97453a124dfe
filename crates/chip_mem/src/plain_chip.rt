//! A chip in memory that keeps no story.
ghost use Rattle.std.specs.Prelude.{◌≡◌, ◌*◌, length, IfOk};

use crate::sectors::{erased_sectors, forget_place, none_written, read_written, write_sector};
use chip_trait::{Chip, Failed, Wear};
use ipl_base::{OutOfMemory, SECTORS};
use std::alloc::Global;

/// A chip in memory that never fails. It tells what it holds, and no story. An erase sets no byte of a sector: it
/// is noted which were written since.
#[derive(Drop)]
pub struct PlainChip {
    places: u32,
    sectors: Vec<[u8; 512]>,
    written: Vec<bool>,
    ghost sized: { length sectors.items ≡ places * 256 },
    ghost noted: { length written.items ≡ places * 256 },
}

impl PlainChip {
    ghost use Rattle.chip_mem.specs.Sectors.{erased};
    ghost use Rattle.chip_mem.specs.Tells.{telling_contents};
    ghost use Rattle.chip_mem.specs.Views.{plain_told_of};

    /// An erased chip of so many places.
    pub fn new(alloc: Global, places: u32) -> Result<PlainChip, OutOfMemory>
        ensures { IfOk result (λ chip. plain_told_of chip ≡ telling_contents places erased) }
    {
        let count = places as usize * SECTORS as usize;
        Ok(PlainChip {
            places,
            sectors: erased_sectors(alloc, count)?,
            written: none_written(alloc, count)?,
        })
    }
}

impl Chip for PlainChip {
    ghost use Rattle.std.specs.Prelude.{◌<◌, Ok, OnOk, IsOk, IfSome};
    ghost use Rattle.chip_trait.specs.declared.wear.Wear.TheVariants.{Done};
    ghost use Rattle.chip_trait.specs.Wears.{Wears};
    ghost use Rattle.chip_trait.specs.declared.event.Event.TheVariants.{Read, Program, Erase, Barrier};
    ghost use Rattle.chip_trait.specs.Told.{Appends, Counts};
    ghost use Rattle.chip_mem.specs.Tells.{appended, contents_consistently};
    ghost use Rattle.chip_mem.specs.Sectors.{written_contents};
    ghost use Rattle.chip_mem.specs.Views.{plain_told_of};

    ghost told = { plain_told_of };

    ghost consistent = { λ chip. contents_consistently chip.places (written_contents chip.written.items chip.sectors.items) };

    fn units(&self) -> u32 {
        self.places
    }

    /// It never fails.
    fn read(&mut self, p: u32, s: u32, into: &mut [u8; 512]) -> Result<(), Failed>
        requires place { p < (plain_told_of self.old).places }
        requires sector { s < 256 }
        ensures ok { OnOk result (Appends (Read p s) (plain_told_of self.old) (plain_told_of self.new)) }
        ensures bytes { OnOk result (IfSome (plain_told_of self.old).contents (λ x. into.new ≡ x p s)) }
        ensures counts { Counts (plain_told_of self.old) (plain_told_of self.new) }
        ensures never { IsOk result }
    {
        read_written(&self.written, &self.sectors, p as usize, s as usize, into);
        Ok(())
    }

    /// It never fails.
    fn program(&mut self, p: u32, s: u32, from: &[u8; 512]) -> Result<(), Failed>
        requires place { p < (plain_told_of self.old).places }
        requires sector { s < 256 }
        ensures ok { OnOk result (Appends (Program p s from.now) (plain_told_of self.old) (plain_told_of self.new)) }
        ensures counts { Counts (plain_told_of self.old) (plain_told_of self.new) }
        ensures never { IsOk result }
    {
        write_sector(
            &mut self.written,
            &mut self.sectors,
            p as usize,
            s as usize,
            from,
        );
        Ok(())
    }

    /// It never fails, and finds no place worn.
    fn erase(&mut self, p: u32) -> Result<Wear, Failed>
        requires { p < (plain_told_of self.old).places }
        ensures ok { IfOk result (λ wear. Wears wear p (plain_told_of self.old) (plain_told_of self.new)) }
        ensures done { result ≡ Ok Done }
        ensures counts { Counts (plain_told_of self.old) (plain_told_of self.new) }
    {
        forget_place(&mut self.written, p as usize);
        Ok(Wear::Done)
    }

    /// It never fails.
    fn barrier(&mut self) -> Result<(), Failed>
        ensures ok { OnOk result (Appends Barrier (plain_told_of self.old) (plain_told_of self.new)) }
        ensures counts { Counts (plain_told_of self.old) (plain_told_of self.new) }
        ensures never { IsOk result }
    {
        Ok(())
    }
}
