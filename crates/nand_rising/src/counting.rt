//! Slots whose corrected reads are counted by place.
ghost use Rattle.std.specs.Prelude.{◌≡◌, ◌<◌, length};

use crate::part::SlotPart;
use bounded_vec::BoundedVec;
use ipl_base::OutOfMemory;
use nand_2k::Status;
use std::alloc::Global;

/// Slots over those of a part, a byte a place: how many reads of the place's slots the part's ECC had
/// to correct since its last erase or the start, up to 255. A place of which that grows is one to write
/// anew in time.
#[derive(Drop)]
pub struct Counting<P: SlotPart + Drop> {
    part: P,
    counts: BoundedVec<u8>,
    ghost sized: { length counts.items ≡ (P.told part).blocks },
}

impl<P: SlotPart + Drop> Counting<P> {
    ghost use Rattle.std.specs.Prelude.{replicate, get_or, IfOk};
    ghost use Rattle.nand_rising.specs.Counting.{counting_told_of, counts_of};

    /// Over this part, of which nothing was read yet.
    pub fn new(alloc: Global, part: P) -> Result<Counting<P>, OutOfMemory>
        ensures told { IfOk result (λ counting. counting_told_of counting ≡ P.told part) }
        ensures counts { IfOk result (λ counting. counts_of counting ≡ replicate (P.told part).blocks 0) }
    {
        let count = part.places() as usize;
        let counts = BoundedVec::filled(alloc, count, count, 0)?;
        Ok(Counting { part, counts })
    }

    /// How many reads of a place's slots were corrected since its last erase or the start, up to 255.
    pub fn corrected_at(&self, place: u32) -> u8
        requires { place < (counting_told_of self.now).blocks }
        ensures { result ≡ get_or (counts_of self.now) place 0 }
    {
        self.counts[place as usize]
    }

    /// The part.
    pub fn into_part(self) -> P
        ensures { P.told result ≡ counting_told_of self }
    {
        self.part
    }

    /// The part, to be looked at.
    pub fn part(&self) -> &P
        ensures { P.told result.now ≡ counting_told_of self.now }
    {
        &self.part
    }
}

impl<P: SlotPart + Drop> SlotPart for Counting<P> {
    ghost use Rattle.std.specs.Prelude.{◌≢◌, true, false, set, IfSome};
    ghost use Rattle.chip_trait.specs.declared.event.Event.TheVariants.{Program, Erase};
    ghost use Rattle.nand_2k.specs.declared.part.Status.TheVariants.{Passed};
    ghost use Rattle.nand_2k.specs.Part.{AsksPart, AsksErase};
    ghost use Rattle.nand_rising.specs.Slots.{IsErasedFrom};
    ghost use Rattle.nand_rising.specs.Counting.{counting_told_of, was_corrected, counts_of, counted_at};

    ghost told = { counting_told_of };

    ghost corrected = { was_corrected };

    fn places(&self) -> u32 {
        self.part.places()
    }

    /// It is counted where it passed and the ECC had to correct it.
    fn read_slot(&mut self, place: u32, slot: u32, into: &mut [u8; 512]) -> Status
        requires place { place < (counting_told_of self.old).blocks }
        requires slot { slot < 256 }
        ensures only { counting_told_of self.new ≡ record (counting_told_of self.old) { status = result } }
        ensures bytes { result ≡ Passed → IfSome (counting_told_of self.old).contents
            (λ x. into.new ≡ x place slot) }
        ensures counts { result ≡ Passed → was_corrected self.new ≡ true
            → counts_of self.new ≡ counted_at (counts_of self.old) place }
        ensures clean { was_corrected self.new ≡ false → counts_of self.new ≡ counts_of self.old }
        ensures missed { result ≢ Passed → counts_of self.new ≡ counts_of self.old }
    {
        let said = self.part.read_slot(place, slot, into);
        if said == Status::Passed && self.part.corrected() {
            self.counts[place as usize] = self.counts[place as usize].saturating_add(1);
        }
        said
    }

    fn corrected(&self) -> bool {
        self.part.corrected()
    }

    fn program_slot(&mut self, place: u32, slot: u32, from: &[u8; 512]) -> Status
        requires place { place < (counting_told_of self.old).blocks }
        requires slot { slot < 256 }
        requires rising { IfSome (counting_told_of self.old).contents (λ x. IsErasedFrom slot (x place)) }
        ensures asks { AsksPart result (Program place slot from.now)
            (counting_told_of self.old) (counting_told_of self.new) }
        ensures counts { counts_of self.new ≡ counts_of self.old }
    {
        self.part.program_slot(place, slot, from)
    }

    /// Where it passed, the place's count begins anew.
    fn erase_place(&mut self, place: u32) -> Status
        requires { place < (counting_told_of self.old).blocks }
        ensures asks { AsksErase result (Erase place)
            (counting_told_of self.old) (counting_told_of self.new) }
        ensures passed { result ≡ Passed → counts_of self.new ≡ set (counts_of self.old) place 0 }
        ensures left { result ≢ Passed → counts_of self.new ≡ counts_of self.old }
    {
        let said = self.part.erase_place(place);
        if said == Status::Passed {
            self.counts[place as usize] = 0;
        }
        said
    }
}
