//! A chip that is only read.
ghost use Rattle.std.specs.Prelude.{◌≡◌, ◌≤◌, ◌<◌, ◌/◌, ◌==◌, false, Some, length, IfErr, IfOk, OnOk};
ghost use Rattle.std.specs.Option.{option_map_or};
ghost use Rattle.ipl_base.specs.declared.limits.TheConstants.{LEAST_NUMBERS, PAGES, SLOTS, STATUS_NUMBERS};
ghost use Rattle.ipl_meaning.specs.Chart.{chart_of};
ghost use Rattle.ipl_meaning.specs.Faults.{TellsImageFault, shape_fault};
ghost use Rattle.ipl_meaning.specs.Legible.{Legible};
ghost use Rattle.ipl_meaning.specs.OpeningLaws.{IsByteChart};
ghost use Rattle.ipl_meaning.specs.Stands.{Stands};
ghost use Rattle.unit_io.specs.Faults.{TellsChipFault};
ghost use Rattle.unit_io.specs.Reads.{OfContents};
ghost use Rattle.unit_io.specs.ReadsAt.{Anywhere, ReadsAt};
ghost use Rattle.restart.specs.Looks.{HasCauseIn, LooksOnce, numbers_in};
ghost use Rattle.image_check.specs.Checked.{IsReadingCause};
ghost use Rattle.record_reader.specs.Reading.{AnswersName, HasPage, IsMadeFor, Reads, names_of, page_fault};

use chip_trait::Chip;
use ipl_base::{ChipFault, Geometry, ImageFault, OutOfMemory, PAGES, SLOTS, UNIT_NAMES, Value};
use overflow::Overflow;
use page_ops::Frame;
use page_rebuild::load;
use restart::{KeptNumbers, Scratch, survey};
use std::alloc::Global;
use txn_status::Status;
use unit_directory::Directory;

/// A chip that is only read: memory for it; and once it was opened what was found of it, and the page
/// that was read last.
#[derive(Drop)]
pub struct Reader {
    scratch: Scratch,
    kept: KeptNumbers,
    directory: Directory,
    overflow: Overflow,
    status: Status,
    log: unit_log::Scratch,
    frame: Frame,
    // The number of the page that the frame has, 15 of a unit.
    held: Option<u32>,
}

impl Reader {
    /// Memory to read chips of this geometry, with room for 120 to 15,300 committed numbers. No other
    /// call takes any.
    pub fn new(alloc: Global, geometry: Geometry, numbers: u32) -> Result<Reader, OutOfMemory>
        requires least { LEAST_NUMBERS ≤ numbers }
        requires most { numbers ≤ STATUS_NUMBERS }
        ensures made { IfOk result (λ reader. IsMadeFor geometry.places reader) }
        ensures room { IfOk result (λ reader. reader.status.most ≡ numbers) }
    {
        let scratch = Scratch::new(alloc, geometry)?;
        let kept = KeptNumbers::new(alloc, numbers as usize)?;
        let directory = Directory::new(alloc, geometry)?;
        let overflow = Overflow::new(alloc, geometry)?;
        let status = Status::new(alloc, geometry, numbers as usize)?;
        let log = unit_log::Scratch::new(alloc)?;
        Ok(Reader {
            scratch,
            kept,
            directory,
            overflow,
            status,
            log,
            frame: Frame::empty(),
            held: None,
        })
    }

    /// Looks a chip over, as many places as the memory is for, and finds where its records stand. It
    /// answers the first fault of how the chip is laid out, in the order of docs/RECOVERY.md, but that
    /// numbers are used up is none; `Chip(ReadFault)` where a read of the chip failed; `TooManyNumbers`
    /// where more numbers are committed there than have room.
    pub fn open<C: Chip>(&mut self, chip: &mut C) -> Result<(), ImageFault>
        requires made { IsMadeFor (C.told chip.old).places self.old }
        ensures fault { OfContents (C.told chip.old) (λ x.
            TellsImageFault (shape_fault (chart_of x) (C.told chip.old).places) result) }
        ensures reads { OnOk result (Reads (C.told chip.new) self.new) }
        ensures bytes { OnOk result (OfContents (C.told chip.old) (λ x.
            IsByteChart (C.told chip.old).places (chart_of x))) }
        ensures made { IsMadeFor (C.told chip.new).places self.new }
        ensures room { self.new.status.most ≡ self.old.status.most }
        ensures looks { LooksOnce Anywhere (HasCauseIn self.old.status.most
            (numbers_in (C.told chip.old).places) false) result (C.told chip.old) (C.told chip.new) }
    {
        self.held = None;
        survey(
            chip,
            &mut self.scratch,
            &mut self.directory,
            &mut self.overflow,
            &mut self.status,
            &mut self.kept,
        )
    }

    /// How many names the chip has, from 0 on: 960 a unit.
    pub fn names(&self) -> u32
        ensures { result ≡ names_of self.now }
    {
        self.directory.facts();
        self.directory.units() * UNIT_NAMES
    }

    /// The value of a name, if it has one. Where the name's page doesn't read well it answers the fault
    /// of the page: its first base sector that is damaged or malformed, or a malformed header of its
    /// unit where the page has no room for its values; `ReadFault` where a read failed.
    pub fn get<C: Chip>(&mut self, chip: &mut C, name: u32) -> Result<Option<Value>, ChipFault>
        requires name { name < names_of self.old }
        requires reads { Reads (C.told chip.old) self.old }
        ensures answers { OfContents (C.told chip.old) (λ x. (m : Legible)
            → Stands (C.told chip.old).places (chart_of x) m → AnswersName m name result) }
        ensures fault { OfContents (C.told chip.old) (λ x.
            TellsChipFault (page_fault x (C.told chip.old).places (name / SLOTS)) result) }
        ensures looks { ReadsAt Anywhere (C.told chip.old) (C.told chip.new) }
        ensures cause { IfErr result (λ e. IsReadingCause e (C.told chip.old) (C.told chip.new)) }
        ensures reads { Reads (C.told chip.new) self.new }
        ensures names { names_of self.new ≡ names_of self.old }
    {
        self.bring(chip, name / SLOTS)?;
        match self.frame.committed().get(name % SLOTS) {
            Some(bytes) => Ok(Value::of(bytes)),
            None => Ok(None),
        }
    }
}

impl Reader {
    /// Whether the frame has this page.
    fn is_held(&self, page: u32) -> bool
        ensures { result ≡ option_map_or (λ held. held == page) self.now.held false }
    {
        match self.held {
            Some(held) => held == page,
            None => false,
        }
    }

    /// Brings in a page (15 of a unit) that isn't in the frame.
    fn bring<C: Chip>(&mut self, chip: &mut C, page: u32) -> Result<(), ChipFault>
        requires page { page / PAGES < length self.old.directory.current }
        requires reads { Reads (C.told chip.old) self.old }
        ensures holds { OnOk result (OfContents (C.told chip.old) (λ x. HasPage x (C.told chip.old).places page self.new.frame)) }
        ensures fault { OfContents (C.told chip.old) (λ x.
            TellsChipFault (page_fault x (C.told chip.old).places page) result) }
        ensures looks { ReadsAt Anywhere (C.told chip.old) (C.told chip.new) }
        ensures cause { IfErr result (λ e. IsReadingCause e (C.told chip.old) (C.told chip.new)) }
        ensures reads { Reads (C.told chip.new) self.new }
        ensures names { names_of self.new ≡ names_of self.old }
    {
        if self.is_held(page) {
            return Ok(());
        }
        self.held = None;
        load(
            chip,
            &self.directory,
            &self.overflow,
            &self.status,
            &[],
            page / PAGES,
            page % PAGES,
            &mut self.log,
            &mut self.frame,
        )?;
        self.held = Some(page);
        Ok(())
    }
}
