//! The records of a chip are counted, page by page.
ghost use Rattle.std.specs.Prelude.{◌≡◌, ◌≤◌, ◌<◌, ◌*◌, ℕ, [], is_some, length, slice_index, All, IfErr, IfOk};
ghost use Rattle.ipl_base.specs.declared.limits.TheConstants.{PAGE_SECTORS, SLOTS, UNIT_NAMES, MOST_UNITS};
ghost use Rattle.ipl_format.specs.Page.{value_in};
ghost use Rattle.ipl_meaning.specs.Chart.{chart_of};
ghost use Rattle.ipl_meaning.specs.First.{count_below};
ghost use Rattle.unit_io.specs.ReadsAt.{Anywhere, ReadsAt};
ghost use Rattle.page_rebuild.specs.Loaded.{OfKnown, OfTables};
ghost use Rattle.image_check.specs.Checked.{
  IsReadingCause,
  TellsRecords,
  fault_of_page,
  fault_of_unit,
  pages_fault,
  records_below,
  records_of_unit,
  records_on,
};
ghost use Rattle.image_check.specs.Tables.{AreTablesSized, OfWhole};

use chip_trait::Chip;
use ipl_base::ChipFault;
use overflow::Overflow;
use page_ops::Frame;
use page_rebuild::rebuild;
use page_text::PageMap;
use txn_status::Status;
use unit_directory::Directory;
use unit_log::{Scratch, UnitHead, read_live};

/// What was found of a chip: where its units stand, their log sectors in overflow places, and the
/// committed numbers.
#[derive(Drop)]
pub(crate) struct Tables {
    pub(crate) directory: Directory,
    pub(crate) overflow: Overflow,
    pub(crate) status: Status,
}

/// Room for the log of a unit, and for a page.
#[derive(Drop)]
pub(crate) struct Room {
    pub(crate) log: Scratch,
    pub(crate) frame: Frame,
}

/// How many slots of a page have a value.
fn count_slots(page: &PageMap) -> u32
    ensures count { result ≡ count_below (λ slot. is_some (value_in page.now slot)) SLOTS }
    ensures most { result ≤ SLOTS }
{
    let mut count: u32 = 0;
    for slot in 0..64 {
        if page.get(slot).is_some() {
            count += 1;
        }
    }
    count
}

/// Counts the records of a page (0 to 14) of a unit whose header and log were read.
fn count_page<C: Chip>(
    chip: &mut C,
    status: &Status,
    place: u32,
    unit: u32,
    header: &UnitHead,
    page: u32,
    room: &mut Room,
) -> Result<u32, ChipFault>
    requires place { place < (C.told chip.old).places }
    requires few { All (λ n. n ≤ PAGE_SECTORS) header.now.pieces }
    requires page { page < 15 }
    ensures told { OfKnown (C.told chip.old) place unit page header.now room.old.log status.now (λ x it.
        TellsRecords (fault_of_page x it unit page) (records_on x it unit page) result) }
    ensures most { IfOk result (λ n. n ≤ SLOTS) }
    ensures log { room.new.log ≡ room.old.log }
    ensures reads { ReadsAt Anywhere (C.told chip.old) (C.told chip.new) }
    ensures cause { IfErr result (λ e. IsReadingCause e (C.told chip.old) (C.told chip.new)) }
{
    rebuild(
        chip,
        place,
        unit,
        header,
        room.log.sectors(),
        page,
        status,
        &[],
        &mut room.frame,
    )?;
    Ok(count_slots(room.frame.committed()))
}

/// Counts the records of the pages of a unit whose header and log were read.
fn count_pages<C: Chip>(
    chip: &mut C,
    status: &Status,
    place: u32,
    unit: u32,
    header: &UnitHead,
    room: &mut Room,
) -> Result<u32, ChipFault>
    requires place { place < (C.told chip.old).places }
    requires few { All (λ n. n ≤ PAGE_SECTORS) header.now.pieces }
    ensures told { OfWhole (C.told chip.old) place unit header.now room.old.log status.now (λ x it.
        TellsRecords (fault_of_unit x it unit) (records_of_unit x it unit) result) }
    ensures most { IfOk result (λ n. n ≤ UNIT_NAMES) }
    ensures reads { ReadsAt Anywhere (C.told chip.old) (C.told chip.new) }
    ensures cause { IfErr result (λ e. IsReadingCause e (C.told chip.old) (C.told chip.new)) }
{
    let mut records: u32 = 0;
    for page in 0..15 {
        records += count_page(chip, status, place, unit, header, page, room)?;
    }
    Ok(records)
}

/// Counts the records of a unit: its header and its log are read once, and then its pages.
fn count_unit<C: Chip>(
    chip: &mut C,
    tables: &Tables,
    unit: u32,
    room: &mut Room,
) -> Result<u32, ChipFault>
    requires sized { AreTablesSized (C.told chip.old).places tables.now.directory tables.now.overflow }
    requires unit { unit < length tables.now.directory.current }
    ensures told { OfTables (C.told chip.old) tables.now.directory tables.now.overflow tables.now.status
        (λ x it. TellsRecords (fault_of_unit x it unit) (records_of_unit x it unit) result) }
    ensures most { IfOk result (λ n. n ≤ UNIT_NAMES) }
    ensures reads { ReadsAt Anywhere (C.told chip.old) (C.told chip.new) }
    ensures cause { IfErr result (λ e. IsReadingCause e (C.told chip.old) (C.told chip.new)) }
{
    let header = read_live(
        chip,
        &tables.directory,
        &tables.overflow,
        unit,
        &mut room.log,
    )?;
    let place = tables.directory.current(unit);
    count_pages(chip, &tables.status, place, unit, &header, room)
}

/// Counts the records of all units.
pub(crate) fn count_units<C: Chip>(
    chip: &mut C,
    tables: &Tables,
    room: &mut Room,
) -> Result<u32, ChipFault>
    requires sized { AreTablesSized (C.told chip.old).places tables.now.directory tables.now.overflow }
    ensures told { OfTables (C.told chip.old) tables.now.directory tables.now.overflow tables.now.status
        (λ x it. TellsRecords (pages_fault x it) (records_below x it it.count) result) }
    ensures reads { ReadsAt Anywhere (C.told chip.old) (C.told chip.new) }
    ensures cause { IfErr result (λ e. IsReadingCause e (C.told chip.old) (C.told chip.new)) }
{
    let mut records: u32 = 0;
    for unit in 0..tables.directory.units() {
        records += count_unit(chip, tables, unit, room)?;
    }
    Ok(records)
}
