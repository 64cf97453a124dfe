//! A page is read, and its unit's log.
ghost use Rattle.std.specs.Prelude.{◌≡◌, ◌≤◌, ◌<◌, length, slice_index, true, OnOk, OnErr};
ghost use Rattle.ipl_base.specs.declared.limits.TheConstants.{LIVE_SECTORS};
ghost use Rattle.ipl_meaning.specs.Legible.{Legible};
ghost use Rattle.ipl_format.specs.Page.{empty_page};
ghost use Rattle.ipl_meaning.specs.Chart.{chart_of};
ghost use Rattle.ipl_meaning.specs.Stands.{Stands};
ghost use Rattle.number_set.specs.Numbers.{among};
ghost use Rattle.unit_io.specs.Faults.{page_fault, TellsChipFault, HoldsPage, IsPageCause};
ghost use Rattle.unit_io.specs.Reads.{OfContents};
ghost use Rattle.unit_log.specs.Live.{SuitChip};
ghost use Rattle.page_ops.specs.Frames.{empty_frame, HasNonePending};
ghost use Rattle.page_rebuild.specs.Loaded.{
  IsLoaded,
  OfKnown,
  OfTables,
  HasPageOf,
  IsRebuildCause,
  MayReadBase,
  ReadsBase,
  LooksAtPage,
  load_fault,
};
ghost use Rattle.page_rebuild.specs.Keeps.{KeepsWhatRests};

use crate::taking::take_sectors;
use chip_trait::Chip;
use ipl_base::ChipFault;
use overflow::Overflow;
use page_ops::Frame;
use sector_format::Head;
use txn_status::Status;
use unit_directory::Directory;
use unit_io::read_page;
use unit_log::{LogSector, Scratch, UnitHead, read_page_log};

/// Reads the base sectors of a page (0 to 14) into a frame of which nothing is pending, as many as the
/// header of its unit says, at most 16. After a fault the frame's page is empty.
fn read_base<C: Chip>(
    chip: &mut C,
    place: u32,
    unit: u32,
    header: &UnitHead,
    page: u32,
    frame: &mut Frame,
) -> Result<(), ChipFault>
    requires base { MayReadBase (C.told chip.old) place page header.now }
    requires idle { HasNonePending frame.old }
    ensures exact { OfContents (C.told chip.old) (λ x. TellsChipFault
        (page_fault x place header.now.version unit header.now.generation page
        (slice_index header.now.pieces page)) result) }
    ensures page { OnOk result (OfContents (C.told chip.old) (λ x. HoldsPage (chart_of x)
        place header.now.version unit header.now.generation page (slice_index header.now.pieces page)
        frame.new.page)) }
    ensures empty { OnErr result (frame.new.page ≡ empty_page) }
    ensures pending { frame.new.pending ≡ frame.old.pending }
    ensures looks { ReadsBase place page (slice_index header.now.pieces page)
        (IsPageCause place page) result (C.told chip.old) (C.told chip.new) }
{
    let head = Head {
        kind: Head::DATA_HEADER,
        version: header.version,
        unit,
        generation: header.generation,
        serial: header.generation,
    };
    let pieces = u32::from(header.pieces[page as usize]);
    // What is loaded isn't written as it was read, so nobody asks what it brings into sums.
    let mut tails = [0; 16];
    read_page(
        chip,
        place,
        &head,
        page,
        pieces,
        frame.committed_mut(),
        &mut tails,
    )
}

/// Loads a page (0 to 14) into a frame, of a unit at this place whose header was read, and those of its
/// live log sectors, at most 31, that have a record of the page: all of them, by `unit_log::read_live`, or
/// no others. Only the base sectors of the page are read. Records of committed numbers become values; of
/// those of active numbers the last one on each slot is pending there. After a fault the frame is empty.
///
/// Fails where a read failed, the base page reads badly, or a page has no room for the values, whichever
/// pending changes become values, which is told as a malformed header.
pub fn rebuild<C: Chip>(
    chip: &mut C,
    place: u32,
    unit: u32,
    header: &UnitHead,
    sectors: &[LogSector],
    page: u32,
    status: &Status,
    active: &[u64],
    frame: &mut Frame,
) -> Result<(), ChipFault>
    requires base { MayReadBase (C.told chip.old) place page header.now }
    requires sectors { length sectors.now ≤ LIVE_SECTORS }
    ensures loads { OnOk result (OfKnown (C.told chip.old) place unit page header.now sectors.now
        status.now (λ x it. IsLoaded (chart_of x) it (among active.now) unit page frame.new)) }
    ensures fault { OfKnown (C.told chip.old) place unit page header.now sectors.now status.now
        (λ x it. TellsChipFault (load_fault x it (among active.now) unit page) result) }
    ensures empty { OnErr result (frame.new ≡ empty_frame) }
    ensures looks { ReadsBase place page (slice_index header.now.pieces page)
        (IsRebuildCause place page) result (C.told chip.old) (C.told chip.new) }
{
    frame.reset();
    read_base(chip, place, unit, header, page, frame)?;
    if !take_sectors(frame, page, sectors, status, active) {
        frame.reset();
        return Err(ChipFault::Malformed { place, sector: 0 });
    }
    Ok(())
}

/// Loads a page (0 to 14) into a frame. The unit's header is read, those of its live log sectors that
/// have a record of the page, and then the base sectors of the page. Records of committed numbers become
/// values; of those of active numbers the last one on each slot is pending there. What was in the frame
/// and in the scratch memory before is gone, however the call ends, and after a fault the frame is empty.
///
/// Where the tables mirror what the chip holds, it fails only where a read failed, the base page reads
/// badly, or a page has no room for the values, whichever pending changes become values, which is told
/// as a malformed header. Else it may find a sector malformed that isn't what the tables say.
pub fn load<C: Chip>(
    chip: &mut C,
    directory: &Directory,
    overflow: &Overflow,
    status: &Status,
    active: &[u64],
    unit: u32,
    page: u32,
    scratch: &mut Scratch,
    frame: &mut Frame,
) -> Result<(), ChipFault>
    requires unit { unit < length directory.now.current }
    requires suits { SuitChip (C.told chip.old).places directory.now overflow.now }
    requires page { page < 15 }

    // What the frame has then, and the exact fault, where the tables mirror what the chip holds.
    ensures loads { OnOk result (OfTables (C.told chip.old) directory.now overflow.now status.now
        (λ x it. IsLoaded (chart_of x) it (among active.now) unit page frame.new)) }
    ensures fault { OfTables (C.told chip.old) directory.now overflow.now status.now
        (λ x it. TellsChipFault (load_fault x it (among active.now) unit page) result) }
    ensures stands { OnOk result (OfTables (C.told chip.old) directory.now overflow.now status.now
        (λ x it. (m : Legible) → Stands (C.told chip.old).places (chart_of x) m
        → m.pages.reads unit page ≡ true → HasPageOf m.map unit page frame.new)) }
    ensures empty { OnErr result (frame.new ≡ empty_frame) }

    // What it reads, and why it fails.
    ensures looks { LooksAtPage unit page directory.now overflow.now status.now result
        (C.told chip.old) (C.told chip.new) }
    ensures keeps { KeepsWhatRests result (C.told chip.old) (C.told chip.new) }
{
    let place = directory.current(unit);
    let header = match read_page_log(chip, directory, overflow, unit, page, scratch) {
        Ok(header) => header,
        Err(fault) => {
            frame.reset();
            return Err(fault);
        }
    };
    rebuild(
        chip,
        place,
        unit,
        &header,
        scratch.sectors(),
        page,
        status,
        active,
        frame,
    )
}
