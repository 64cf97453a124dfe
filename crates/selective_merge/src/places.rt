//! A unit written to a clean place.
ghost use Rattle.std.specs.Prelude.{◌≡◌, ◌<◌, ◌≤◌, ◌+◌, ◌^◌, [], length, slice_index, IfOk, OnOk};
ghost use Rattle.ipl_base.specs.declared.limits.TheConstants.{CARRIED_SECTORS, VERSION};
ghost use Rattle.unit_io.specs.Charts.{Charts};
ghost use Rattle.unit_io.specs.Costs.{ProgramsAt};
ghost use Rattle.unit_io.specs.Leads.{IsStopped};
ghost use Rattle.unit_io.specs.Reads.{OfContents};
ghost use Rattle.unit_io.specs.Spots.{IsSpot};
ghost use Rattle.place_taking.specs.Fills.{FillsAt};
ghost use Rattle.selective_merge.specs.Faults.{pages_fault, TellsTheFault};
ghost use Rattle.unit_log.specs.Kept.{records_kept};
ghost use Rattle.selective_merge.specs.Often.{base_sectors};
ghost use Rattle.selective_merge.specs.Pages.{IsBaseSpotBelow, IsFew};
ghost use Rattle.selective_merge.specs.Moved.{HasMoved, IsAside};
ghost use Rattle.selective_merge.specs.Homes.{from_home, MoveCause};
ghost use Rattle.selective_merge.specs.Moving.{drawn_up_to, source_read};
ghost use Rattle.selective_merge.specs.Throughout.{ChartsThroughout};
ghost use Rattle.selective_merge.specs.Writing.{
  DrawsSerials,
  FillsPlace,
  GainsUnit,
  IsFilledSpot,
  IsSealed,
  IsUnitSpot,
  MayMove,
  MovesPages,
  SealsUnit,
  TellsWritten,
  WritesPlace,
  WritesUnit,
};

use crate::Parts;
use crate::home::HomeHeader;
use crate::log::{Log, Offsets};
use crate::logs::write_logs;
use crate::packs::Packs;
use crate::pages::move_pages;
use chip_trait::Chip;
use ipl_base::{ChipFault, Counter};
use sector_format::Head;
use txn_status::Status;
use unit_io::seal;
use unit_layout::{DataHeader, write_data_header};
use unit_log::Scratch;

/// Moves the pages of the unit that was read, whose log sectors these are.
fn move_read<C: Chip>(
    chip: &mut C,
    home: &HomeHeader,
    sectors: &Scratch,
    offsets: &mut Offsets,
    status: &Status,
    place: u32,
    head: &Head,
) -> Result<[u8; 15], ChipFault>
    requires may { MayMove (C.told chip.old).places home.now place }
    requires unit { head.now.unit ≡ home.now.head.unit }
    ensures moves { MovesPages (C.told chip.old).places
        (from_home home.now status.now.numbers (records_kept sectors.now)) place head.now.generation
        (C.told chip.old) result (C.told chip.new) }
    ensures tells { ChartsThroughout
        (λ pieces. HasMoved (from_home home.now status.now.numbers (records_kept sectors.now)) place
        head.now.generation pieces 15)
        (IsAside place) result (C.told chip.old) (C.told chip.new) }
    ensures few { IfOk result IsFew }
    ensures fault { OfContents (C.told chip.old) (λ x. TellsTheFault
        (pages_fault x (from_home home.now status.now.numbers (records_kept sectors.now))) result) }
    ensures spends { WritesPlace place (ProgramsAt place 240 0 4) (IsBaseSpotBelow 15)
        (base_sectors home.now.place) (MoveCause home.now.place) result
        (C.told chip.old) (C.told chip.new) }
{
    let log = Log::of(sectors.sectors(), offsets);
    move_pages(chip, home, &log, status, place, head)
}

/// Fills a clean place with the pages of the unit that was read, as the committed records leave them,
/// and with log sectors of what was packed. Answers how many sectors each page took.
fn fill<C: Chip>(
    chip: &mut C,
    home: &HomeHeader,
    sectors: &Scratch,
    offsets: &mut Offsets,
    packs: &Packs,
    status: &Status,
    place: u32,
    head: &Head,
    counter: &mut Counter,
) -> Result<[u8; 15], ChipFault>
    requires may { MayMove (C.told chip.old).places home.now place }
    requires unit { head.now.unit ≡ home.now.head.unit }
    requires left { counter.old + CARRIED_SECTORS < 2 ^ 64 }
    ensures fills { FillsPlace (C.told chip.old).places
        (from_home home.now status.now.numbers (records_kept sectors.now)) place head.now.generation
        counter.old packs.now.closed.items (C.told chip.old) result (C.told chip.new) }
    ensures tells { ChartsThroughout
        (λ pieces. GainsUnit (from_home home.now status.now.numbers (records_kept sectors.now)) place
        head.now.generation counter.old pieces packs.now.closed.items)
        (IsAside place) result (C.told chip.old) (C.told chip.new) }
    ensures fault { OfContents (C.told chip.old) (λ x. TellsTheFault
        (pages_fault x (from_home home.now status.now.numbers (records_kept sectors.now))) result) }
    ensures few { IfOk result IsFew }
    ensures serials { DrawsSerials (length packs.now.closed.items) result
        counter.old counter.new }
    ensures spends { WritesPlace place (FillsAt place 0)
        (IsFilledSpot (length packs.now.closed.items)) (base_sectors home.now.place)
        (MoveCause home.now.place) result (C.told chip.old) (C.told chip.new) }
{
    let pieces = move_read(chip, home, sectors, offsets, status, place, head)?;
    write_logs(chip, place, head, packs.payloads(), counter)?;
    Ok(pieces)
}

/// Puts a unit's header on a place that holds its pages and as many carried log sectors as it says,
/// once these are made sure of, and makes sure of it.
fn seal_unit<C: Chip>(
    chip: &mut C,
    place: u32,
    head: &Head,
    header: &DataHeader,
) -> Result<(), ChipFault>
    requires place { place < (C.told chip.old).places }
    requires few { IsFew header.now.pieces }
    requires twelve { header.now.carried ≤ CARRIED_SECTORS }
    requires kind { head.now.kind ≡ 1 }
    requires serial { head.now.serial ≡ head.now.generation }
    requires version { head.now.version ≡ VERSION }
    ensures seals { SealsUnit (C.told chip.old).places place header.now.units header.now.erases
        head.now.unit head.now.generation header.now.pieces header.now.carried
        (C.told chip.old) result (C.told chip.new) }
    ensures tells { OnOk result (Charts
        (IsSealed place header.now.units header.now.erases head.now.unit head.now.generation
        header.now.pieces header.now.carried) (C.told chip.old) (C.told chip.new)) }
    ensures spends { WritesPlace place (ProgramsAt place 1 2 1) (IsSpot 0) [] IsStopped result
        (C.told chip.old) (C.told chip.new) }
{
    let mut payload = [0; 24];
    write_data_header(header, &mut payload);
    seal(chip, place, head, &payload)
}

/// Writes the unit that was read, with what was packed, to a clean place that was free, under a
/// generation that was drawn for it: the place is filled, and its header, which tells how many units the
/// tables have and how often the place was erased, makes it the unit's.
pub(crate) fn write_unit<C: Chip>(
    chip: &mut C,
    parts: &mut Parts,
    place: u32,
    generation: u64,
) -> Result<(), ChipFault>
    requires may { MayMove (C.told chip.old).places parts.old.scratch.home place }
    requires taken { place < length parts.old.directory.in_use }
    requires left { parts.old.counter + CARRIED_SECTORS < 2 ^ 64 }
    ensures writes { WritesUnit (C.told chip.old).places (length parts.old.directory.current)
        (slice_index parts.old.directory.erases place) (source_read parts.old) place generation
        parts.old.counter parts.old.scratch.packs.closed.items
        (C.told chip.old) result (C.told chip.new) }
    ensures tells { ChartsThroughout
        (λ done. TellsWritten (C.told chip.old).places (length parts.old.directory.current)
        (slice_index parts.old.directory.erases place) (source_read parts.old) place generation
        parts.old.counter parts.old.scratch.packs.closed.items)
        (IsAside place) result (C.told chip.old) (C.told chip.new) }
    ensures fault { OfContents (C.told chip.old) (λ x.
        TellsTheFault (pages_fault x (source_read parts.old)) result) }
    ensures serials { DrawsSerials (length parts.old.scratch.packs.closed.items) result
        parts.old.counter parts.new.counter }
    ensures kept { parts.new ≡ drawn_up_to parts.old parts.new.counter parts.new.scratch.offsets }
    ensures spends { WritesPlace place (FillsAt place 2)
        (IsUnitSpot (length parts.old.scratch.packs.closed.items))
        (base_sectors parts.old.scratch.home.place) (MoveCause parts.old.scratch.home.place) result (C.told chip.old) (C.told chip.new) }
{
    let scratch = &mut parts.scratch;
    let unit = scratch.home.head.unit;
    let head = Head::written(Head::DATA_HEADER, unit, generation, generation);
    let counter = &mut parts.counter;
    let home = &scratch.home;
    let packs = &scratch.packs;
    let sectors = &scratch.sectors;
    let offsets = &mut scratch.offsets;
    let pieces = fill(
        chip,
        home,
        sectors,
        offsets,
        packs,
        &parts.status,
        place,
        &head,
        counter,
    )?;
    let header = DataHeader {
        units: parts.directory.units(),
        pieces,
        carried: packs.count(),
        erases: parts.directory.erases(place),
    };
    seal_unit(chip, place, &head, &header)
}
