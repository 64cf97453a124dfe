//! The opening of a chip.
ghost use Rattle.std.specs.Prelude.{◌≡◌, ◌<◌, ◌≤◌, ◌+◌, ◌^◌, ℕ, true, false, length, Some, None, IfOk, IfErr, OnOk};
ghost use Rattle.ipl_base.specs.Places.{units_on};
ghost use Rattle.ipl_base.specs.declared.fault.ImageFault.TheVariants.{Spent};
ghost use Rattle.ipl_meaning.specs.Chart.{chart_of};
ghost use Rattle.ipl_meaning.specs.Layout.{Laid};
ghost use Rattle.ipl_meaning.specs.Mirrors.{Mirrors};
ghost use Rattle.unit_io.specs.Reads.{OfContents};
ghost use Rattle.ipl_meaning.specs.First.{at};
ghost use Rattle.ipl_meaning.specs.Faults.{TellsImageFault, header_fault, fault_for, first_fault, shape_fault, greatest_found};
ghost use Rattle.ipl_meaning.specs.OpeningLaws.{IsByteChart};
ghost use Rattle.ipl_meaning.specs.LaidOut.{layout_in};
ghost use Rattle.ipl_format.specs.Whole.{IsWhole};
ghost use Rattle.restart.specs.Bytes.{IsRestWhole, ReadsBytes, ReadsBytesFor};
ghost use Rattle.unit_io.specs.ReadsAt.{Anywhere, ReadsOnce};
ghost use Rattle.restart.specs.Looks.{OnlyLooksAt, LooksOnce, HasCause, HasCauseFor, HasCauseIn, numbers_in, IsHeaderSpot, IsBehindHeader, MayHoldLog};
ghost use Rattle.txn_status.specs.ReadingIn.{numbers_at};
ghost use Rattle.restart.specs.Memory.{HasScratch, AreMadeFor, KeepsMemory, KeepsPlaces};
ghost use Rattle.restart.specs.Rest.{HaveHeaders, AreUnread, FindsRest, FillsTables};
ghost use Rattle.restart.specs.Joins.{kept_of};
ghost use Rattle.restart.specs.Finds.{FindsStore};
ghost use Rattle.selective_merge.specs.Known.{KnowsPlaces};
ghost use Rattle.ipl_meaning.specs.Opened.{tables_of};
ghost use Rattle.restart.specs.Notes.{NotesHaveRoom};
ghost use Rattle.restart.specs.Kept.{counted_in};
ghost use Rattle.restart.specs.Counted.{NoneKnown};
ghost use Rattle.restart.specs.Shown.{ShowsHeaders, HeadersCount, fault_by};

use crate::choosing::choose;
use crate::collecting::Gathered;
use crate::commits::read_commits;
use crate::filling::{adopt_all, counted, fill_places, mark_units, retire_listed};
use crate::findings::{Aim, Findings, Heads};
use crate::head_sector::HeadSector;
use crate::headers::{check_headers, check_status};
use crate::kept::{Header, Winner};
use crate::logs::scan;
use crate::looking::read_heads;
use crate::noted::Noted;
use crate::numbers::KeptNumbers;
use crate::verdict::{check_found, greatest_in};
use bounded_vec::BoundedVec;
use chip_trait::Chip;
use ipl_base::{Counter, Geometry, ImageFault, OutOfMemory, RESERVED_PLACES};
use overflow::Overflow;
use selective_merge::Parts;
use std::alloc::Global;
use std::marker::Model;
use txn_status::{LastMark, Status};
use unit_directory::Directory;

/// Reads the headers, tests those that count, and answers the status header, whose sector is kept. The headers of units stand
/// at the beginning of the table then, of as many units as the status header says.
fn read_headers<C: Chip>(
    chip: &mut C,
    geometry: Geometry,
    heads: &mut [Option<Header>],
    table: &mut [Option<Winner>],
    kept: &mut HeadSector,
) -> Result<Winner, ImageFault>
    requires scratch { HasScratch geometry.places (C.told chip.old) heads.old table.old }
    ensures shown { IfOk result (λ status. OfContents (C.told chip.old) (λ x. ShowsHeaders
        (chart_of x) geometry.places heads.new (counted_in geometry.places status table.new) status)) }
    ensures counts { IfOk result (λ status.
        HeadersCount geometry.places heads.new table.new status kept.new) }
    ensures sector { IfOk result (λ status. OfContents (C.told chip.old) (λ x.
        kept.new ≡ chart_of x status.place 0)) }
    ensures fault { OfContents (C.told chip.old) (λ x.
        TellsImageFault (header_fault (chart_of x) geometry.places) result) }
    ensures whole { OnOk result (OfContents (C.told chip.old) (λ x.
        (p : ℕ) → p < geometry.places → IsWhole (x p 0))) }
    ensures looks { LooksOnce IsHeaderSpot (HasCauseFor false) result (C.told chip.old) (C.told chip.new) }
    ensures size { length table.new ≡ length table.old }
{
    let status = read_heads(chip, geometry, heads, kept)?;
    let status = check_status(geometry, status)?;
    let current = &mut table[..status.units(geometry) as usize];
    choose(heads, current);
    check_headers(&status, current)?;
    Ok(status)
}

/// Reads all that counts beyond the headers, by these headers and the one of the status place, and
/// answers the greatest number found, and whether the committed numbers of live records fit. What a
/// close mark says is noted where marks count.
fn read_rest<C: Chip>(
    chip: &mut C,
    geometry: Geometry,
    heads: &Heads<'_>,
    winner: &Winner,
    findings: &mut Findings<'_>,
    aim: Aim,
) -> Result<Gathered, ImageFault>
    requires headers { HaveHeaders geometry.places (C.told chip.old) heads.now winner.now }
    requires tables { AreUnread geometry.places heads.now findings.old }
    requires unknown { NoneKnown (length heads.now.current.now) findings.old.directory.now }
    ensures fault { OfContents (C.told chip.old) (λ x. TellsImageFault
        (fault_by aim.draws (chart_of x) (at heads.now.all.now) (at heads.now.current.now) (Some winner.now)
        geometry.places) result) }
    ensures found { IfOk result (λ all.
        FindsRest geometry.places (C.told chip.old) aim.marks heads.now winner.now all findings.new) }
    ensures filled { IfOk result (λ all.
        FillsTables geometry.places heads.now winner.now aim all.greatest findings.new) }
    ensures spent { IfErr result (λ e. e ≡ Spent → OfContents (C.told chip.old) (λ x.
        IsRestWhole x geometry.places heads.now.all.now heads.now.current.now winner.now)) }
    ensures memory { KeepsPlaces geometry.places findings.old findings.new }
    ensures looks { OnlyLooksAt (HasCauseIn findings.old.status.now.most
        (λ c. numbers_at c (Some winner.now)) aim.draws) result (C.told chip.old) (C.told chip.new) }
    ensures once { ((s : ℕ)
        → ¬ MayHoldLog (at heads.now.all.now) (at heads.now.current.now) winner.now.place s)
        → ReadsOnce IsBehindHeader (C.told chip.old) (C.told chip.new) }
{
    let least = greatest_in(heads.all);
    let mut mark = LastMark::none();
    let least = read_commits(chip, geometry, winner, findings.status, &mut mark, least)?;
    let mark = counted(mark, aim.marks);
    mark_units(findings.directory, heads.current, &mark);
    let gathered = scan(chip, geometry, heads, findings, least)?;
    check_found(heads.all, findings.noted, gathered.greatest, aim.draws)?;
    Ok(gathered)
}

/// Reads a chip into these tables, whose counter is the number after the greatest found. Answers that
/// number, and whether the committed numbers of live records fit.
fn read_chip<C: Chip>(
    chip: &mut C,
    geometry: Geometry,
    heads: &mut [Option<Header>],
    table: &mut [Option<Winner>],
    findings: &mut Findings<'_>,
    aim: Aim,
) -> Result<Gathered, ImageFault>
    requires scratch { HasScratch geometry.places (C.told chip.old) heads.old table.old }
    requires tables { AreMadeFor geometry.places findings.old }
    ensures fault { OfContents (C.told chip.old) (λ x.
        TellsImageFault (fault_for aim.draws (chart_of x) geometry.places) result) }
    ensures found { IfOk result (λ all. FindsStore geometry.places (C.told chip.old) aim.marks
        (tables_of findings.new.directory.now findings.new.overflow.now findings.new.status.now
        (all.greatest + 1)) all.fits
        (kept_of findings.new.status.now.numbers findings.new.numbers.now)) }
    ensures bytes { ReadsBytesFor aim.draws geometry.places (C.told chip.old) result }
    ensures left { IfOk result (λ all. aim.draws ≡ true → all.greatest < 2 ^ 63) }
    ensures memory { KeepsMemory geometry.places table.old table.new findings.old findings.new }
    ensures looks { LooksOnce Anywhere (HasCauseIn findings.old.status.now.most
        (numbers_in geometry.places) aim.draws) result (C.told chip.old) (C.told chip.new) }
{
    let mut kept = HeadSector::none();
    let winner = read_headers(chip, geometry, heads, table, &mut kept)?;
    let current = &table[..winner.units(geometry) as usize];
    adopt_all(findings.directory, current);
    let read = Heads {
        all: heads,
        current,
    };
    let gathered = read_rest(chip, geometry, &read, &winner, findings, aim)?;
    fill_places(findings.directory, heads, &winner, findings.noted);
    retire_listed(findings.directory, &kept);
    findings.overflow.use_places();
    findings.directory.facts();
    findings.overflow.facts();
    Ok(gathered)
}

/// The scratch memory of an opening: what is kept of each header, the header of each unit that counts, and what is noted of
/// live log sectors. A contract sees the number of places, 5 to 1028. Memory is taken by `new` alone, for as many units as are
/// kept where no place is spare.
#[derive(Drop)]
pub struct Scratch {
    geometry: Geometry,
    heads: BoundedVec<Option<Header>>,
    current: BoundedVec<Option<Winner>>,
    noted: Noted,
}

impl Model for Scratch {
    ghost Value = { ℕ };

    ghost view = { λ s. s.geometry.places };

    ghost invariant = { λ s. (length s.heads.items ≡ s.geometry.places)
        × (length s.current.items ≡ units_on s.geometry.places)
        × NotesHaveRoom s.geometry.places s.noted };
}

impl Scratch {
    /// Scratch memory for a chip of this size.
    pub fn new(alloc: Global, geometry: Geometry) -> Result<Scratch, OutOfMemory>
        ensures { IfOk result (λ scratch. scratch ≡ geometry.places) }
    {
        let places = geometry.places() as usize;
        let units = places - RESERVED_PLACES as usize;
        let heads = BoundedVec::filled(alloc, places, places, None)?;
        let current = BoundedVec::filled(alloc, units, units, None)?;
        let noted = Noted::new(alloc, geometry)?;
        Ok(Scratch {
            geometry,
            heads,
            current,
            noted,
        })
    }
}

/// Opens a chip, for whose number of places the scratch memory and the tables were made: finds what
/// it holds, or tells the first thing that is wrong. It writes nothing and takes no memory, and each
/// sector is read at most once. The tables then are of as many units as the chip keeps.
///
/// Of a chip without a fault the directory then has the place of each unit, and where marks count, by
/// the close mark which log sectors there are clean: exactly those that it marks, of units whose log is
/// whole; the status place and the overflow places that hold
/// live log sectors are in use too. Of the other places those are retired that the status header lists, and the others are free. Each place
/// counts as erased as often as its header says, once where that doesn't say it. The overflow table
/// lists each unit's live log sectors in overflow places, and these places; the status has the
/// committed numbers; and no sector of these places is known clean. The counter is the number after
/// the greatest that was found. After a fault, all of them hold anything, but are made for as many
/// places as before.
///
/// The numbers that are kept then are the committed ones that live log records have, where those are
/// no more than a new status place is given. It answers false where they are more, and what is kept says
/// nothing then.
///
/// Fails with the first fault of the chip, in the order that docs/RECOVERY.md tells, with
/// `Chip(ReadFault)` where a read of the chip failed, or with `TooManyNumbers` where more numbers are
/// committed in its status place than have room.
pub fn read_tables<C: Chip>(
    chip: &mut C,
    scratch: &mut Scratch,
    parts: &mut Parts,
    numbers: &mut KeptNumbers,
    marks: bool,
) -> Result<bool, ImageFault>
    requires scratch { scratch.old ≡ (C.told chip.old).places }
    requires directory { length parts.old.directory.in_use ≡ (C.told chip.old).places }
    requires overflow { parts.old.overflow.places ≡ (C.told chip.old).places }
    requires room { numbers.old.room ≡ parts.old.status.most }

    // It fails exactly with the first fault of the chip's contents, unless a read failed or the committed
    // numbers have no room.
    ensures fault { OfContents (C.told chip.old) (λ x.
        TellsImageFault (first_fault (chart_of x) (C.told chip.old).places) result) }

    // Else it finds what the chip holds, and numbers are left.
    ensures found { IfOk result (λ fits. FindsStore (C.told chip.old).places (C.told chip.old) marks
        (tables_of parts.new.directory parts.new.overflow parts.new.status parts.new.counter)
        fits (kept_of parts.new.status.numbers numbers.new)) }
    ensures left { OnOk result (parts.new.counter ≤ 2 ^ 63) }

    // What it read is bytes, also where it fails since the numbers are used up.
    ensures bytes { ReadsBytes (C.told chip.old).places (C.told chip.old) result }

    // It only reads, each sector at most once, and fails with no other cause than a fault of the contents,
    // a failed read, or more committed numbers than have room, which all of a status place always have.
    ensures looks { LooksOnce Anywhere (HasCause parts.old.status.most) result
        (C.told chip.old) (C.told chip.new) }
    ensures sized { (scratch.new ≡ scratch.old)
        × (length parts.new.directory.in_use ≡ length parts.old.directory.in_use)
        × (parts.new.overflow.places ≡ parts.old.overflow.places) }
    ensures room { (parts.new.status.most ≡ parts.old.status.most)
        × (numbers.new.room ≡ numbers.old.room) }

    // The same sessions are open.
    ensures active { parts.new.active ≡ parts.old.active }
{
    let mut findings = Findings {
        noted: &mut scratch.noted,
        directory: &mut parts.directory,
        overflow: &mut parts.overflow,
        status: &mut parts.status,
        numbers,
    };
    let heads = &mut scratch.heads;
    let table = &mut scratch.current;
    let aim = Aim { marks, draws: true };
    match read_chip(chip, scratch.geometry, heads, table, &mut findings, aim) {
        Ok(all) => {
            parts.counter = Counter::at(all.greatest + 1);
            Ok(all.fits)
        }
        Err(fault) => Err(fault),
    }
}

/// Looks a chip over, as `read_tables` does, and fails with the same faults but for one: it draws no
/// number, so that none are left is none. Of a chip without a fault the tables then say what was
/// found, as after `read_tables`.
pub fn survey<C: Chip>(
    chip: &mut C,
    scratch: &mut Scratch,
    directory: &mut Directory,
    overflow: &mut Overflow,
    status: &mut Status,
    numbers: &mut KeptNumbers,
) -> Result<(), ImageFault>
    requires scratch { scratch.old ≡ (C.told chip.old).places }
    requires directory { length directory.old.in_use ≡ (C.told chip.old).places }
    requires overflow { overflow.old.places ≡ (C.told chip.old).places }
    requires room { numbers.old.room ≡ status.old.most }

    // It fails exactly with the first fault of how the chip is laid out, unless a read failed or the
    // committed numbers have no room.
    ensures fault { OfContents (C.told chip.old) (λ x.
        TellsImageFault (shape_fault (chart_of x) (C.told chip.old).places) result) }

    // Else the chip is laid out rightly, and the tables mirror it, with the number after the greatest.
    ensures laid { OnOk result (OfContents (C.told chip.old) (λ x.
        Laid (C.told chip.old).places (chart_of x)
        (layout_in (chart_of x) (C.told chip.old).places))) }
    ensures mirrors { OnOk result (OfContents (C.told chip.old) (λ x.
        Mirrors (C.told chip.old).places (chart_of x)
        (layout_in (chart_of x) (C.told chip.old).places)
        (tables_of directory.new overflow.new status.new
        (greatest_found (chart_of x) (C.told chip.old).places + 1)))) }
    ensures bytes { OnOk result (OfContents (C.told chip.old) (λ x.
        IsByteChart (C.told chip.old).places (chart_of x))) }

    // Whether the chip tells its contents or not, the tables know each of its places.
    ensures known { OnOk result ((counter : ℕ) × KnowsPlaces (C.told chip.old).places
        (tables_of directory.new overflow.new status.new counter)) }

    // It only reads, each sector at most once, and fails with no other cause than a fault of the contents,
    // a failed read, or more committed numbers than have room, which all of a status place always have.
    ensures looks { LooksOnce Anywhere (HasCauseIn status.old.most
        (numbers_in (C.told chip.old).places) false) result (C.told chip.old) (C.told chip.new) }
    ensures sized { (scratch.new ≡ scratch.old)
        × (length directory.new.in_use ≡ length directory.old.in_use)
        × (overflow.new.places ≡ overflow.old.places) }
    ensures room { (status.new.most ≡ status.old.most) × (numbers.new.room ≡ numbers.old.room) }
{
    let mut findings = Findings {
        noted: &mut scratch.noted,
        directory,
        overflow,
        status,
        numbers,
    };
    let aim = Aim {
        marks: false,
        draws: false,
    };
    let heads = &mut scratch.heads;
    let table = &mut scratch.current;
    match read_chip(chip, scratch.geometry, heads, table, &mut findings, aim) {
        Ok(_) => Ok(()),
        Err(fault) => Err(fault),
    }
}
