//! The pages of a unit, moved to another place with the committed records applied.
ghost use Rattle.std.specs.Prelude.{◌≡◌, ◌<◌, ◌≤◌, ◌+◌, length, take, drop, IfOk};
ghost use Rattle.std.specs.Bool.{OnTrue, OnFalse};
ghost use Rattle.ipl_base.specs.Sizes.{size_of_values};
ghost use Rattle.ipl_base.specs.declared.limits.TheConstants.{LIVE_RECORDS, PAGE_LEN, PAGE_SECTORS, VERSION};
ghost use Rattle.ipl_format.specs.Page.{IsPage, page_text, value_in};
ghost use Rattle.ipl_meaning.specs.Values.{Values};
ghost use Rattle.unit_io.specs.Costs.{ProgramsAt};
ghost use Rattle.unit_io.specs.Reads.{OfContents};
ghost use Rattle.unit_io.specs.Spots.{IsPieceSpot};
ghost use Rattle.unit_io.specs.Tails.{FitTails};
ghost use Rattle.page_ops.specs.Rebuilt.{with_records, AreComing, IsMaking};
ghost use Rattle.selective_merge.specs.Faults.{page_fault_from, pages_fault, TellsTheFault};
ghost use Rattle.selective_merge.specs.Pages.{IsBaseSpotBelow, IsFew};
ghost use Rattle.selective_merge.specs.Often.{base_sectors, page_sectors};
ghost use Rattle.selective_merge.specs.Packs.{among};
ghost use Rattle.selective_merge.specs.Moved.{IsRebased, MovesPage, HasMoved, IsAside};
ghost use Rattle.selective_merge.specs.Homes.{from_home, is_counted, MoveCause};
ghost use Rattle.selective_merge.specs.Logs.{nth_record};
ghost use Rattle.selective_merge.specs.Throughout.{ChartsThroughout};
ghost use Rattle.selective_merge.specs.Writing.{MakesAnew, MayMove, MovesOnePage, MovesPages, WritesPlace};

use crate::home::HomeHeader;
use crate::log::Log;
use chip_trait::Chip;
use ipl_base::{ChipFault, PAGE_LEN, PAGES, VERSION};
use page_ops::{Coming, apply_where_room};
use page_text::PageMap;
use sector_format::Head;
use txn_status::Status;
use unit_io::{kept_tails, known_tails, program_page, read_page};

/// Whether a number is committed.
fn is_committed(status: &Status, tid: u64) -> bool
    ensures { result ≡ among status.now.numbers tid }
{
    status.is_committed(tid)
}

/// Whether the i-th record counts: it is of this page, and its number is committed.
fn is_counted(log: &Log, i: usize, page: u32, status: &Status) -> bool
    requires { i < length log.now }
    ensures { result ≡ is_counted (among status.now.numbers) page (nth_record log.now i) }
{
    log.page(i) == page && is_committed(status, log.number(i))
}

/// Counts the i-th record on its slot, where it counts.
fn count_record(coming: &mut Coming, page: u32, log: &Log, i: usize, status: &Status)
    requires within { i < length log.now }
    requires few { length log.now ≤ LIVE_RECORDS }
    requires before { AreComing (among status.now.numbers) page (take i log.now) coming.old }
    ensures { AreComing (among status.now.numbers) page (take (i + 1) log.now) coming.new }
{
    if !is_counted(log, i, page, status) {
        return;
    }
    coming.add(log.slot(i));
}

/// For each slot of a page (0 to 14), how many records count.
fn count_coming(page: u32, log: &Log, status: &Status) -> Coming
    ensures { AreComing (among status.now.numbers) page log.now result }
{
    let mut coming = Coming::none();
    for i in 0..log.len() {
        count_record(&mut coming, page, log, i, status);
    }
    coming
}

/// Takes the i-th record, where it counts, off the count of its slot, and does what it says where it
/// was the last one there. False where the page has no room for it.
fn take_record(
    slots: &mut PageMap,
    coming: &mut Coming,
    page: u32,
    log: &Log,
    i: usize,
    status: &Status,
) -> bool
    requires within { i < length log.now }
    requires coming { AreComing (among status.now.numbers) page (drop i log.now) coming.old }
    ensures made { (base : Values)
        → IsMaking (among status.now.numbers) page log.now (drop i log.now) base
        coming.old slots.old
        → OnTrue result (IsMaking (among status.now.numbers) page log.now (drop (i + 1) log.now) base
        coming.new slots.new) }
    ensures full { (base : Values)
        → IsMaking (among status.now.numbers) page log.now (drop i log.now) base
        coming.old slots.old
        → OnFalse result (PAGE_LEN < size_of_values
        (with_records (among status.now.numbers) page log.now base)) }
{
    if !is_counted(log, i, page, status) {
        return true;
    }
    if !coming.take(log.slot(i)) {
        return true;
    }
    apply_where_room(slots, &log.get(i))
}

/// Makes a page (0 to 14) anew with the records whose numbers are committed, of which so many are to
/// come: each slot that has such records is emptied, and then its last one is done. False where the
/// page has no room for all of them.
fn apply_coming(
    slots: &mut PageMap,
    mut coming: Coming,
    page: u32,
    log: &Log,
    status: &Status,
) -> bool
    requires coming { AreComing (among status.now.numbers) page log.now coming }
    ensures rebased { OnTrue result
        (IsRebased (among status.now.numbers) log.now page slots.old slots.new) }
    ensures page { OnTrue result (IsPage VERSION slots.new) }
    ensures full { OnFalse result (PAGE_LEN < size_of_values
        (with_records (among status.now.numbers) page log.now (value_in slots.old))) }
{
    coming.clear(slots);
    for i in 0..log.len() {
        if !take_record(slots, &mut coming, page, log, i, status) {
            return false;
        }
    }
    // What is kept in memory as a text has room for it.
    let _ = slots.text();
    true
}

/// Makes a page (0 to 14) anew with the records whose numbers are committed, of which so many are to
/// come, and answers its tails, by those that it had: of each piece of its text that stays the same.
/// Where no record is to come, the page stays as it is, with all of its tails. None where the page has
/// no room for all of them. Its text of before is kept in these bytes meanwhile.
fn make_anew(
    slots: &mut PageMap,
    before: &mut [u8; PAGE_LEN],
    coming: Coming,
    page: u32,
    log: &Log,
    status: &Status,
    tails: &[Option<u32>; 16],
) -> Option<[Option<u32>; 16]>
    requires coming { AreComing (among status.now.numbers) page log.now coming }
    requires tails { FitTails (page_text VERSION slots.old) tails.now }
    ensures makes { MakesAnew (among status.now.numbers) log.now page result slots.old slots.new }
{
    // What is kept in memory as a text has room for it.
    let _ = slots.text();
    if coming.is_none() {
        return Some(*tails);
    }
    let end = page_text::write(slots, before, VERSION);
    if !apply_coming(slots, coming, page, log, status) {
        return None;
    }
    Some(kept_tails(&before[..end], slots.text(), tails))
}

/// Reads a page (0 to 14) where the unit stands into a page in memory, and programs it as the
/// committed records leave it, at another place; answers how many sectors it took there, 0 to 16.
/// Its text as it was read is kept in bytes of the caller's, which needn't be cleared for each page.
/// Malformed at sector 0 where the unit stands, where the page has no room for them.
fn move_page<C: Chip>(
    chip: &mut C,
    home: &HomeHeader,
    log: &Log,
    status: &Status,
    place: u32,
    head: &Head,
    page: u32,
    slots: &mut PageMap,
    before: &mut [u8; PAGE_LEN],
) -> Result<u32, ChipFault>
    requires home { home.now.place < (C.told chip.old).places }
    requires few { IsFew home.now.pieces }
    requires place { place < (C.told chip.old).places }
    requires unit { head.now.unit ≡ home.now.head.unit }
    requires page { page < 15 }
    ensures moves { MovesOnePage (C.told chip.old).places
        (from_home home.now status.now.numbers log.now) place head.now.generation page
        (C.told chip.old) result (C.told chip.new) }
    ensures tells { ChartsThroughout
        (MovesPage (from_home home.now status.now.numbers log.now) place head.now.generation page)
        (IsAside place) result (C.told chip.old) (C.told chip.new) }
    ensures few { IfOk result (λ n. n ≤ PAGE_SECTORS) }
    ensures fault { OfContents (C.told chip.old) (λ x. TellsTheFault
        (page_fault_from x (from_home home.now status.now.numbers log.now) page) result) }
    ensures spends { WritesPlace place (ProgramsAt place PAGE_SECTORS 0 4)
        (IsPieceSpot page PAGE_SECTORS) (page_sectors home.now.place page) (MoveCause home.now.place) result
        (C.told chip.old) (C.told chip.new) }
{
    let count = u32::from(home.pieces[page as usize]);
    let mut tails = [0; 16];
    read_page(chip, home.place, &home.head, page, count, slots, &mut tails)?;
    let known = known_tails(&tails, home.head.version);
    let coming = count_coming(page, log, status);
    let Some(kept) = make_anew(slots, before, coming, page, log, status, &known) else {
        return Err(ChipFault::Malformed {
            place: home.place,
            sector: 0,
        });
    };
    program_page(chip, place, head, page, slots, &kept)
}

/// Moves all pages of a unit to a place without a header, as the committed records leave them, and
/// answers how many sectors each took there. Malformed at sector 0 where the unit stands, where a page
/// has no room for them.
pub(crate) fn move_pages<C: Chip>(
    chip: &mut C,
    home: &HomeHeader,
    log: &Log,
    status: &Status,
    place: u32,
    head: &Head,
) -> Result<[u8; 15], ChipFault>
    requires may { MayMove (C.told chip.old).places home.now place }
    requires unit { head.now.unit ≡ home.now.head.unit }
    ensures moves { MovesPages (C.told chip.old).places
        (from_home home.now status.now.numbers log.now) place head.now.generation
        (C.told chip.old) result (C.told chip.new) }
    ensures tells { ChartsThroughout
        (λ pieces. HasMoved (from_home home.now status.now.numbers log.now) place
        head.now.generation pieces 15)
        (IsAside place) result (C.told chip.old) (C.told chip.new) }
    ensures few { IfOk result IsFew }
    ensures fault { OfContents (C.told chip.old) (λ x. TellsTheFault
        (pages_fault x (from_home home.now status.now.numbers log.now)) result) }
    ensures spends { WritesPlace place (ProgramsAt place 240 0 4) (IsBaseSpotBelow 15)
        (base_sectors home.now.place) (MoveCause home.now.place) result (C.told chip.old) (C.told chip.new) }
{
    let mut pieces = [0; PAGES as usize];
    let mut slots = PageMap::empty();
    let mut before = [0; PAGE_LEN];
    for page in 0..PAGES {
        let count = move_page(
            chip,
            home,
            log,
            status,
            place,
            head,
            page,
            &mut slots,
            &mut before,
        )?;
        pieces[page as usize] = count as u8;
    }
    Ok(pieces)
}
