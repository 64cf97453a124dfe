//! Log sectors are read where they may stand.
ghost use Rattle.std.specs.Prelude.{◌≡◌, ◌<◌, ◌≤◌, ◌+◌, ◌*◌, ℕ, List, [], true, false, max, length, Some, IfOk, IfErr, IfSome, OnOk};
ghost use Rattle.ipl_base.specs.declared.limits.TheConstants.{OVERFLOW_SECTORS, PAYLOAD_LEN};
ghost use Rattle.ipl_base.specs.Places.{KeepsUnits};
ghost use Rattle.sector_format.specs.Decode.{sector_of};
ghost use Rattle.ipl_meaning.specs.Chart.{chart_of};
ghost use Rattle.ipl_meaning.specs.Masks.{mask_of as pages_of};
ghost use Rattle.unit_io.specs.Reads.{OfContents};
ghost use Rattle.unit_io.specs.Kinds.{sector_named};
ghost use Rattle.unit_io.specs.Found.{checked};
ghost use Rattle.ipl_base.specs.First.{first_below};
ghost use Rattle.ipl_meaning.specs.First.{at};
ghost use Rattle.ipl_meaning.specs.Live.{kept, Mark, is_log, is_overflow_place};
ghost use Rattle.ipl_meaning.specs.Payloads.{is_log_payload};
ghost use Rattle.ipl_meaning.specs.Faults.{TellsImageFault, is_image, is_told, log_test, log_fault, log_number};
ghost use Rattle.unit_io.specs.ReadsAt.{IsAt};
ghost use Rattle.restart.specs.Looks.{LooksOnce, HasCauseFor, MayHoldLog};
ghost use Rattle.restart.specs.Notes.{units_of, AreSized, AreInUse, CountsLog, overflow_count_of, listed, IsNoted};
ghost use Rattle.ipl_meaning.specs.Tables.{OverflowLists};
ghost use Rattle.overflow.specs.Lists.{has_room_for};
ghost use Rattle.restart.specs.Masked.{masked};
ghost use Rattle.restart.specs.LogSpots.{
  live_found,
  AreScanned,
  HaveRoom,
  MayFind,
  MayList,
  JoinsRecords,
  MayScan,
  ReadsLogs,
  ScansLogs,
  TakesLog,
};
ghost use Rattle.restart.specs.Rest.{AreUnread};
ghost use Rattle.restart.specs.Counted.{seen_log, does_check, is_erased};

use crate::collecting::{Gathered, collect};
use crate::findings::{Findings, Heads};
use crate::kept::Header;
use crate::live::{is_live, is_log_payload, is_overflow_place, log_number, may_hold_log, pages_of};
use crate::noted::Noted;
use chip_trait::Chip;
use ipl_base::{ChipFault, FIRST_LOG_SECTOR, Geometry, ImageFault, OVERFLOW_SECTORS, Spot};
use overflow::Overflow;
use sector_format::{Head, payload_in};
use unit_directory::Directory;
use unit_io::{Found, read_found};

/// Tests a live log sector for its payload, and against those that were noted and listed.
fn check_log(
    heads: &[Option<Header>],
    noted: &Noted,
    spot: Spot,
    head: &Head,
    payload: &[u8],
) -> Result<(), ImageFault>
    requires place { spot.place < length heads.now }
    requires sector { spot.sector < 256 }
    requires unit { head.now.unit < units_of noted.now }
    ensures fault { (marks : List Mark) (lists : OverflowLists) → IsNoted noted.now lists marks
        → TellsImageFault (log_test (at heads.now) marks (spot.place * 256 + spot.sector)
        (Some (sector_of head.now payload.now))) result }
    ensures room { OnOk result (is_overflow_place (at heads.now spot.place) ≡ true
        → overflow_count_of noted.now head.now.unit < OVERFLOW_SECTORS) }
    ensures list { OnOk result (is_log_payload head.now.version payload.now ≡ true) }
    ensures image { IfErr result (λ e. is_told false e ≡ true) }
{
    if !is_log_payload(payload, head.version)
        || noted.has(head.unit, head.serial)
        || (is_overflow_place(heads, spot.place)
            && noted.elsewhere(head.unit) as usize >= OVERFLOW_SECTORS)
    {
        return Err(ImageFault::Chip(ChipFault::Malformed {
            place: spot.place,
            sector: spot.sector,
        }));
    }
    Ok(())
}

/// Keeps which pages a log sector of a unit names; and lists and counts it, if it stands in an
/// overflow place.
fn list_log(
    heads: &[Option<Header>],
    noted: &mut Noted,
    directory: &mut Directory,
    overflow: &mut Overflow,
    unit: u32,
    spot: Spot,
    mask: u16,
)
    requires place { spot.place < length heads.now }
    requires sector { spot.sector < 256 }
    requires units { MayList unit (length heads.now) noted.old directory.old overflow.old }
    requires elsewhere { is_overflow_place (at heads.now spot.place) ≡ true
        → MayFind unit spot.place spot.sector noted.old overflow.old }
    requires home { is_overflow_place (at heads.now spot.place) ≡ false → 241 ≤ spot.sector }
    ensures listed { overflow.new ≡ listed (is_overflow_place (at heads.now spot.place))
        overflow.old unit spot.place spot.sector mask }
    ensures counted { CountsLog (is_overflow_place (at heads.now spot.place))
        (has_room_for overflow.old spot.place) unit noted.old noted.new }
    ensures masked { directory.new ≡ masked (is_overflow_place (at heads.now spot.place))
        directory.old unit spot.sector mask }
{
    if is_overflow_place(heads, spot.place) {
        let listed = overflow.find(unit, spot, mask);
        noted.count_elsewhere(unit, listed);
    } else {
        directory.set_mask(unit, spot.sector, mask);
    }
}

/// Notes a log sector, which pages it names, and the committed numbers that it has, if it is live.
fn take_log(
    heads: &Heads<'_>,
    findings: &mut Findings<'_>,
    spot: Spot,
    head: &Head,
    payload: &[u8],
    fits: bool,
) -> Result<bool, ImageFault>
    requires spot { MayScan heads.now spot.place spot.sector }
    requires room { HaveRoom heads.now (spot.place * 256 + spot.sector) findings.old }
    requires fits { length payload.now ≤ PAYLOAD_LEN }
    ensures takes { TakesLog result heads.now (spot.place * 256 + spot.sector)
        (live_found heads.now spot.place (Some (sector_of head.now payload.now))) findings.old findings.new }
    ensures collected { IfOk result (λ all. JoinsRecords
        (live_found heads.now spot.place (Some (sector_of head.now payload.now)))
        fits findings.old all findings.new) }
{
    if is_live(heads, spot.place, head) {
        findings.directory.facts();
        findings.overflow.facts();
        let all = heads.all;
        check_log(all, findings.noted, spot, head, payload)?;
        findings.noted.add(head.unit, head.serial, spot.place);
        let mask = pages_of(payload, head.version);
        let noted = &mut *findings.noted;
        let directory = &mut *findings.directory;
        let overflow = &mut *findings.overflow;
        list_log(all, noted, directory, overflow, head.unit, spot, mask);
        let version = head.version;
        let fits = collect(findings.numbers, findings.status, payload, version, fits);
        return Ok(fits);
    }
    Ok(fits)
}

/// Takes what was found where log sectors may stand, and answers what was found so far.
fn take_found(
    heads: &Heads<'_>,
    findings: &mut Findings<'_>,
    spot: Spot,
    found: Option<(Head, usize)>,
    bytes: &[u8; 512],
    gathered: Gathered,
) -> Result<Gathered, ImageFault>
    requires spot { MayScan heads.now spot.place spot.sector }
    requires room { HaveRoom heads.now (spot.place * 256 + spot.sector) findings.old }
    requires fits { IfSome found (λ it. it.1 ≤ PAYLOAD_LEN) }
    ensures takes { TakesLog result heads.now (spot.place * 256 + spot.sector)
        (live_found heads.now spot.place (kept is_log (sector_named bytes.now found)))
        findings.old findings.new }
    ensures number { IfOk result (λ all. all.greatest
        ≡ max gathered.greatest (log_number (kept is_log (sector_named bytes.now found)))) }
    ensures collected { IfOk result (λ all. JoinsRecords
        (live_found heads.now spot.place (kept is_log (sector_named bytes.now found)))
        gathered.fits findings.old all.fits findings.new) }
{
    match found {
        Some((head, used)) => {
            if head.kind != Head::LOG {
                return Ok(gathered);
            }
            let payload = payload_in(bytes, used);
            let fits = take_log(heads, findings, spot, &head, payload, gathered.fits)?;
            let greatest = gathered.greatest.max(log_number(&head, payload));
            Ok(Gathered { greatest, fits })
        }
        None => Ok(gathered),
    }
}

/// What was found, where it checks.
fn checked(found: Found) -> Option<(Head, usize)>
    ensures { result ≡ checked found }
{
    match found {
        Found::Sector(head, used) => Some((head, used)),
        _ => None,
    }
}

/// Whether it checks.
fn does_check(found: Found) -> bool
    ensures { result ≡ does_check found }
{
    match found {
        Found::Sector(_, _) => true,
        _ => false,
    }
}

/// Whether all its bytes are FF.
fn is_erased(found: Found) -> bool
    ensures { result ≡ is_erased found }
{
    match found {
        Found::Erased => true,
        _ => false,
    }
}

/// Notes what was found where log sectors may stand, if that is at a unit's place.
fn note_seen(heads: &Heads<'_>, directory: &mut Directory, spot: Spot, found: Found)
    requires units { length directory.old.current ≡ length heads.now.current.now }
    requires spot { MayScan heads.now spot.place spot.sector }
    ensures { directory.new ≡ seen_log (at heads.now.all.now spot.place) directory.old spot.sector
        (does_check found) (is_erased found) }
{
    let header = heads.all[spot.place as usize];
    match header {
        Some(header) if header.is_data() => {
            let number = spot.sector - FIRST_LOG_SECTOR;
            directory.note_log(header.unit(), number, does_check(found), is_erased(found));
        }
        _ => {}
    }
}

/// Reads a sector, if log sectors may stand there.
fn scan_sector<C: Chip>(
    chip: &mut C,
    heads: &Heads<'_>,
    findings: &mut Findings<'_>,
    spot: Spot,
    gathered: Gathered,
) -> Result<Gathered, ImageFault>
    requires size { length heads.now.all.now ≡ (C.told chip.old).places }
    requires place { spot.place < length heads.now.all.now }
    requires sector { spot.sector < 256 }
    requires room { HaveRoom heads.now (spot.place * 256 + spot.sector) findings.old }
    ensures scans { ScansLogs result (C.told chip.old) heads.now (spot.place * 256 + spot.sector)
        (spot.place * 256 + spot.sector + 1) gathered findings.old findings.new }
    ensures looks { LooksOnce (λ p s. IsAt spot.place spot.sector p s
        × MayHoldLog (at heads.now.all.now) (at heads.now.current.now) p s)
        (HasCauseFor false) result (C.told chip.old) (C.told chip.new) }
{
    if !may_hold_log(heads, spot.place, spot.sector) {
        return Ok(gathered);
    }
    let mut bytes = [0; 512];
    let found = read_found(chip, spot, &mut bytes)?;
    let sector = checked(found);
    let gathered = take_found(heads, findings, spot, sector, &bytes, gathered)?;
    note_seen(heads, findings.directory, spot, found);
    Ok(gathered)
}

/// Reads the sectors of a place, where log sectors may stand.
fn scan_place<C: Chip>(
    chip: &mut C,
    heads: &Heads<'_>,
    findings: &mut Findings<'_>,
    place: u32,
    before: Gathered,
) -> Result<Gathered, ImageFault>
    requires size { length heads.now.all.now ≡ (C.told chip.old).places }
    requires place { place < length heads.now.all.now }
    requires room { HaveRoom heads.now (place * 256) findings.old }
    ensures scans { ScansLogs result (C.told chip.old) heads.now (place * 256) ((place + 1) * 256)
        before findings.old findings.new }
    ensures looks { LooksOnce
        (λ p s. (p ≡ place) × MayHoldLog (at heads.now.all.now) (at heads.now.current.now) p s)
        (HasCauseFor false) result (C.told chip.old) (C.told chip.new) }
{
    let mut gathered = before;
    for sector in 0..256 {
        let spot = Spot { place, sector };
        gathered = scan_sector(chip, heads, findings, spot, gathered)?;
    }
    Ok(gathered)
}

/// Reads the sectors where log sectors may stand, of all places: what is live is noted with the pages
/// that it names, and listed where it stands in an overflow place, and the committed numbers that it
/// has are kept as long as all fit. Answers whether they do, and the greatest number found, at least
/// this.
pub(crate) fn scan<C: Chip>(
    chip: &mut C,
    geometry: Geometry,
    heads: &Heads<'_>,
    findings: &mut Findings<'_>,
    least: u64,
) -> Result<Gathered, ImageFault>
    requires size { geometry.places ≡ (C.told chip.old).places }
    requires heads { length heads.now.all.now ≡ geometry.places }
    requires keeps { KeepsUnits geometry.places (length heads.now.current.now) }
    requires tables { AreUnread geometry.places heads.now findings.old }
    ensures scanned { IfOk result (λ all. OfContents (C.told chip.old) (λ x.
        AreScanned x heads.now least (geometry.places * 256) all findings.new)) }
    ensures fault { IfErr result (λ e. OfContents (C.told chip.old) (λ x. is_image e ≡ true
        → first_below (log_fault (at heads.now.all.now) (at heads.now.current.now) (chart_of x))
        (geometry.places * 256) ≡ Some e)) }
    ensures in_use { OnOk result (AreInUse heads.now.all.now findings.new.noted.now findings.new.overflow.now) }
    ensures sized { AreSized (length heads.now.current.now) geometry.places
        findings.new.noted.now findings.new.overflow.now }
    ensures logs { ReadsLogs result (C.told chip.old) heads.now 0 (geometry.places * 256)
        findings.old findings.new }
    ensures looks { LooksOnce (MayHoldLog (at heads.now.all.now) (at heads.now.current.now))
        (HasCauseFor false) result (C.told chip.old) (C.told chip.new) }
{
    findings.noted.clear();
    findings.overflow.set_units(heads.current.len() as u32);
    findings.numbers.clear();
    let mut gathered = Gathered {
        greatest: least,
        fits: true,
    };
    for place in 0..geometry.places() {
        gathered = scan_place(chip, heads, findings, place, gathered)?;
    }
    Ok(gathered)
}
