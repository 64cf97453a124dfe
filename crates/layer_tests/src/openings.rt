//! What an opening of a small chip finds: the place of unit 0, the next number, a log sector in an
//! overflow place, a committed number, whether a live record has it, how often each place was erased,
//! and which are retired. Its faults are what the program notes, so they are tried there.
ghost use Rattle.std.specs.Prelude.{◌≡◌, length, IfOk};
ghost use Rattle.ipl_base.specs.declared.limits.TheConstants.{STATUS_NUMBERS};

use crate::sectors::{Put, at, put_all};
use chip_mem::MemChip;
use chip_trait::Chip;
use ipl_base::{Counter, Geometry, OutOfMemory, STATUS_NUMBERS, VERSION};
use overflow::Overflow;
use restart::{KeptNumbers, Scratch, format, read_tables};
use sector_format::Head;
use selective_merge::{Active, MergeScratch, Parts};
use std::alloc::Global;
use std::process::Abort;
use std::test::Fail;
use txn_status::Status;
use unit_directory::Directory;

/// The header of unit 0 on a formatted chip of five places.
const FIRST: Head = Head {
    kind: Head::DATA_HEADER,
    version: VERSION,
    unit: 0,
    generation: 1,
    serial: 1,
};

const LATER: Head = Head {
    generation: 9,
    serial: 9,
    ..FIRST
};

/// The header of a unit that the chip doesn't have.
const STRAY: Head = Head { unit: 1, ..LATER };

/// A live log sector.
const LOG: Head = Head {
    kind: Head::LOG,
    serial: 3,
    ..FIRST
};

const DEAD: Head = Head {
    generation: 9,
    ..LOG
};

/// The header of an overflow place, of no unit.
const OVERFLOW: Head = Head {
    kind: Head::OVERFLOW_HEADER,
    version: VERSION,
    unit: 0,
    generation: 4,
    serial: 4,
};

/// A commit sector of the status header's generation, and one of another.
const COMMIT: Head = Head {
    kind: Head::COMMIT,
    generation: 2,
    ..LOG
};

const OTHER_COMMIT: Head = Head {
    generation: 9,
    ..COMMIT
};

/// The status header at place 1.
const STATUS: Head = Head {
    kind: Head::STATUS_HEADER,
    version: VERSION,
    unit: 0,
    generation: 2,
    serial: 2,
};

/// The payload of a data header that has no pages, on a chip of one unit, at a place that was erased
/// seven times. Without its count it is one of version 2.
const NO_PAGES: &[u8] = &[
    0, 0, 0, 1, 0, 0, 0, 0, 0, 0, 0, 0, 0, 0, 0, 0, 0, 0, 0, 0, 0, 0, 0, 7,
];

/// The payload of a status header without retired places, at a place that was erased 258 times; its
/// first eight bytes are that of an overflow header.
const NO_RETIRED: &[u8] = &[0, 0, 0, 1, 0, 0, 1, 2, 0];

/// The number 20.
const TWENTY: &[u8] = &[0, 0, 0, 0, 0, 0, 0, 20];

/// A record of that number: slot 5 of page 0 is deleted.
const RECORD: &[u8] = &[0, 0x85, 0, 0, 0, 0, 0, 0, 0, 0, 0, 20];

/// What is found: the place of unit 0 and the next number, how many of its log sectors are listed in
/// overflow places, whether the number 20 is committed, how many committed numbers live records have,
/// and how often each place was erased.
#[derive(Clone, Copy, Debug, PartialEq, Eq)]
struct Found {
    place: u32,
    next: u64,
    listed: u32,
    has_twenty: bool,
    kept: usize,
    erases: [u32; 5],
}

/// Of a chip without a log, whose places were erased by the format alone.
fn bare(place: u32, next: u64) -> Found {
    Found {
        place,
        next,
        listed: 0,
        has_twenty: false,
        kept: 0,
        erases: [1; 5],
    }
}

/// Of a chip whose places were erased so often.
fn worn(place: u32, next: u64, erases: [u32; 5]) -> Found {
    Found {
        erases,
        ..bare(place, next)
    }
}

/// How often each of the five places was erased.
fn erases_of(rt: &impl Abort, directory: &Directory, geometry: Geometry) -> [u32; 5]
    requires { length directory.now.in_use ≡ geometry.places }
{
    let mut erases = [0; 5];
    for place in 0..5 {
        assert!(rt; place < geometry.places());
        erases[place as usize] = directory.erases(place);
    }
    erases
}

/// The tables of a chip that opens, and the committed numbers that live records have.
#[derive(Drop)]
struct Tables {
    geometry: Geometry,
    parts: Parts,
    kept: KeptNumbers,
}

/// Empty tables for a chip of this size.
fn parts_for(alloc: Global, geometry: Geometry) -> Result<Parts, OutOfMemory>
    ensures directory { IfOk result (λ parts. length parts.directory.in_use ≡ geometry.places) }
    ensures overflow { IfOk result (λ parts. parts.overflow.places ≡ geometry.places) }
    ensures most { IfOk result (λ parts. parts.status.most ≡ STATUS_NUMBERS) }
{
    Ok(Parts {
        directory: Directory::new(alloc, geometry)?,
        overflow: Overflow::new(alloc, geometry)?,
        status: Status::new(alloc, geometry, STATUS_NUMBERS)?,
        counter: Counter::at(0),
        active: Active::none(),
        scratch: MergeScratch::new(alloc)?,
    })
}

/// Opens a chip.
fn opened(rt: &impl Abort, alloc: Global, chip: &mut MemChip) -> Result<Tables, Fail>
    ensures { IfOk result (λ it. length it.parts.directory.in_use ≡ it.geometry.places) }
{
    let Some(geometry) = Geometry::of(chip.units()) else {
        return Err(Fail::from("no geometry"));
    };
    let mut scratch = Scratch::new(alloc, geometry)?;
    let mut parts = parts_for(alloc, geometry)?;
    let mut kept = KeptNumbers::new(alloc, STATUS_NUMBERS)?;
    let fits = read_tables(chip, &mut scratch, &mut parts, &mut kept, true)?;
    assert!(rt; fits);
    assert!(rt; parts.directory.free_count() > 0);
    Ok(Tables {
        geometry,
        parts,
        kept,
    })
}

/// What is found of a chip that opens.
fn opens(rt: &impl Abort, alloc: Global, chip: &mut MemChip) -> Result<Found, Fail> {
    let Tables {
        geometry,
        parts,
        kept,
    } = opened(rt, alloc, chip)?;
    parts.directory.facts();
    parts.overflow.facts();
    Ok(Found {
        place: parts.directory.current(0),
        next: parts.counter.next(),
        listed: parts.overflow.count(0),
        has_twenty: parts.status.is_committed(20),
        kept: kept.flags().len(),
        erases: erases_of(rt, &parts.directory, geometry),
    })
}

/// Of formatted chips into which these sectors are put this is found.
fn check(rt: &impl Abort, alloc: Global, cases: &[(&[Put<'_>], Found)]) -> Result<(), Fail> {
    for (number, (sectors, found)) in cases.iter().enumerate() {
        let mut chip = MemChip::new(alloc, 5, 2000)?;
        assert_eq!(rt; format(&mut chip, 0), Ok(()));
        put_all(rt, &mut chip, sectors);
        assert_eq!(rt; opens(rt, alloc, &mut chip)?, *found, "case {number}");
    }
    Ok(())
}

#[test]
fn what_a_small_chip_holds_is_found(rt: HostRuntime) -> Result<(), Fail> {
    let listed = Found {
        listed: 1,
        ..bare(0, 5)
    };
    let committed = Found {
        has_twenty: true,
        ..bare(0, 21)
    };
    let kept = Found {
        kept: 1,
        ..committed
    };
    let cases: [(&[Put<'_>], Found); 12] = [
        (&[], bare(0, 3)),
        (&[(at(3, 0), FIRST, NO_PAGES)], worn(0, 3, [1, 1, 1, 7, 1])),
        (&[(at(3, 0), LATER, NO_PAGES)], worn(3, 10, [1, 1, 1, 7, 1])),
        (&[(at(3, 0), STRAY, NO_PAGES)], worn(0, 10, [1, 1, 1, 7, 1])),
        (&[(at(0, 241), LOG, &[])], bare(0, 4)),
        (&[(at(0, 241), DEAD, &[])], bare(0, 10)),
        (&[(at(2, 0), OVERFLOW, &[]), (at(2, 1), LOG, &[])], listed),
        (
            &[(at(2, 0), OVERFLOW, &[]), (at(2, 1), DEAD, &[])],
            bare(0, 10),
        ),
        (&[(at(1, 1), COMMIT, TWENTY)], committed),
        (&[(at(1, 1), OTHER_COMMIT, TWENTY)], bare(0, 3)),
        (
            &[(at(1, 1), COMMIT, TWENTY), (at(0, 241), LOG, RECORD)],
            kept,
        ),
        (
            &[(at(1, 1), OTHER_COMMIT, TWENTY), (at(0, 241), LOG, RECORD)],
            bare(0, 21),
        ),
    ];
    check(&rt, rt.alloc(), &cases)
}

/// A place counts as erased as often as its header says, whatever else that is for, and once where its
/// sector 0 doesn't say it.
#[test]
fn places_were_erased_as_often_as_their_headers_say(rt: HostRuntime) -> Result<(), Fail> {
    let older = Head {
        version: 2,
        ..FIRST
    };
    let base = Head {
        kind: Head::BASE,
        ..LATER
    };
    let cases: [(&[Put<'_>], Found); 8] = [
        (&[(at(0, 0), FIRST, NO_PAGES)], worn(0, 3, [7, 1, 1, 1, 1])),
        (&[(at(0, 0), older, &NO_PAGES[..20])], bare(0, 3)),
        (
            &[(at(1, 0), STATUS, NO_RETIRED)],
            worn(0, 3, [1, 258, 1, 1, 1]),
        ),
        (
            &[(at(2, 0), OVERFLOW, &NO_RETIRED[..8])],
            worn(0, 5, [1, 1, 258, 1, 1]),
        ),
        // Too short for its count, and longer than it should be.
        (&[(at(2, 0), OVERFLOW, &NO_RETIRED[..7])], bare(0, 5)),
        (
            &[(at(2, 0), OVERFLOW, NO_RETIRED)],
            worn(0, 5, [1, 1, 258, 1, 1]),
        ),
        // It is no header.
        (&[(at(2, 0), base, NO_PAGES)], bare(0, 3)),
        (
            &[
                (at(3, 0), STRAY, NO_PAGES),
                (at(4, 0), OVERFLOW, &NO_RETIRED[..8]),
            ],
            worn(0, 10, [1, 1, 1, 7, 258]),
        ),
    ];
    check(&rt, rt.alloc(), &cases)
}

/// Payloads of the status header of a chip of six places that keeps one unit, so that one is spare: the
/// place of the unit, the status place or another one is retired.
const LISTS_0: &[u8] = &[0, 0, 0, 1, 0, 0, 0, 1, 1, 0, 0, 0, 0];

const LISTS_1: &[u8] = &[0, 0, 0, 1, 0, 0, 0, 1, 1, 0, 0, 0, 1];

const LISTS_2: &[u8] = &[0, 0, 0, 1, 0, 0, 0, 1, 1, 0, 0, 0, 2];

/// Of the places that the status header lists those are retired that aren't in use: that of the unit, the
/// status place and an overflow place that holds a live log sector are. The others are free.
#[test]
fn listed_places_that_are_not_in_use_are_retired(rt: HostRuntime) -> Result<(), Fail> {
    let alloc = rt.alloc();
    let older = Head {
        version: 2,
        ..STATUS
    };
    let overflow = (at(2, 0), OVERFLOW, &NO_RETIRED[..8]);
    let cases: [(&[Put<'_>], &[u32], u32); 7] = [
        (&[], &[], 4),
        (&[(at(1, 0), older, &NO_RETIRED[..4])], &[], 4),
        (&[(at(1, 0), STATUS, LISTS_2)], &[2], 3),
        (&[(at(1, 0), STATUS, LISTS_0)], &[], 4),
        (&[(at(1, 0), STATUS, LISTS_1)], &[], 4),
        (&[(at(1, 0), STATUS, LISTS_2), overflow], &[2], 3),
        (
            &[(at(1, 0), STATUS, LISTS_2), overflow, (at(2, 1), LOG, &[])],
            &[],
            3,
        ),
    ];
    for (number, (sectors, retired, free)) in cases.iter().enumerate() {
        let mut chip = MemChip::new(alloc, 6, 2000)?;
        assert_eq!(rt; format(&mut chip, 1), Ok(()));
        put_all(&rt, &mut chip, sectors);
        let found = opened(&rt, alloc, &mut chip)?;
        assert_eq!(rt; found.parts.directory.retired(), *retired, "case {number}");
        assert_eq!(rt; found.parts.directory.free_count(), *free, "case {number}");
    }
    Ok(())
}
