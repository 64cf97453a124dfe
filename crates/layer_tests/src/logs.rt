//! The log of a unit on a chip of six places, which no store wrote. Unit 0 stands at place 1, and two
//! spots of place 4 are listed.
ghost use Rattle.std.specs.Prelude.{◌≡◌, length, IfOk};

use crate::sectors::{Put, at, put_all};
use chip_mem::MemChip;
use chip_trait::Chip;
use ipl_base::{ChipFault, Geometry};
use overflow::Overflow;
use sector_format::Head;
use std::alloc::Global;
use std::process::Abort;
use std::test::Fail;
use unit_directory::Directory;
use unit_log::{Scratch, UnitHead, read_live};

/// Two units; page 1 has one base sector, page 14 has two, two log sectors were carried, and the place
/// was erased once. Without its count it is a payload of version 2.
const HEADER: [u8; 24] = [
    0, 0, 0, 2, 0, 1, 0, 0, 0, 0, 0, 0, 0, 0, 0, 0, 0, 0, 2, 2, 0, 0, 0, 1,
];

/// The tables.
#[derive(Drop)]
struct Tables {
    directory: Directory,
    overflow: Overflow,
}

/// A head of unit 0.
fn head(kind: u8, generation: u64, serial: u64) -> Head {
    Head::written(kind, 0, generation, serial)
}

/// The head of a log sector.
fn log(generation: u64, serial: u64) -> Head {
    head(Head::LOG, generation, serial)
}

/// The head of the unit's header.
fn header() -> Head {
    head(Head::DATA_HEADER, 5, 5)
}

/// A chip with the unit's header, and these sectors.
fn written(rt: &impl Abort, alloc: Global, sectors: &[Put<'_>]) -> Result<MemChip, Fail> {
    let mut chip = MemChip::new(alloc, 6, 600)?;
    put_all(rt, &mut chip, &[(at(1, 0), header(), HEADER.as_slice())]);
    put_all(rt, &mut chip, sectors);
    Ok(chip)
}

/// The tables of the unit, which say of no log sector what it holds.
fn tables_of_unit(alloc: Global) -> Result<Tables, Fail>
    ensures { IfOk result (λ t. (length t.directory.in_use ≡ 6)
        × (length t.directory.current ≡ 2) × (length t.overflow.spots ≡ 2)
        × (t.overflow.places ≡ 6)) }
{
    let geometry = Geometry::of(6).ok_or("places")?;
    let mut directory = Directory::new(alloc, geometry)?;
    directory.adopt(0, 1, 5);
    let mut overflow = Overflow::new(alloc, geometry)?;
    let _ = overflow.find(0, at(4, 3), 0);
    let _ = overflow.find(0, at(4, 200), 0);
    Ok(Tables {
        directory,
        overflow,
    })
}

/// Reads the log of unit 0.
fn read(
    rt: &impl Abort,
    chip: &mut MemChip,
    tables: &Tables,
    scratch: &mut Scratch,
) -> Result<UnitHead, ChipFault>
    requires places { length tables.now.directory.in_use ≡ 6 }
    requires units { length tables.now.directory.current ≡ 2 }
    requires lists { length tables.now.overflow.spots ≡ 2 }
    requires sized { tables.now.overflow.places ≡ 6 }
{
    assert!(rt; chip.units() == 6);
    read_live(chip, &tables.directory, &tables.overflow, 0, scratch)
}

#[test]
fn what_the_tables_do_not_say_is_malformed(rt: HostRuntime) -> Result<(), Fail> {
    let mut scratch = Scratch::new(rt.alloc())?;
    let other = Head {
        unit: 1,
        ..header()
    };
    let status = head(Head::STATUS_HEADER, 5, 5);
    // Headers of another unit, of another kind and of no grammar; a serial that was met before, and a
    // payload that is no list of records.
    let cases: [Put<'_>; 5] = [
        (at(1, 0), other, &HEADER),
        (at(1, 0), status, &HEADER),
        (at(1, 0), header(), &HEADER[..20]),
        (at(4, 200), log(5, 20), &[]),
        (at(1, 250), log(5, 21), &[0]),
    ];
    for case in &cases {
        let sectors = [(at(1, 241), log(5, 20), [].as_slice()), *case];
        let mut chip = written(&rt, rt.alloc(), &sectors)?;
        let tables = tables_of_unit(rt.alloc())?;
        let spot = case.0;
        let fault = ChipFault::Malformed {
            place: spot.place,
            sector: spot.sector,
        };
        assert!(rt;
            read(&rt, &mut chip, &tables, &mut scratch) == Err(fault),
            "{spot:?}"
        );
    }
    Ok(())
}
