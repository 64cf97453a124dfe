//! Images of a small story, calls that are to fail, chips that are altered, and one over a part.
use crate::chip_calls::{ends, erases, programs};
use chip_mem::{Choice, MemChip, Pick, PlainChip};
use chip_trait::{Chip, Wear};
use ipl_base::OutOfMemory;
use nand_2k::{MemPart, Nand2k};
use std::alloc::Global;
use std::process::Abort;
use std::test::Fail;

/// A chip after the events 0 to 7, of which 2 is the barrier.
fn with_story(rt: &impl Abort, alloc: Global) -> Result<MemChip, OutOfMemory> {
    let mut chip = MemChip::new(alloc, 2, 20)?;
    assert!(rt; programs(rt, &mut chip, 1, 0, 9));
    assert!(rt; programs(rt, &mut chip, 0, 3, 1));
    assert!(rt; chip.barrier().is_ok());
    assert!(rt; programs(rt, &mut chip, 0, 4, 2));
    assert!(rt; erases(rt, &mut chip, 1));
    assert_eq!(rt; ends(rt, &mut chip, 0, 3), Some((1, 1)));
    assert!(rt; programs(rt, &mut chip, 1, 0, 3));
    assert!(rt; programs(rt, &mut chip, 1, 0, 4));
    Ok(chip)
}

fn any(byte: u8) -> Choice {
    Choice::Bytes([byte; 512])
}

/// A pick of the first sector of place 1.
fn pick(choice: Choice) -> Pick {
    Pick {
        place: 1,
        sector: 0,
        choice,
    }
}

#[test]
fn an_image_leaves_what_the_last_fitting_pick_says(rt: HostRuntime) -> Result<(), Fail> {
    let chip = with_story(&rt, rt.alloc())?;
    let cases = [
        (8, Choice::Old, Choice::Old, 9),
        (8, Choice::After(3), Choice::After(3), 9),
        (8, Choice::After(4), Choice::After(5), 255),
        (8, any(7), Choice::After(6), 3),
        (8, Choice::After(6), Choice::After(7), 4),
        (8, Choice::After(6), any(7), 7),
        // The barrier isn't later than itself, and there is no event 8.
        (8, Choice::After(2), Choice::After(8), 4),
        (8, Choice::After(6), Choice::After(2), 3),
        (1000, Choice::Old, Choice::After(1000), 9),
        (7, Choice::After(7), Choice::After(7), 3),
        // Nothing is open.
        (3, any(7), Choice::After(0), 9),
        (0, any(7), Choice::Old, 255),
    ];
    for (at, first, second, byte) in cases {
        let mut image = chip.image(rt.alloc(), at, &[pick(first), pick(second)])?;
        assert_eq!(rt; image.events().len(), 0);
        assert_eq!(rt;
            ends(&rt, &mut image, 1, 0),
            Some((byte, byte)),
            "{byte} after {at}"
        );
    }
    Ok(())
}

#[test]
fn what_is_not_picked_or_not_open_is_as_held(rt: HostRuntime) -> Result<(), Fail> {
    let chip = with_story(&rt, rt.alloc())?;
    for (place, sector) in [(0, 3), (0, 256), (1, 256), (2, 0), (4294967295, 4294967295)] {
        let pick = Pick {
            place,
            sector,
            choice: any(7),
        };
        let mut image = chip.image(rt.alloc(), 8, &[pick])?;
        for (place, sector, byte) in [(0, 3, 1), (0, 4, 2), (1, 0, 4), (1, 255, 255)] {
            assert_eq!(rt;
                ends(&rt, &mut image, place, sector),
                Some((byte, byte)),
                "{place} {sector}"
            );
        }
    }
    Ok(())
}

/// What is asked of a chip of one place: sector 5 is programmed with ones, or read, or the place is
/// erased, a barrier is made, or something is said.
#[derive(Clone, Copy, Debug)]
enum Ask {
    Program,
    Read,
    Erase,
    Barrier,
    Say,
}

/// Whether it is done.
fn does(rt: &impl Abort, chip: &mut MemChip, ask: Ask) -> bool {
    match ask {
        Ask::Program => programs(rt, chip, 0, 5, 1),
        Ask::Read => ends(rt, chip, 0, 5).is_some(),
        Ask::Erase => erases(rt, chip, 0),
        Ask::Barrier => chip.barrier().is_ok(),
        Ask::Say => chip.append_said(b"ok"),
    }
}

/// Makes these calls, each of which is done or fails; then so many are told, and this is held.
fn asks(
    rt: &impl Abort,
    alloc: Global,
    chip: &mut MemChip,
    calls: &[(Ask, bool)],
    count: usize,
    byte: u8,
) -> Result<(), Fail> {
    for (ask, done) in calls {
        assert_eq!(rt; does(rt, chip, *ask), *done, "{ask:?}");
    }
    assert_eq!(rt; chip.events().len(), count);
    let mut image = chip.image(alloc, u64::MAX, &[])?;
    assert_eq!(rt; ends(rt, &mut image, 0, 5), Some((byte, byte)));
    Ok(())
}

/// A call fails where it is listed, where as many writes succeeded as may, and where there is no room
/// for its event. It does nothing then.
#[test]
fn a_call_that_fails_does_nothing(rt: HostRuntime) -> Result<(), Fail> {
    let alloc = rt.alloc();
    let mut listed = MemChip::new(alloc, 1, 20)?;
    listed.fail_at([1, 2, 4].to_vec(alloc)?);
    let calls = [
        (Ask::Program, true),
        (Ask::Erase, false),
        (Ask::Read, false),
        (Ask::Read, true),
        (Ask::Barrier, false),
        (Ask::Say, true),
    ];
    asks(&rt, alloc, &mut listed, &calls, 3, 1)?;
    let mut stopped = MemChip::new(alloc, 1, 20)?;
    stopped.stop_after(2);
    let calls = [
        (Ask::Erase, true),
        (Ask::Barrier, true),
        (Ask::Program, false),
        (Ask::Read, true),
        (Ask::Barrier, false),
    ];
    asks(&rt, alloc, &mut stopped, &calls, 3, 255)?;
    let mut full = MemChip::new(alloc, 1, 2)?;
    let calls = [
        (Ask::Say, true),
        (Ask::Program, true),
        (Ask::Say, false),
        (Ask::Erase, false),
        (Ask::Read, false),
    ];
    asks(&rt, alloc, &mut full, &calls, 2, 1)
}

/// What an image leaves of the first sector of place 1, where that is picked to hold sevens.
fn picked(rt: &impl Abort, alloc: Global, chip: &MemChip) -> Result<Option<(u8, u8)>, Fail> {
    let mut image = chip.image(alloc, u64::MAX, &[pick(any(7))])?;
    Ok(ends(rt, &mut image, 1, 0))
}

/// A place that is found worn holds what it held, but a cut may leave anything there, until it is erased and a barrier
/// comes after.
#[test]
fn a_worn_place_is_not_sure_to_last(rt: HostRuntime) -> Result<(), Fail> {
    let alloc = rt.alloc();
    let mut chip = MemChip::new(alloc, 2, 20)?;
    assert!(rt; programs(&rt, &mut chip, 1, 0, 9));
    assert!(rt; chip.barrier().is_ok());
    assert_eq!(rt; picked(&rt, alloc, &chip)?, Some((9, 9)));
    chip.wear_out([1].to_vec(alloc)?);
    assert!(rt; 1 < chip.units());
    assert!(rt; matches!(chip.erase(1), Ok(Wear::Worn)));
    assert!(rt; chip.barrier().is_ok());
    assert!(rt; erases(&rt, &mut chip, 0));
    assert_eq!(rt; ends(&rt, &mut chip, 1, 0), Some((9, 9)));
    assert_eq!(rt; picked(&rt, alloc, &chip)?, Some((7, 7)));
    chip.wear_out(Vec::new(alloc));
    assert!(rt; erases(&rt, &mut chip, 1));
    assert_eq!(rt; picked(&rt, alloc, &chip)?, Some((7, 7)));
    assert!(rt; chip.barrier().is_ok());
    assert_eq!(rt; picked(&rt, alloc, &chip)?, Some((255, 255)));
    Ok(())
}

#[test]
fn altered_contents_are_a_new_start(rt: HostRuntime) -> Result<(), Fail> {
    let mut chip = with_story(&rt, rt.alloc())?;
    assert!(rt; 0 < chip.units());
    chip.alter(0, 7, &[8; 512]);
    assert_eq!(rt; chip.events().len(), 0);
    assert_eq!(rt; ends(&rt, &mut chip, 1, 0), Some((4, 4)));
    let mut image = chip.image(rt.alloc(), 0, &[])?;
    assert_eq!(rt; ends(&rt, &mut image, 0, 7), Some((8, 8)));
    Ok(())
}

#[test]
fn a_plain_chip_holds_what_was_written(rt: HostRuntime) -> Result<(), Fail> {
    let mut chip = PlainChip::new(rt.alloc(), 2)?;
    assert!(rt; programs(&rt, &mut chip, 1, 255, 6));
    assert!(rt; programs(&rt, &mut chip, 0, 255, 5));
    assert!(rt; erases(&rt, &mut chip, 0));
    assert!(rt; chip.barrier().is_ok());
    assert_eq!(rt; ends(&rt, &mut chip, 0, 255), Some((255, 255)));
    assert_eq!(rt; ends(&rt, &mut chip, 1, 255), Some((6, 6)));
    Ok(())
}

/// Two sectors of a page are programmed in falling order, the second while the page is in memory.
#[test]
fn a_page_of_a_part_is_read_as_it_was_programmed_last(rt: HostRuntime) -> Result<(), Fail> {
    let mut chip = Nand2k::new(MemPart::new(rt.alloc(), 2)?);
    assert!(rt; programs(&rt, &mut chip, 1, 7, 7));
    assert_eq!(rt; ends(&rt, &mut chip, 1, 7), Some((7, 7)));
    assert!(rt; programs(&rt, &mut chip, 1, 6, 6));
    for (sector, byte) in [(5, 255), (6, 6), (7, 7), (8, 255)] {
        assert_eq!(rt;
            ends(&rt, &mut chip, 1, sector),
            Some((byte, byte)),
            "{sector}"
        );
    }
    assert!(rt; erases(&rt, &mut chip, 1));
    assert_eq!(rt; ends(&rt, &mut chip, 1, 7), Some((255, 255)));
    Ok(())
}
