//! What a format asks of a small chip, also of one with a worn place, and the bytes of its headers.
use chip_mem::MemChip;
use chip_trait::Event;
use ipl_base::FormatFault;
use restart::format;
use std::test::Fail;

/// What an event was, and at which place.
fn named(event: &Event) -> (&'static str, u32) {
    match event {
        Event::Read(place, _) => ("read", *place),
        Event::Program(place, 0, _) => ("header", *place),
        Event::Program(place, _, _) => ("program", *place),
        Event::Erase(place) => ("erase", *place),
        Event::Worn(place) => ("worn", *place),
        Event::Barrier => ("barrier", 0),
        Event::Said(_) => ("said", 0),
    }
}

/// The bytes that an event programs.
fn sector_of(event: &Event) -> Option<&[u8]> {
    match event {
        Event::Program(_, _, bytes) => Some(bytes.as_slice()),
        _ => None,
    }
}

/// Whether an event programs a sector with this head, before its sum, and this payload.
fn writes(event: &Event, head: &[u8], payload: &[u8]) -> bool {
    match event {
        Event::Program(_, _, bytes) => {
            bytes[..28].starts_with(head) && bytes[32..].starts_with(payload)
        }
        _ => false,
    }
}

#[test]
fn five_places_are_erased_and_get_two_headers(rt: HostRuntime) -> Result<(), Fail> {
    let mut chip = MemChip::new(rt.alloc(), 5, 20)?;
    assert_eq!(rt; format(&mut chip, 0), Ok(()));
    let events = chip.events();
    let cases = [
        ("erase", 0),
        ("erase", 1),
        ("erase", 2),
        ("erase", 3),
        ("erase", 4),
        ("barrier", 0),
        ("header", 0),
        ("header", 1),
        ("barrier", 0),
    ];
    assert_eq!(rt; events.len(), cases.len());
    for (event, case) in events.iter().zip(cases) {
        assert_eq!(rt; named(event), case);
    }
    // Of unit 0: one unit, no pages, nothing carried, and one erase of its place.
    let head = b"IPL1\x01\x03\x00\x18\0\0\0\0\0\0\0\0\0\0\0\x01\0\0\0\0\0\0\0\x01";
    let mut payload = [0; 24];
    payload[3] = 1;
    payload[23] = 1;
    assert!(rt; writes(&events[6], head, &payload));
    // Of the status place: one unit, one erase, and no place is retired.
    let head = b"IPL1\x02\x03\x00\x09\0\0\0\0\0\0\0\0\0\0\0\x02\0\0\0\0\0\0\0\x02";
    assert!(rt; writes(&events[7], head, &[0, 0, 0, 1, 0, 0, 0, 1, 0]));
    Ok(())
}

/// However many places are to spare.
#[test]
fn a_format_ends_at_the_first_worn_place(rt: HostRuntime) -> Result<(), Fail> {
    let alloc = rt.alloc();
    for (places, spares) in [(5, 0), (6, 1), (70, 64)] {
        let mut chip = MemChip::new(alloc, places, 20)?;
        chip.wear_out([4, 2].to_vec(alloc)?);
        assert!(rt; spares <= 64);
        assert_eq!(rt; format(&mut chip, spares), Err(FormatFault::Worn(2)));
        let events = chip.events();
        let cases = [("erase", 0), ("erase", 1), ("worn", 2)];
        assert_eq!(rt; events.len(), cases.len());
        for (event, case) in events.iter().zip(cases) {
            assert_eq!(rt; named(event), case);
        }
    }
    Ok(())
}

/// Six places of which one is spare get the same two headers as five of which none is, since both keep
/// one unit.
#[test]
fn a_spare_place_is_erased_and_gets_no_header(rt: HostRuntime) -> Result<(), Fail> {
    let alloc = rt.alloc();
    let mut five = MemChip::new(alloc, 5, 20)?;
    assert_eq!(rt; format(&mut five, 0), Ok(()));
    let mut six = MemChip::new(alloc, 6, 20)?;
    assert_eq!(rt; format(&mut six, 1), Ok(()));
    assert_eq!(rt; five.events().len(), 9);
    assert_eq!(rt; six.events().len(), 10);
    assert_eq!(rt; named(&six.events()[5]), ("erase", 5));
    for (event, same) in six.events()[6..].iter().zip(&five.events()[5..]) {
        assert_eq!(rt; named(event), named(same));
        assert_eq!(rt; sector_of(event), sector_of(same));
    }
    Ok(())
}
