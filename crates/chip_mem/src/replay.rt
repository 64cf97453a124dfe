//! What kept events make of the sectors of a chip.
ghost use Rattle.std.specs.Prelude.{◌≡◌, ◌<◌, ◌≤◌, ◌+◌, ◌*◌, ◌/◌, ◌∷◌, ℕ, true, length, reverse};
ghost use Rattle.std.specs.List.{AllPass};
ghost use Rattle.chip_trait.specs.declared.event.Event.TheVariants.{Barrier};
ghost use Rattle.chip_trait.specs.Story.{Story, Contents, after, held};
ghost use Rattle.chip_trait.specs.Image.{may_tear};
ghost use Rattle.chip_mem.specs.Sectors.{contents_of};
ghost use Rattle.chip_mem.specs.Story.{is_inside, IsLasting};
ghost use Rattle.chip_mem.specs.Picked.{closed_count};

use crate::sectors::{BLANK, erase_place, program_sector};
use chip_trait::Event;
use ipl_base::SECTORS;

/// Does the events, the first one first.
pub fn replay(sectors: &mut [[u8; 512]], events: &[Event])
    requires { AllPass (is_inside (length sectors.old / 256)) events.now }
    ensures { contents_of sectors.new ≡ held (contents_of sectors.old) (reverse events.now) }
{
    for event in events {
        put_event(sectors, event);
    }
}

fn put_event(sectors: &mut [[u8; 512]], event: &Event)
    requires { is_inside (length sectors.old / 256) event.now ≡ true }
    ensures { contents_of sectors.new ≡ after event.now (contents_of sectors.old) }
{
    match event {
        Event::Program(p, s, bytes) => program_sector(sectors, *p as usize, *s as usize, bytes),
        Event::Erase(p) => erase_place(sectors, *p as usize),
        Event::Read(_, _) | Event::Worn(_) | Event::Barrier | Event::Said(_) => {}
    }
}

/// What a sector holds after the events.
pub(crate) fn held_at(start: &[[u8; 512]], events: &[Event], p: u32, s: u32) -> [u8; 512]
    requires place { p * 256 + 256 ≤ length start.now }
    requires sector { s < 256 }
    ensures { result ≡ held (contents_of start.now) (reverse events.now) p s }
{
    let mut bytes = start[p as usize * SECTORS as usize + s as usize];
    for event in events {
        put_bytes(event, p, s, &mut bytes);
    }
    bytes
}

// Makes of the bytes that a sector held before an event those that it holds after it.
fn put_bytes(event: &Event, p: u32, s: u32, bytes: &mut [u8; 512])
    ensures { (x : Contents) → x p s ≡ bytes.old → bytes.new ≡ after event.now x p s }
{
    match event {
        Event::Program(q, t, programmed) if *q == p && *t == s => *bytes = *programmed,
        Event::Erase(q) if *q == p => *bytes = BLANK,
        _ => {}
    }
}

/// Whether a power cut may leave any bytes of a sector.
pub(crate) fn may_tear(events: &[Event], p: u32, s: u32) -> bool
    ensures { result ≡ may_tear (reverse events.now) p s }
{
    let mut state = Lasting {
        open: false,
        sound: true,
        worn: false,
    };
    for event in events {
        state = lasting_after(event, p, s, state);
    }
    state.open || state.worn
}

/// Whether a sector was programmed or erased since the last barrier; whether of its place's erases the last was done; and
/// whether the place is worn.
#[derive(Clone, Copy)]
struct Lasting {
    open: bool,
    sound: bool,
    worn: bool,
}

// A barrier closes each sector, and a place whose last erase was done is worn no more.
fn after_barrier(before: Lasting) -> Lasting
    ensures { (story : Story) (p s : ℕ) → IsLasting before.open before.sound before.worn story p s
        → IsLasting result.open result.sound result.worn (Barrier ∷ story) p s }
{
    Lasting {
        open: false,
        worn: before.worn && !before.sound,
        ..before
    }
}

fn lasting_after(event: &Event, p: u32, s: u32, before: Lasting) -> Lasting
    ensures { (story : Story) → IsLasting before.open before.sound before.worn story p s
        → IsLasting result.open result.sound result.worn (event.now ∷ story) p s }
{
    match event {
        Event::Program(q, t, _) => Lasting {
            open: (*q == p && *t == s) || before.open,
            ..before
        },
        Event::Erase(q) => Lasting {
            open: *q == p || before.open,
            sound: *q == p || before.sound,
            ..before
        },
        Event::Worn(q) => Lasting {
            sound: *q != p && before.sound,
            worn: *q == p || before.worn,
            ..before
        },
        Event::Barrier => after_barrier(before),
        Event::Read(_, _) | Event::Said(_) => before,
    }
}

/// How many events there are up to the last barrier, with it.
pub(crate) fn closed_count(events: &[Event]) -> usize
    ensures value { result ≡ closed_count (reverse events.now) }
    ensures within { result ≤ length events.now }
{
    let mut count = 0;
    for (i, event) in events.iter().enumerate() {
        if let Event::Barrier = event {
            count = i + 1;
        }
    }
    count
}
