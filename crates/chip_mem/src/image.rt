//! The image of a power cut that picks make.
ghost use Rattle.std.specs.Prelude.{◌≡◌, ◌<◌, ◌≤◌, ◌+◌, ◌*◌, ◌/◌, length, reverse, fold, IfOk, IfSome, OnOk};
ghost use Rattle.std.specs.List.{AllPass};
ghost use Rattle.chip_trait.specs.Image.{IsImage};
ghost use Rattle.chip_mem.specs.Sectors.{contents_of};
ghost use Rattle.chip_mem.specs.Story.{is_inside};
ghost use Rattle.chip_mem.specs.Picked.{chosen, with_pick, image_of};

use crate::pick::{Choice, Pick};
use crate::replay::{closed_count, held_at, may_tear, replay};
use crate::sectors::{copy_sectors, program_sector};
use chip_trait::Event;
use ipl_base::{OutOfMemory, SECTORS};
use std::alloc::Global;

/// The sectors of the image of these events, on a chip that began with these sectors.
pub(crate) fn image_sectors(
    alloc: Global,
    start: &[[u8; 512]],
    events: &[Event],
    picks: &[Pick],
) -> Result<Vec<[u8; 512]>, OutOfMemory>
    requires { AllPass (is_inside (length start.now / 256)) events.now }
    ensures value { let x = contents_of start.now in let story = reverse events.now in
        IfOk result (λ v. contents_of v.items ≡ image_of x story picks.now) }
    ensures image { let x = contents_of start.now in let story = reverse events.now in
        OnOk result (IsImage x story (image_of x story picks.now)) }
    ensures len { IfOk result (λ v. length v.items ≡ length start.now) }
{
    let mut sectors = copy_sectors(alloc, start)?;
    replay(&mut sectors, events);
    put_picks(&mut sectors, start, events, picks);
    Ok(sectors)
}

fn put_picks(sectors: &mut [[u8; 512]], start: &[[u8; 512]], events: &[Event], picks: &[Pick])
    requires sized { length sectors.old ≡ length start.now }
    requires inside { AllPass (is_inside (length start.now / 256)) events.now }
    ensures value { let x = contents_of start.now in let story = reverse events.now in
        contents_of sectors.new ≡ fold (with_pick x story) (contents_of sectors.old) picks.now }
    ensures image { let x = contents_of start.now in let story = reverse events.now in
        IsImage x story (contents_of sectors.old) → IsImage x story (contents_of sectors.new) }
{
    for pick in picks {
        put_pick(sectors, start, events, pick);
    }
}

// Does the pick, where a power cut may leave anything of its sector.
fn put_pick(sectors: &mut [[u8; 512]], start: &[[u8; 512]], events: &[Event], pick: &Pick)
    requires sized { length sectors.old ≡ length start.now }
    requires inside { AllPass (is_inside (length start.now / 256)) events.now }
    ensures value { let x = contents_of start.now in let story = reverse events.now in
        contents_of sectors.new ≡ with_pick x story (contents_of sectors.old) pick.now }
    ensures image { let x = contents_of start.now in let story = reverse events.now in
        IsImage x story (contents_of sectors.old) → IsImage x story (contents_of sectors.new) }
{
    if pick.sector >= SECTORS || !may_tear(events, pick.place, pick.sector) {
        return;
    }
    if let Some(bytes) = chosen_bytes(start, events, pick) {
        program_sector(sectors, pick.place as usize, pick.sector as usize, &bytes);
    }
}

fn chosen_bytes(start: &[[u8; 512]], events: &[Event], pick: &Pick) -> Option<[u8; 512]>
    requires place { pick.now.place * 256 + 256 ≤ length start.now }
    requires sector { pick.now.sector < 256 }
    ensures value { let x = contents_of start.now in let story = reverse events.now in
        result ≡ chosen x story pick.now.place pick.now.sector pick.now.choice }
    ensures fits { IfSome result (λ bytes. length bytes ≡ 512) }
{
    let closed = closed_count(events);
    match &pick.choice {
        Choice::Old => Some(held_at(start, &events[..closed], pick.place, pick.sector)),
        Choice::After(number) => {
            let number = *number;
            if number < closed as u64 || events.len() as u64 <= number {
                return None;
            }
            let count = number as usize + 1;
            Some(held_at(start, &events[..count], pick.place, pick.sector))
        }
        Choice::Bytes(bytes) => Some(copy_of(bytes)),
    }
}

fn copy_of(bytes: &[u8; 512]) -> [u8; 512]
    ensures value { result ≡ bytes.now }
    ensures fits { length bytes.now ≡ 512 }
{
    *bytes
}
