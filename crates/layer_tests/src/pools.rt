//! A pool of two frames, both of which are pinned.
ghost use Rattle.std.specs.Prelude.{◌≡◌, ◌<◌, Some, None, IfSome};
ghost use Rattle.slab.specs.Slab.{get, Updates};
ghost use Rattle.buffer_pool.specs.Pools.{new_buffer};

use buffer_pool::{Pin, Pool, Room};

// Brings a page in, where a frame is free and the page is in none.
fn brought(pool: &mut Pool, unit: u32, page: u32) -> Option<Pin>
    requires { page < 15 }
    ensures pin { IfSome result (λ pin. (pin.unit ≡ unit) × (pin.page ≡ page)) }
    ensures key { IfSome result (λ pin. get pool.old.buffers pin.key ≡ None) }
    ensures buffers { IfSome result (λ pin. Updates pool.old.buffers pool.new.buffers pin.key
        (Some (new_buffer unit page pool.old.clock))) }
{
    match pool.room() {
        Room::Free => match pool.find(unit, page) {
            Some(_) => None,
            None => Some(pool.bring(unit, page)),
        },
        _ => None,
    }
}

#[test]
fn two_pinned_frames_have_no_room(rt: HostRuntime) {
    let mut pool = Pool::new(rt.alloc(), 2).expect(&rt, "memory for two frames");
    assert!(rt; pool.room() == Room::Free);
    let first = brought(&mut pool, 0, 0).expect(&rt, "the first frame is free");
    let second = brought(&mut pool, 1022, 14).expect(&rt, "the second frame is free");
    assert!(rt; pool.room() == Room::AllPinned);
    pool.unpin(second);
    pool.unpin(first);
    // The page that was used first leaves first.
    assert!(rt; pool.room() == Room::Victim(0, 0));
}
