//! What a slot holds, lent from the frame of its page.
ghost use Rattle.std.specs.Prelude.{◌≡◌, ◌≤◌, ◌<◌, Some, None, IfSome, length, option_map};
ghost use Rattle.ipl_base.specs.declared.limits.TheConstants.{VALUE_LEN};
ghost use Rattle.page_ops.specs.Frames.{values_in, pending_in};
ghost use Rattle.page_ops.specs.Pending.{seen_by};
ghost use Rattle.store_laws.specs.Frames.{PageFrame};
ghost use Rattle.page_frames.specs.Views.{frames_of};

use buffer_pool::Pool;
use ipl_base::Home;
use page_ops::Frame;

/// The committed value that lives in a slot (0 to 63) of a page (0 to 14 of a unit), at most 464 bytes,
/// where the page is in a frame.
pub fn committed_value(pool: &Pool, home: Home) -> Option<&[u8]>
    requires page { home.page < 15 }
    requires slot { home.slot < 64 }
    ensures value { (f : PageFrame) → frames_of pool.now home.unit home.page ≡ Some f
        → option_map (λ b. b.now) result ≡ f.values home.slot }
    ensures none { frames_of pool.now home.unit home.page ≡ None → result ≡ None }
    ensures short { IfSome result (λ b. length b.now ≤ VALUE_LEN) }
{
    match pool.look(home.unit, home.page) {
        Some(frame) => frame.committed().get(home.slot),
        None => None,
    }
}

/// What a session of this number sees in a slot (0 to 63) of a page (0 to 14 of a unit): its own change,
/// where it has one there, or else the committed value. At most 464 bytes, where the page is in a frame.
pub fn seen_value(pool: &Pool, home: Home, tid: u64) -> Option<&[u8]>
    requires page { home.page < 15 }
    requires slot { home.slot < 64 }
    ensures seen { (f : PageFrame) → frames_of pool.now home.unit home.page ≡ Some f
        → option_map (λ b. b.now) result ≡ seen_by tid (f.values home.slot) (f.pending home.slot) }
    ensures none { frames_of pool.now home.unit home.page ≡ None → result ≡ None }
    ensures short { IfSome result (λ b. length b.now ≤ VALUE_LEN) }
{
    match pool.look(home.unit, home.page) {
        Some(frame) => seen_in(frame, home.slot, tid),
        None => None,
    }
}

// What a session of this number sees in a slot of a frame.
fn seen_in(frame: &Frame, slot: u32, tid: u64) -> Option<&[u8]>
    requires { slot < 64 }
    ensures seen { option_map (λ b. b.now) result
        ≡ seen_by tid (values_in frame.now slot) (pending_in frame.now slot) }
    ensures short { IfSome result (λ b. length b.now ≤ VALUE_LEN) }
{
    match frame.pending(slot) {
        Some(pending) if pending.tid == tid => pending.value,
        _ => frame.committed().get(slot),
    }
}
