//! The end of a session, in the frames of the names that it wrote.
ghost use Rattle.std.specs.Prelude.{◌≡◌, ◌<◌, map};
ghost use Rattle.store_laws.specs.Frames.{IsCommittedFrame, IsAbortedFrame};
ghost use Rattle.page_frames.specs.Views.{frames_of};
ghost use Rattle.store_laws.specs.NamedFrames.{NamedFramesChange};
ghost use Rattle.page_frames.specs.Changes.{ChangesHome, KeepsPool};

use buffer_pool::Pool;
use ipl_base::{Name, home};

/// Makes what is pending under this number a value, in the frames of these names' pages, as a commit
/// does. Pages that are in no frame are passed over.
pub fn apply_names(pool: &mut Pool, names: &[Name], tid: u64)
    ensures applied { NamedFramesChange (IsCommittedFrame tid) (map (λ n. n.0) names.now)
        (frames_of pool.old) (frames_of pool.new) }
    ensures pool { KeepsPool pool.old pool.new }
{
    for name in names {
        apply_home(pool, *name, tid);
    }
}

/// Drops what is pending under this number and its records, in the frames of these names' pages, as an
/// abort does. Pages that are in no frame are passed over.
pub fn drop_names(pool: &mut Pool, names: &[Name], tid: u64)
    ensures dropped { NamedFramesChange (IsAbortedFrame tid) (map (λ n. n.0) names.now)
        (frames_of pool.old) (frames_of pool.new) }
    ensures pool { KeepsPool pool.old pool.new }
{
    for name in names {
        drop_home(pool, *name, tid);
    }
}

// Makes what is pending under this number a value, in the frame of a name's page.
fn apply_home(pool: &mut Pool, name: Name, tid: u64)
    ensures { ChangesHome (IsCommittedFrame tid) pool.old pool.new name.0 }
{
    pool.facts();
    let at = home(name);
    if let Some(key) = pool.find(at.unit, at.page) {
        pool.frame_under(key).apply_tid(tid);
    }
}

// Drops what is pending under this number and its records, in the frame of a name's page.
fn drop_home(pool: &mut Pool, name: Name, tid: u64)
    ensures { ChangesHome (IsAbortedFrame tid) pool.old pool.new name.0 }
{
    pool.facts();
    let at = home(name);
    if let Some(key) = pool.find(at.unit, at.page) {
        pool.frame_under(key).drop_tid(tid);
        pool.log_under(key).drop_tid(tid);
    }
}
