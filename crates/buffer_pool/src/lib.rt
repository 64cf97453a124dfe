//! Frames for pages, in a slab whose room is reserved at the start and which never grows. A pinned page stays in its frame,
//! and no page has two.
//!
//! Proved, by `Pool`, `pool_laws`, `holding_laws`, `resting_laws`, `use_laws`: no two frames have one page; a
//! pinned page stays in its frame; a frame that is passed on is one that a page left and another
//! was brought into; what is lent of one frame changes no other; a page offered for eviction has no
//! pin, and of such pages none was used longer ago; and none is offered exactly where a frame is
//! free or all are pinned. A page that is brought in, pinned or touched is the one used last then.
//! A page that is held stays held through calls that give back their pins, and a pool at rest has a
//! page that isn't. The pages in frames are told in rising order.
#![tactic(auto)]

mod holding;
mod index;
mod laws;
mod looking;
mod pool;
mod room;

pub use laws::{holding_laws, pool_laws, resting_laws, use_laws};
pub use pool::{Pin, Pool};
pub use room::Room;
