//! The selective merge: a unit written anew at a free place, with its committed changes applied to
//! its pages and the changes of open sessions carried over; and where a log sector of a unit goes. It
//! stands on the tables (`unit_directory`, `overflow`, `txn_status`), on the unit's log as it is read
//! (`unit_log`), on places that are taken (`place_taking`), and on what a page made anew holds
//! (`page_ops`). A contract sees the tables as one record (`tables_of`), and what a call leaves as
//! `Steps` has it.
//!
//! Proved, by `merge`: done, the unit stands at a place that was free, its pages show the same, and
//! its log is the pack of what is carried; at each moment a power cut leaves the old map; where no
//! write failed, the tables agree, also where too many places are worn; one erase more is tried than
//! places are retired, each of the least worn place that is free then, and no program elsewhere;
//! places in use keep their bytes; the new header says how often its place was erased; it draws a
//! generation and a serial for each log sector.
//!
//! Proved, by `merge`, `log_place`: over what the chip holds it tells exactly what is wrong with the
//! unit: too many log sectors to carry, or the first page that doesn't read well or has no room for
//! its committed records (`merge_fault`). So where the unit's pages show values, for which a page has
//! room, and at most 12 log sectors would be carried, it fails only where a call of the chip failed,
//! and the same goes for the place of a log sector.
//!
//! Proved, by `log_place`, `carried`: the next log sector goes where the first rule that applies
//! says, exactly by what would be carried; how many sectors that is; places in use keep their bytes.
//!
//! What a merge makes of a unit, and which places the tables know, stands here too, as definitions:
//! the place that was filled (`IsFilled`), the merged unit (`IsMergedUnit`), the places that are
//! known (`KnowsPlaces`) and what is wrong with a unit (`merge_fault`). Proved, by `merge_laws`,
//! `known_laws`, `fault_laws`: a place that was filled for a merge stands for the same map with its
//! header, and the tables follow; of each name the last record of an active number stays; where
//! tables know each place one may be taken, however many are worn, and they go on knowing them;
//! nothing is wrong with a unit whose pages show values, for which a page has room, and of which few
//! log sectors would be carried.
#![tactic(auto)]

mod active;
mod carry;
mod home;
mod laws;
mod learning;
mod log;
mod logs;
mod merging;
mod overflowing;
mod packs;
mod pages;
mod parts;
mod places;
mod placing;
mod record_offset;
mod scratch;
mod spots;

pub use active::Active;
pub use laws::{fault_laws, known_laws, merge_laws};
pub use merging::merge;
pub use parts::Parts;
pub use placing::log_place;
pub use scratch::MergeScratch;
pub use spots::carried;
