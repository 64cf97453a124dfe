//! Pages and sessions.
use page_frames::Pages;
use record_locks::Sessions;

/// The pages of a store and its open sessions.
#[derive(Drop)]
pub struct Transactions {
    pub pages: Pages,
    pub sessions: Sessions,
}
