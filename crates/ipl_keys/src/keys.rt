//! What a store of keys has in memory.
use ipl_store::Store;

/// A store of values by keys, over a chip. It has a store of records in memory, and room for the
/// bucket that a call reads; the chip comes with each call. Its memory was made by `Memory::new`.
#[derive(Drop)]
pub struct Keys {
    pub(crate) store: Store,
    pub(crate) bucket: [u8; 464],
}
