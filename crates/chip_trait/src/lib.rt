//! A raw NAND chip as code sees it (`Chip`), and a desk (`Desk`): a chip with a script to read and
//! somebody to talk to. One story orders what is said and what is written, and this crate says what
//! a power cut may leave of it. It stands on no crate here. A contract sees all that a chip tells
//! as one record, `Told`; its laws are on what it holds, images, lawful events and what was said.
//!
//! Proved, by `Chip`, `Desk`; `image_laws`, `lawful_laws`, `said_laws`: what a chip and a power
//! cut are; images, moments, lawful stories and charts, with their laws.
#![tactic(auto)]

mod chip;
mod desk;
mod event;
mod laws;
mod wear;

pub use chip::{Chip, Failed};
pub use desk::Desk;
pub use event::{Event, Piece};
pub use laws::{image_laws, lawful_laws, said_laws};
pub use wear::Wear;
