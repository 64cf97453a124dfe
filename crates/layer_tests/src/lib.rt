//! Tests of single layers by their public calls, of what no clause says and no row of data can show:
//! chips in files and in memory, what a format writes and what an opening finds, and tables that say
//! something else than the chip. They stand in a crate of their own so that the crates below are proved
//! once.
#![tactic(auto)]

#[cfg(test)]
mod chip_calls;
#[cfg(test)]
mod chips;
#[cfg(test)]
mod files;
#[cfg(test)]
mod formats;
#[cfg(test)]
mod logs;
#[cfg(test)]
mod openings;
#[cfg(test)]
mod pools;
#[cfg(test)]
mod sectors;
