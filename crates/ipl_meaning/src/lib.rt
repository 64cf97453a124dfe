//! What the sectors of a chip mean, and which steps keep it: when a chart stands for a map, when a
//! story rests on one, when tables mirror it, and the laws of all three, in relations; and what an
//! opening looks for on a chip, in which order it finds fault, how it finds the chip laid out and
//! what it makes of all tables, in functions that compute, which are compared with the relations. It
//! stands on the chip's stories (`chip_trait`), the formats (`ipl_format`, `log_records`,
//! `unit_layout`), the model's map (`ipl_model`) and the limits (`ipl_base`). There is no code here
//! but the laws: bodies that do nothing, with a contract that is the law.
//!
//! Proved, by the laws of `laws`: when the sectors of a chip stand for the records of some of its
//! pages, and for which: at most one map; that rot of a page takes nothing from the others; which
//! writes keep it and which change it to what; what a chip rests on, wherever it is cut; what is
//! rebuilt from which sectors; found numbers; the tables of an open store mirror the chip; a new
//! chip stands for no records; a clean close marks exactly what the tables count as clean, and no
//! call leads to a marked sector that was programmed, wherever it is cut.
//!
//! Proved, by the nine laws of `openings`: in which order an opening finds fault, as a function of a
//! chart; no fault is exactly a chart that is laid out rightly, with numbers not used up; used up
//! numbers are the one fault that such a chart may have; each fault has its cause; which units a
//! close mark says, where one counts; and the tables that an opening makes of a chart, with whatever
//! log, mirror it.
#![tactic(auto)]

mod laws;
mod openings;

pub use laws::{
    agreeing_laws, clean_laws, counter_laws, counting_laws, following_laws, format_laws,
    header_laws, idle_laws, legible_laws, log_laws, mark_laws, marking_laws, meaning_laws,
    moving_laws, record_laws, resting_laws, standing_laws, story_laws, table_laws, unit_laws,
    worn_laws,
};
pub use openings::{
    choosing_laws, fault_laws, first_laws, live_laws, marked_laws, number_laws, opened_laws,
    opening_laws, payload_laws,
};
