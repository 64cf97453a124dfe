//! Runs over a store and a desk. A script: its bytes are read in pieces, and each command is answered
//! before the next is begun. A trial: the commands that a seed gives, made by SplitMix64, are done,
//! each counted with its reply, then the records are looked up, and the summary is said. And the
//! serial view of a script, over no store: it is read to its end, and each position of its view
//! (`serial_view`) is said, as a line. It stands on what a store is (`store_trait`) and on the lines
//! of a script (`script_text`). One theorem each says of every moment of a run or a trial what was
//! said and what a power cut leaves.
//!
//! Proved, by `run_script`: the loop over any store, with chip events between the replies: said, each
//! moment of a cut, lawful events, what the store keeps at every end and which commands are done
//! then, each end's cause, that a fault of the store comes of the chip, how many numbers a script
//! draws, and what is known of worn places at its end. Where all is answered, the last event is the
//! last reply.
//!
//! Proved, by `say_serial_view`: a script is read to its end, in whatever pieces, and the lines of
//! its serial view are said, or a beginning of them; over every desk no sector is touched; each stop
//! has its cause.
//!
//! Proved, by `TrialCommands`, `Tally`, `Records`, `summary_lines`, `trial_laws`: a seed gives its
//! commands, each by one word of SplitMix64; what is counted of commands and replies, and of the
//! records and their lines, and the six lines of that, exactly by the model; the first line says the
//! count, and the last two are of the records that a list of all names says.
//!
//! Proved, by `run_trial`: a trial over any store: what is said is the summary of its commands by the
//! model, or a beginning of it, line by line; each moment of a cut, in the order of the commands;
//! lawful events, that nothing marked is used, what the store keeps at every end and which commands
//! are done then, each end's cause, that a fault of the store comes of the chip, how many numbers it draws, and what is known
//! of worn places at its end.
#![tactic(auto)]

mod answer;
mod buffer;
mod fault;
mod gathering;
mod laws;
mod run;
mod trial;
mod trial_commands;
mod trial_records;
mod trial_saying;
mod trial_summary;
mod trial_taking;
mod trial_tally;
mod trial_work;
mod view_stop;
mod viewing;

pub use fault::Stop;
pub use laws::trial_laws;
pub use run::run_script;
pub use trial::run_trial;
pub use trial_commands::TrialCommands;
pub use trial_records::Records;
pub use trial_summary::summary_lines;
pub use trial_tally::Tally;
pub use view_stop::ViewStop;
pub use viewing::say_serial_view;
