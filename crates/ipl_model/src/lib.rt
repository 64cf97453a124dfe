//! The model. Its rules: the state that a store stands for, when each operation is refused, and what
//! it does; no page, place, log sector, merge or status occurs in them. And commands and replies over
//! these: the line grammar of scripts, the text of replies, what a run over a script says and leaves,
//! and the model as a program. A contract sees commands and replies as they are, and a script as the
//! list of its commands.
//!
//! Proved, by `rule_laws`: the model of all commands for 32 sessions: refusals don't look at the
//! records, but that of a put whose page is full, and change nothing; only commits change the
//! records; a session sees its own last write, or else the record; a batch that isn't refused names
//! open sessions, each once, and changes the records by their last writes alone. By `fill_laws`: what
//! open sessions' writes may come to take has room in its page, and their names in a merge.
//!
//! Proved, by `run_laws`, `session_laws`: runs of the model over scripts: the number of commands
//! answered is the greatest whose replies were said; a refused command changes nothing; only a commit
//! that isn't refused, of one session or of several, changes the records; a restart closes all
//! sessions and keeps them.
//!
//! Proved, by `PlainModel::step`: the model as a program: each step is the definition's, state and
//! replies.
#![tactic(auto)]

mod command;
mod laws;
mod laws_of_sessions;
mod line;
mod numbers;
mod plain_model;
mod reply;
mod rules;
mod weights;

pub use command::{Command, PutBytes, Sessions};
pub use laws::run_laws;
pub use laws_of_sessions::session_laws;
pub use line::Line;
pub use numbers::least_twice;
pub use plain_model::PlainModel;
pub use reply::Reply;
pub use rules::{fill_laws, rule_laws};
pub use weights::weight_of;
