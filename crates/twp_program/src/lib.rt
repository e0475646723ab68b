//! The program `township`. What it is asked to do: the words that its command line accepts, and the task
//! that they ask for; sources that keep a copy of the bytes that they give, because the explanation shows
//! them and many files can be read only once; a description and field notes in one text, as on standard
//! input; and how a run ends, with its status. And the work itself, over the host's capabilities: the
//! files that the command line names, the runs on them or on standard input, and the explanation of a
//! refusal on standard error.
#![tactic(auto)]

mod command;
mod files;
mod joined;
mod program;
mod showing;
mod subcommand;
mod task;

pub use files::{Kept, Name};
pub use joined::{run_joined, run_joined_noting, split_at_line_feed};
pub use program::{Ended, Ending, Failure, run, run_words};
pub use task::{Task, TaskFault, read_task};
