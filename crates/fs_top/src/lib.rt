//! The top of the program: its words, its runs and what it prints.
#![tactic(auto)]

mod close;
mod engine;
mod fault_lines;
mod hear;
mod join;
mod line;
mod options;
mod output;
mod ping;
mod print;
mod run;
mod run_end;
mod running;
mod top;
mod turn;
mod words;

pub use ping::ending::{Ending, FirstFrameFault, Greeting};
pub use run_end::{End, Wrong};
pub use top::smbfs;
