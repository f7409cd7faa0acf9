//! The lines of a script, and the texts of the answers to its calls.
#![tactic(auto)]

mod answer;
mod argument;
mod by_descriptor;
mod by_path;
mod call;
mod call_name;
mod choice;
mod data;
mod line;
mod name;
mod number;
mod text;
mod words;

pub use answer::{answer_line, answer_text};
pub use line::{Line, LineFault, read_line};
