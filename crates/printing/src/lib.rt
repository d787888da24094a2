// The program's lines, as they are put into a sink. A crate apart from `session`, whose must-fail edits would each check it again.
#![tactic(auto)]

mod line;
mod text;

pub use line::{put_line, put_number};
pub use sink::Sink;
pub use text::{put_answer, put_refusal};
