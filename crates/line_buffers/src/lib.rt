// Lines of text in lent buffers: where they end, what is kept of an unfinished one, and the answers to them.
#![tactic(auto)]

mod input;
mod output;

pub use input::{find, keep, move_down};
pub use output::{put_byte, put_bytes, put_decimal};
