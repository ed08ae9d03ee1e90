//! Lines of a text, the words of a line, and what a word says.
#![tactic(auto)]

mod flag;
mod from_word;
mod line;
mod number;
mod reader;
mod script;

pub use from_word::FromWord;
pub use line::{FromWords, Unread, read_line};
pub use reader::Reader;
pub use script::{Script, split_line};
