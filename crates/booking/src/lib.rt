//! What the commands to a book do, before it is made and after.
#![tactic(auto)]

mod console;
mod obeying;
mod output;
mod preparing;
mod session;
mod unobeyed;

pub use console::Console;
pub use obeying::obey;
pub use output::{Asked, report, report_misplaced, show_amounts, show_book};
pub use preparing::prepare;
pub use session::run;
pub use unobeyed::Unobeyed;
