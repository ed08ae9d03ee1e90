//! What the nine calls mean, and the law that every history of them keeps. The definitions stand in specs/.
#![tactic(auto)]

mod laws;

pub use laws::{calls_achieve, every_past_keeps};
