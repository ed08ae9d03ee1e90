//! Price records, what a quantity of a security is worth, and the search for a quantity by its worth.
#![tactic(auto)]

mod currency;
mod price;
mod ranges;
mod seeking;
mod stands;
mod worth;

pub use currency::Currency;
pub use price::{Price, price_fault};
pub use ranges::{Margin, Quote, Sought, Units};
pub use seeking::{largest, most_taken, smallest};
pub use stands::definitions_stand;
pub use worth::{Haircut, Valuation};
