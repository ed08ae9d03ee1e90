//! How a side is stated.
ghost use Rattle.std.specs.Prelude.{◌≡◌};
ghost use Rattle.sides.specs.Sides.{side_terms, stated};

use crate::refusal::Refusal;
use crate::side::Side;
use crate::terms::Terms;
use std::marker::PhantomData;

impl<P> Side<P> {
    /// Refused by 4 where a field is out of its range.
    pub fn state(terms: Terms) -> Result<Side<P>, Refusal>
        ensures { side_terms result ≡ stated terms }
    {
        if !terms.fit() {
            return Err(Refusal::OutOfRange);
        }
        Ok(Side {
            terms,
            party: PhantomData,
        })
    }

    pub fn terms(&self) -> Terms
        ensures { result ≡ self.now.terms }
    {
        self.terms
    }
}
