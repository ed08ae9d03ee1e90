//! The making, filling and reading of a draft.
ghost use Rattle.std.specs.Prelude.{◌≡◌, [], ◌∷◌, ◌++◌, length, if◌then◌else◌, nat_lt};
ghost use Rattle.law.specs.Slips.{movements_of};
ghost use Rattle.drafts.specs.Drafts.{slips_of, most_slips, put_answer};

use crate::draft::{Draft, DraftFull};
use arrayvec::ArrayVec;
use book::Movement;
use memory::Slip;

impl Draft {
    pub fn empty() -> Draft
        ensures { slips_of result ≡ [] }
    {
        Draft {
            slips: ArrayVec::new(),
            moves: ArrayVec::new(),
        }
    }

    /// The slips, in order.
    pub fn slips(&self) -> &[Slip]
        ensures { result.now ≡ slips_of self.now }
    {
        self.slips.as_slice()
    }

    /// The movements that the slips record, in order.
    pub fn moves(&self) -> &[Movement]
        ensures { result.now ≡ movements_of (slips_of self.now) }
    {
        self.moves.as_slice()
    }

    /// Adds a slip. Where there are 1,024, nothing changes.
    pub fn put(&mut self, slip: Slip) -> Result<(), DraftFull>
        ensures answer { result ≡ put_answer (slips_of self.old) }
        ensures slips { slips_of self.new ≡ (if nat_lt (length (slips_of self.old)) most_slips then slips_of self.old ++ (slip ∷ []) else slips_of self.old) }
    {
        if self.slips.is_full() {
            return Err(DraftFull);
        }
        self.slips.push(slip);
        self.moves.push(Movement::from(slip));
        Ok(())
    }
}
