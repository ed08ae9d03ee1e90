//! The movement that a slip records.
ghost use Rattle.std.specs.Prelude.{◌≡◌};
ghost use Rattle.memory.specs.Slips.{movement_of};

use crate::row::Slip;
use book::Movement;

impl From<Slip> for Movement {
    ghost from_gives = { λ slip r. r ≡ movement_of slip };

    fn from(slip: Slip) -> Movement {
        Movement {
            from: slip.from,
            to: slip.to,
            resource: slip.resource,
            quantity: slip.amount,
        }
    }
}
