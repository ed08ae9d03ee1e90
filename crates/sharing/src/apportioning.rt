//! Cash shared over a list of values.
ghost use Rattle.std.specs.Prelude.{◌≡◌, ◌<◌, true, length, is_ok};
ghost use Rattle.sharing.specs.Parts.{total_of};
ghost use Rattle.sharing.specs.Apportioned.{fitting, verdict, apportioned};

use crate::refusal::SharingRefusal;
use crate::share::Share;

/// The total of the values. Nothing where it passes 64 bits.
fn sum_of(values: &[u64]) -> Option<u64>
    ensures { result ≡ fitting (total_of values.now) }
{
    let mut sum: u64 = 0;
    for value in values {
        sum = sum.checked_add(*value)?;
    }
    Some(sum)
}

/// Writes the parts of the cash, one for each value, or refuses and writes nothing.
#[tactic(auto, using(crate::proofs::Walks::part_more, crate::proofs::Walks::total_more, crate::proofs::Walks::walk_ends))]
pub fn apportion(cash: u64, values: &[u64], parts: &mut [u64]) -> Result<(), SharingRefusal>
    ensures answer { result ≡ verdict cash values.now (length parts.old) }
    ensures written { parts.new ≡ apportioned cash values.now parts.old }
    ensures whole { is_ok result ≡ true → 0 < length values.now → total_of parts.new ≡ cash }
{
    if values.len() != parts.len() {
        return Err(SharingRefusal::Lengths);
    }
    let total = sum_of(values).ok_or(SharingRefusal::Total)?;
    let share = Share::new(cash, total).ok_or(SharingRefusal::Cash)?;
    let mut before = 0;
    for (i, value) in values.iter().enumerate() {
        parts[i] = share.part(before, *value, i + 1 == values.len());
        before += *value;
    }
    Ok(())
}
