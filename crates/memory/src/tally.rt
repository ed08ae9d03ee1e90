//! The parts of the lines, summed for all deals in one pass.
ghost use Rattle.std.specs.Prelude.{◌≡◌};
ghost use Rattle.memory.specs.Places.{Rising};
ghost use Rattle.memory.specs.Sound.{first_set};
ghost use Rattle.memory.specs.Tally.{with_part, with_parts, names};

use crate::row::Line;

/// Adds the part of a line to the sum of its deal, and answers whether that is one of the first `count`.
fn add_part(keys: &[u64; 64], count: usize, sums: &mut [u64; 64], line: &Line) -> bool
    requires { Rising keys.now }
    ensures sums { sums.new ≡ with_part keys.now line.now sums.old }
    ensures stands { result ≡ names keys.now count line.now }
{
    let Ok(row) = keys.binary_search(&(line.deal as u64)) else {
        return false;
    };
    sums[row] = sums[row].saturating_add(line.part);
    row < count
}

/// Adds the part of each line to the sum of its deal, and answers the first line whose deal is not one of the
/// first `count`.
pub(crate) fn tally(
    keys: &[u64; 64],
    count: usize,
    sums: &mut [u64; 64],
    lines: &[Line],
) -> Option<usize>
    requires { Rising keys.now }
    ensures sums { sums.new ≡ with_parts keys.now sums.old lines.now }
    ensures loose { result ≡ first_set (names keys.now count) 0 lines.now }
{
    // Keys and sums lie apart: the search by halves goes over the keys as a list by itself.
    let mut loose = None;
    for (place, line) in lines.iter().enumerate() {
        if !add_part(keys, count, sums, line) {
            loose = loose.or(Some(place));
        }
    }
    loose
}
