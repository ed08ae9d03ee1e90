//! Rows that are found by their numbers.
ghost use Rattle.std.specs.Prelude.{◌≡◌, map, take, IfSome};
ghost use Rattle.memory.specs.Places.{Rising, place_of, FoundAt};

use crate::kept::Row;
use crate::row::Head;

/// The place of the used row with that number, if the used ones rise; in any other case a place with that number, or
/// none.
pub fn find<R: Row>(head: &Head, rows: &[R], number: u32) -> Option<usize>
    ensures found { IfSome result (FoundAt R.key rows.now (R.used head.now) number) }
    ensures place { Rising (map R.key (take (R.used head.now) rows.now)) → result ≡ place_of number (map R.key (take (R.used head.now) rows.now)) }
{
    let count = rows.len().min(R::used(head) as usize);
    rows[..count]
        .binary_search_by_key(&number, |row| row.number())
        .ok()
}
