//! Rows that come into a table and go from it, where the used rows come first.
ghost use Rattle.std.specs.Prelude.{◌≡◌, ◌+◌, ◌-◌, ◌<◌, ◌≤◌, length, if◌then◌else◌, slice_set};
ghost use Rattle.tables.specs.Rows.{fits, has_room, is_used, without};
ghost use Rattle.tables.specs.Stays.{AddsFilled, RemovesFilled};

use memory::{Head, Row};

/// Whether a table has as many rows as are used, and no more than it may have.
pub(crate) fn fit<R: Row>(rows: &[R], used: u32) -> bool
    ensures { result ≡ fits R.MOST used rows.now }
{
    used as usize <= rows.len() && rows.len() <= R::MOST
}

/// Takes the row at `place` out of the used ones: those after it move up, and the last of them is cleared.
fn take_out<R: Row>(rows: &mut [R], used: usize, place: usize)
    requires { (place < used) × (used ≤ length rows.old) }
    ensures { rows.new ≡ without R.NONE used place rows.old }
{
    rows.copy_within(place + 1..used, place);
    rows[used - 1] = R::NONE;
}

/// Adds a row after the used ones. False, and nothing changes, where it has no place.
pub(crate) fn add<R: Row>(head: &mut Head, rows: &mut [R], row: R) -> bool
    ensures answer { result ≡ has_room R.MOST (R.used head.old) rows.old }
    ensures rows { rows.new ≡ (if has_room R.MOST (R.used head.old) rows.old then slice_set rows.old (R.used head.old) row else rows.old) }
    ensures head { head.new ≡ (if has_room R.MOST (R.used head.old) rows.old then R.using (R.used head.old + 1) head.old else head.old) }
    ensures filled { AddsFilled R.key R.NONE R.MOST row (R.used head.old) rows.old (R.used head.new) rows.new }
{
    let used = R::used(head);
    if used as usize >= rows.len() || rows.len() > R::MOST {
        return false;
    }
    rows[used as usize] = row;
    R::set_used(head, used + 1);
    true
}

/// Removes the row at `place`; those after it move up. False, and nothing changes, where no used row is there.
pub(crate) fn remove<R: Row>(head: &mut Head, rows: &mut [R], place: usize) -> bool
    ensures answer { result ≡ is_used R.MOST (R.used head.old) place rows.old }
    ensures rows { rows.new ≡ (if is_used R.MOST (R.used head.old) place rows.old then without R.NONE (R.used head.old) place rows.old else rows.old) }
    ensures head { head.new ≡ (if is_used R.MOST (R.used head.old) place rows.old then R.using (R.used head.old - 1) head.old else head.old) }
    ensures filled { RemovesFilled R.key R.NONE R.MOST (R.used head.old) rows.old (R.used head.new) rows.new }
{
    let used = R::used(head);
    if place >= used as usize || !fit(rows, used) {
        return false;
    }
    take_out(rows, used as usize, place);
    R::set_used(head, used - 1);
    true
}
