//! Slips moved on the book and written to the host's list.
ghost use Rattle.std.specs.Prelude.{◌≡◌, length};
ghost use Rattle.drafts.specs.Drafts.{slips_of, movable, book_after, list_after};

use crate::draft::Draft;
use book::{Book, perform};
use memory::Slip;
use sides::Refusal;

/// Moves the slips on the book and writes them, all or none: refused by 13 where the list is too short, and by 14 where
/// the book refuses a movement.
pub fn move_slips<B: Book>(draft: &Draft, list: &mut [Slip], book: &mut B) -> Result<(), Refusal>
    ensures answer { result ≡ movable (B.Book.meaning book.old) (slips_of draft.now) (length list.old) }
    ensures list { list.new ≡ list_after (B.Book.meaning book.old) (slips_of draft.now) list.old }
    ensures book { B.Book.meaning book.new ≡ book_after (B.Book.meaning book.old) (slips_of draft.now) (length list.old) }
    ensures stays { B.Book.home book.new ≡ B.Book.home book.old }
{
    let slips = draft.slips();
    if slips.len() > list.len() {
        return Err(Refusal::NoSlips);
    }
    perform(book, draft.moves())?;
    list[..slips.len()].copy_from_slice(slips);
    Ok(())
}
