//! Hosts: one whose contract says what its own memory holds after a movement, and one that names the types of two books in one.
ghost use Rattle.std.specs.Prelude.{◌≡◌, IfOk, OnErr, length};
ghost use Rattle.book.specs.Moving.{after};
ghost use Rattle.books.specs.Laying.{opened};

use book::{Book, BookRefusal, Movement};
use books::{Grid, Holdback, Journal, Laid, Posting, check};

/// Makes a movement on a grid over memory of the host's, and answers how many movements are left. The memory then means
/// what the rule says; memory that no grid can be laid over is refused and stays as it was.
pub fn moved_in_place(
    accounts: u32,
    resources: u32,
    left: u64,
    amounts: &mut [u64],
    movement: Movement,
) -> Result<u64, BookRefusal>
    ensures made { IfOk result (λ n. opened accounts resources n amounts.new ≡ after (opened accounts resources left amounts.old) movement) }
    ensures refused { OnErr result (amounts.new ≡ amounts.old) }
{
    check(accounts, resources, amounts)?;
    let mut grid = Grid {
        accounts,
        resources,
        left,
        amounts,
    };
    let _ = grid.transfer(movement);
    Ok(grid.movements_left())
}

/// The movements left of a holdback layer over a journal, where both types are named: as many as there are postings.
pub fn left_of_layer_over_journal(
    accounts: u32,
    resources: u32,
    opening: &[u64],
    postings: &mut [Posting],
) -> Result<u64, BookRefusal>
    ensures { IfOk result (λ left. left ≡ length postings.old) }
{
    let laid = Laid::over(accounts, resources, opening)?;
    let layer = Holdback::over(Journal::over(laid, postings));
    Ok(layer.movements_left())
}
