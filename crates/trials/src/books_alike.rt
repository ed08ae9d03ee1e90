//! The books: each refusal at its edge, and two books that are one.
use crate::movements::{MOVEMENTS, OPENING};
use crate::sealed::Sealed;
use book::{Book, BookRefusal, Movement, RefusedAt, attempt, held_by_all, perform, rehearse};
use books::{Amounts, BLANK, Grid, Holdback, Journal, Laid, check as check_memory};
use std::process::Abort;
use std::test::Fail;

const LIMIT: u64 = 1_000_000_000_000_000;

fn movement(from: u32, to: u32, resource: u32, quantity: u64) -> Movement {
    Movement {
        from,
        to,
        resource,
        quantity,
    }
}

/// Amounts of which a test knows that they fit.
pub(crate) fn lay<S: Amounts>(accounts: u32, resources: u32, amounts: S) -> Result<Laid<S>, Fail> {
    Laid::over(accounts, resources, amounts).map_err(|_| Fail::new("the amounts"))
}

/// Whether two books answer alike to every question.
fn alike<X: Book, Y: Book>(x: &X, y: &Y) -> bool {
    let mut same = x.accounts() == y.accounts()
        && x.resources() == y.resources()
        && x.movements_left() == y.movements_left();
    for account in 0..66 {
        for resource in 0..9 {
            same = same
                && x.amount(account, resource) == y.amount(account, resource)
                && x.holdback(account, resource) == y.holdback(account, resource);
        }
    }
    same
}

/// Both books are given each movement of the table; how many were answered by 0 and by 41 to 45.
fn run_both<X: Book, Y: Book>(rt: &impl Abort, x: &mut X, y: &mut Y) -> [u32; 6] {
    let mut answers = [0u32; 6];
    for (from, to, resource, quantity) in MOVEMENTS.iter().copied() {
        let next = movement(from, to, resource, quantity);
        let answer = x.transfer(next);
        assert!(rt; answer == y.transfer(next));
        assert!(rt; alike(x, y));
        let k = match answer {
            Ok(()) => 0,
            Err(refusal) => refusal.number().saturating_sub(40),
        };
        if k < 6 {
            let k = k as usize;
            answers[k] = answers[k].saturating_add(1);
        }
    }
    answers
}

/// A layer over each of two books, with the same rows.
fn run_layers<X: Book + Drop, Y: Book + Drop>(rt: &impl Abort, x: X, y: Y) -> [u32; 6] {
    let mut x = Holdback::over(x);
    let mut y = Holdback::over(y);
    for (account, resource, quantity) in [
        (0, 0, 7),
        (2, 3, LIMIT),
        (4, 6, 1),
        (4, 6, 0),
        (5, 0, 1),
        (0, 0, 9),
    ] {
        assert_eq!(rt;
            x.hold(account, resource, quantity),
            y.hold(account, resource, quantity)
        );
    }
    run_both(rt, &mut x, &mut y)
}

#[test]
fn grid_and_journal_are_one(rt: HostRuntime) -> Result<(), Fail> {
    let opening = OPENING;
    let mut amounts = OPENING;
    let mut postings = [BLANK; 130];
    let opening = lay(5, 7, &opening[..])?;
    let amounts = lay(5, 7, &mut amounts[..])?;
    let mut grid = Grid::over(amounts, 130);
    let mut journal = Journal::over(opening, &mut postings);
    assert!(rt; alike(&grid, &journal));
    assert_eq!(rt;
        run_both(&rt, &mut grid, &mut journal),
        [130, 78, 11, 70, 17, 14]
    );
    Ok(())
}

#[test]
fn layers_over_them_are_one(rt: HostRuntime) -> Result<(), Fail> {
    let opening = OPENING;
    let mut amounts = OPENING;
    let mut postings = [BLANK; 130];
    let opening = lay(5, 7, &opening[..])?;
    let amounts = lay(5, 7, &mut amounts[..])?;
    let grid = Grid::over(amounts, 130);
    let journal = Journal::over(opening, &mut postings);
    let answers = run_layers(&rt, grid, journal);
    assert_eq!(rt; answers, [104, 78, 11, 105, 22, 0]);
    Ok(())
}

/// What a book of two accounts and four resources with 6 of resource 3 on account 0, and all but 4 of the limit on account 1, answers.
fn edges<X: Book>(rt: &impl Abort, book: &mut X) {
    assert_eq!(rt;
        book.transfer(movement(2, 1, 3, 1)),
        Err(BookRefusal::Outside)
    );
    assert_eq!(rt;
        book.transfer(movement(0, 2, 3, 1)),
        Err(BookRefusal::Outside)
    );
    assert_eq!(rt;
        book.transfer(movement(0, 1, 4, 1)),
        Err(BookRefusal::Outside)
    );
    assert_eq!(rt;
        book.transfer(movement(1, 1, 3, 1)),
        Err(BookRefusal::Outside)
    );
    assert_eq!(rt;
        book.transfer(movement(0, 1, 3, 0)),
        Err(BookRefusal::Quantity)
    );
    assert_eq!(rt;
        book.transfer(movement(0, 1, 3, 7)),
        Err(BookRefusal::NotFree)
    );
    assert_eq!(rt;
        book.transfer(movement(0, 1, 3, 5)),
        Err(BookRefusal::NoRoom)
    );
    assert_eq!(rt; book.amount(2, 3), None);
    assert_eq!(rt; book.amount(1, 4), None);
    assert_eq!(rt; book.holdback(1, 4), None);
    assert_eq!(rt; book.transfer(movement(0, 1, 3, 4)), Ok(()));
    assert_eq!(rt; book.amount(1, 3), Some(LIMIT));
    assert_eq!(rt; book.transfer(movement(1, 0, 3, 1)), Ok(()));
    assert_eq!(rt; book.movements_left(), 0);
    assert_eq!(rt;
        book.transfer(movement(1, 0, 3, 1)),
        Err(BookRefusal::NoMovements)
    );
}

#[test]
fn movements_at_their_edges(rt: HostRuntime) -> Result<(), Fail> {
    let opening = [0, 0, 0, 6, 0, 0, 0, LIMIT - 4];
    let mut amounts = opening;
    let mut postings = [BLANK; 2];
    let first = lay(2, 4, &opening[..])?;
    let laid = lay(2, 4, &mut amounts[..])?;
    edges(&rt, &mut Grid::over(laid, 2));
    edges(&rt, &mut Journal::over(first, &mut postings));
    assert_eq!(rt; amounts, [0, 0, 0, 3, 0, 0, 0, LIMIT - 1]);
    assert_eq!(rt; postings[1].sender, LIMIT - 1);
    assert_eq!(rt; postings[1].receiver, 3);
    Ok(())
}

/// The rows of a layer over a book of two accounts and 20 resources.
fn rows<X: Book + Drop>(rt: &impl Abort, below: X) {
    let mut inner = Holdback::over(below);
    assert_eq!(rt; inner.hold(1, 19, LIMIT), Ok(()));
    let mut book = Holdback::over(inner);
    assert_eq!(rt; book.hold(2, 0, 1), Err(BookRefusal::Outside));
    assert_eq!(rt; book.hold(0, 20, 1), Err(BookRefusal::Outside));
    assert_eq!(rt; book.hold(1, 19, LIMIT + 1), Err(BookRefusal::Quantity));
    assert_eq!(rt; book.hold(1, 19, LIMIT), Ok(()));
    assert_eq!(rt; book.holdback(1, 19), Some(LIMIT));
    for k in 0..31 {
        assert_eq!(rt; book.hold(k / 16, k % 16, 5), Ok(()));
    }
    assert_eq!(rt; book.hold(0, 16, 1), Err(BookRefusal::NoRow));
    assert_eq!(rt; book.hold(0, 16, 0), Ok(()));
    assert_eq!(rt; book.hold(0, 3, 4), Ok(()));
    assert_eq!(rt; book.holdback(0, 3), Some(4));
    assert_eq!(rt;
        book.transfer(movement(0, 1, 3, 3)),
        Err(BookRefusal::NotFree)
    );
    assert_eq!(rt; book.transfer(movement(0, 1, 3, 2)), Ok(()));
    assert_eq!(rt; book.hold(0, 3, 0), Ok(()));
    assert_eq!(rt; book.hold(0, 16, 1), Ok(()));
    assert_eq!(rt; book.transfer(movement(0, 1, 3, 4)), Ok(()));
}

#[test]
fn rows_at_their_edges(rt: HostRuntime) -> Result<(), Fail> {
    let mut amounts = [0; 40];
    amounts[3] = 6;
    let laid = lay(2, 20, &mut amounts[..])?;
    rows(&rt, Grid::over(laid, 9));
    Ok(())
}

/// Lists on a book of three accounts, with 10 of resource 3 on account 0 and three movements.
fn lists<X: Book>(rt: &impl Abort, book: &mut X) {
    let through = [
        movement(0, 1, 3, 10),
        movement(1, 2, 3, 10),
        movement(2, 0, 3, 4),
    ];
    let short = [movement(0, 1, 3, 10), movement(1, 2, 3, 11)];
    let long = [through[0], through[1], through[2], movement(0, 1, 3, 1)];
    let not_free = Err(RefusedAt {
        place: 1,
        refusal: BookRefusal::NotFree,
    });
    assert_eq!(rt; rehearse(book, &short), not_free);
    assert_eq!(rt; perform(book, &short), not_free);
    let spent = Err(RefusedAt {
        place: 3,
        refusal: BookRefusal::NoMovements,
    });
    assert_eq!(rt; perform(book, &long), spent);
    assert_eq!(rt; book.amount(0, 3), Some(10));
    assert_eq!(rt; rehearse(book, &through), Ok(()));
    assert_eq!(rt; book.movements_left(), 3);
    assert_eq!(rt; attempt(book, &short), 1);
    assert_eq!(rt; perform(book, &through[1..]), Ok(()));
    assert_eq!(rt; book.amount(2, 3), Some(6));
    assert_eq!(rt; book.movements_left(), 0);
    assert_eq!(rt; held_by_all(book, 3), 10);
}

#[test]
fn lists_as_a_whole(rt: HostRuntime) -> Result<(), Fail> {
    let mut amounts = [0; 12];
    amounts[3] = 10;
    let laid = lay(3, 4, &mut amounts[..])?;
    lists(&rt, &mut Grid::over(laid, 3));
    Ok(())
}

fn sealed<X: Book + Drop>(rt: &impl Abort, below: X) {
    let mut book = Sealed { below };
    assert_eq!(rt; book.amount(0, 3), Some(10));
    assert_eq!(rt;
        book.transfer(movement(0, 1, 3, 11)),
        Err(BookRefusal::NotFree)
    );
    assert_eq!(rt;
        book.transfer(movement(0, 1, 3, 10)),
        Err(BookRefusal::NoMovements)
    );
    assert_eq!(rt; book.amount(0, 3), Some(10));
}

#[test]
fn a_sealed_book_takes_nothing(rt: HostRuntime) -> Result<(), Fail> {
    let mut amounts = [0; 12];
    amounts[3] = 10;
    let laid = lay(3, 4, &mut amounts[..])?;
    sealed(&rt, Grid::over(laid, 3));
    Ok(())
}

#[test]
fn checks_before_making(rt: HostRuntime) {
    let cells = [0u64; 8192];
    let unfit = Err(BookRefusal::Unfit);
    assert_eq!(rt; check_memory(2, 4, &cells[0..8]), Ok(()));
    assert_eq!(rt; check_memory(64, 128, &cells), Ok(()));
    assert_eq!(rt; check_memory(1, 4, &cells[0..4]), unfit);
    assert_eq!(rt; check_memory(65, 4, &cells[0..260]), unfit);
    assert_eq!(rt; check_memory(2, 3, &cells[0..6]), unfit);
    assert_eq!(rt; check_memory(2, 129, &cells[0..258]), unfit);
    assert_eq!(rt; check_memory(2, 4, &cells[0..7]), unfit);
    assert_eq!(rt; check_memory(2, 4, &cells[0..9]), unfit);
    assert_eq!(rt;
        check_memory(2, 4, &[0, 0, 0, LIMIT, 0, 0, 0, LIMIT]),
        Ok(())
    );
    assert_eq!(rt;
        check_memory(2, 4, &[0, 0, 0, 0, 0, 0, 0, LIMIT + 1]),
        unfit
    );
}
