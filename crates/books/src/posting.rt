//! A posting, and what it says of an account.
ghost use Rattle.std.specs.Prelude.{◌≡◌};
ghost use Rattle.books.specs.Postings.{posted, latest};

/// A movement that was made, with both new amounts.
#[derive(Clone, Copy)]
pub struct Posting {
    pub from: u32,
    pub to: u32,
    pub resource: u32,
    /// The sender's amount after it.
    pub sender: u64,
    /// The receiver's amount after it.
    pub receiver: u64,
}

/// An unused posting.
pub const BLANK: Posting = Posting {
    from: 0,
    to: 0,
    resource: 0,
    sender: 0,
    receiver: 0,
};

impl Posting {
    /// The new amount of an account in a resource, where the posting names them.
    fn amount(&self, account: u32, resource: u32) -> Option<u64>
        ensures { result ≡ posted self.now account resource }
    {
        if resource != self.resource {
            None
        } else if account == self.from {
            Some(self.sender)
        } else if account == self.to {
            Some(self.receiver)
        } else {
            None
        }
    }
}

/// What the newest posting says that names an account and a resource.
#[tactic(auto, using(crate::proofs::Latest::latest_push))]
pub(crate) fn newest(postings: &[Posting], account: u32, resource: u32) -> Option<u64>
    ensures { result ≡ latest postings.now account resource }
{
    // As `iter().rev().find_map(..)`, what stays open is that the answer is that of the newest posting that has one.
    let mut rest = postings;
    while let Some((last, before)) = rest.split_last() {
        if let Some(amount) = last.amount(account, resource) {
            return Some(amount);
        }
        rest = before;
    }
    None
}
