// What a check answers.
use link_base::FileRole;

/// Why prices do not certify links: the first reason in this order.
#[derive(Clone, Copy)]
pub enum Reason {
    /// The link at this index is no candidate.
    NotCandidate { index: u32 },
    /// An earlier link has a record of the link at this index.
    Reused { index: u32 },
    /// The price of the record at this position of A or B is below 0.
    Negative { side: FileRole, at: u32 },
    /// The two prices of the candidate at this index add up to less than its value.
    Uncovered { index: u32 },
    /// What the links are worth is not what the prices add up to.
    Sum { links: i64, prices: i64 },
}

/// Whether prices certify links as a greatest one-to-one list.
#[derive(Clone, Copy)]
pub enum Verified {
    Yes,
    No(Reason),
}
