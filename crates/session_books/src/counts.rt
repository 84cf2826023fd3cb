// What became of the transactions.

/// How many transactions were acknowledged, are unsettled, and were aborted.
#[derive(Clone, Copy)]
pub struct Counts {
    pub acknowledged: u64,
    pub unsettled: u64,
    pub aborted: u64,
}
