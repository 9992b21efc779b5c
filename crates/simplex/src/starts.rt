//! What there was at a mark.

/// Says how many bounds were held, and how many of the watched terms had a place.
#[derive(Clone, Copy, Debug, PartialEq, Eq)]
pub(crate) struct Start {
    /// The bounds.
    pub(crate) bounds: u64,
    /// The watched terms that had a place.
    pub(crate) slack_list: u64,
}
