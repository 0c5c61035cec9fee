// How many actions are drawn where nobody asks for more.
const MOST_DRAWN: u64 = 2_000;

/// Which actions are drawn, from 1. Where the first comes behind the last none are.
#[derive(Clone, Copy)]
pub(crate) struct Span {
    /// The first one.
    pub first: u64,
    /// The last one.
    pub last: u64,
}

impl Span {
    /// What is drawn of so many actions: from one to another where both are named, else as many as are drawn from the
    /// one or up to the other, or the last ones.
    pub fn of(from: Option<u64>, to: Option<u64>, count: u64) -> Span {
        match (from, to) {
            (Some(first), Some(last)) => Span {
                first: first.max(1),
                last: last.min(count),
            },
            (Some(first), None) => Span {
                first: first.max(1),
                last: first.saturating_add(MOST_DRAWN - 1).min(count),
            },
            (None, last) => {
                let last = last.unwrap_or(count).min(count);
                Span {
                    first: last.saturating_sub(MOST_DRAWN - 1).max(1),
                    last,
                }
            }
        }
    }

    /// Whether an action is drawn.
    pub fn has(&self, number: u64) -> bool {
        self.first <= number && number <= self.last
    }
}
