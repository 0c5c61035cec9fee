use source_states::Action;
use std::alloc::AllocError;

/// Where actions are noted that were followed.
pub trait Trail {
    /// Notes an action behind the others.
    fn note(&mut self, action: Action) -> Result<(), AllocError>;
}

impl Trail for Vec<Action> {
    fn note(&mut self, action: Action) -> Result<(), AllocError> {
        self.push(action)?;
        Ok(())
    }
}

/// A trail that nobody reads: none is noted.
#[derive(Clone, Copy, Debug)]
pub struct Unread;

impl Trail for Unread {
    fn note(&mut self, _action: Action) -> Result<(), AllocError> {
        Ok(())
    }
}
