/// What a worker passes before each piece of its work, so that a caller can watch the workers or hold them up.
pub trait Gate: Sync {
    /// Called by the worker `who` each time. It may block.
    fn pass(&self, who: u32);
}

/// A gate that holds nobody up.
#[derive(Clone, Copy, Debug)]
pub struct OpenGate;

impl Gate for OpenGate {
    fn pass(&self, _who: u32) {}
}
