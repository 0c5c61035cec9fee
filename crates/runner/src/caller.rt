//! Who lets a thread go on in its place on the machine. The kit drops `inline(always)` from what is as large as that, and then
//! LLVM inlines it where it is called from one place alone: so each of these has a copy of its own.

/// The rounds of a run in order.
pub struct InRounds;

/// A thread that is the only one.
pub struct Alone;

/// A schedule that is drawn.
pub struct Drawn;
