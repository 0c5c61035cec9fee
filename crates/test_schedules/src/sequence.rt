// The sequence's next number is the last one times MULTIPLIER, plus INCREMENT, modulo 2^32 (Numerical Recipes, its
// quick generator).
const MULTIPLIER: u32 = 1_664_525;

const INCREMENT: u32 = 1_013_904_223;

/// How many sorts of schedules there are, by how long a thread goes on.
pub const SORTS: u32 = 8;

/// The numbers that follow from a seed.
#[derive(Drop)]
pub struct Sequence {
    last: u32,
}

impl Sequence {
    /// The sequence of a seed, before its first number.
    pub fn new(seed: u32) -> Sequence {
        Sequence { last: seed }
    }

    /// The upper half of the next number: the lower bits recur soon.
    pub fn draw(&mut self) -> u32 {
        self.last = self.last.wrapping_mul(MULTIPLIER).wrapping_add(INCREMENT);
        self.last >> 16
    }
}
