/// The numbers behind an opcode.
#[derive(Clone, Copy, Debug)]
pub enum Operands {
    /// There are none.
    Without,
    /// One number.
    One(u32),
    /// Two numbers, in their order.
    Two(u32, u32),
}
