/// Why not all that may come next of a state was found. A search that meets one isn't complete.
#[derive(Clone, Copy)]
pub enum Bound {
    /// There are more local states or memories than numbers.
    Parts,
    /// More than twelve threads sleep on an address, of which some are woken or moved: there are too many sets of them.
    Sleepers,
}
