ghost use Rattle.std.specs.Prelude.{◌≡◌, IsErrAnd};

use scanner::Refusal;

/// Lets go of what was read already, and refuses.
///
/// The drop stands here alone: a `?` in its place proves, wherever it stands, the drop of each kind of tree.
pub fn refused<T: Drop, U>(_read: T, refusal: Refusal) -> Result<U, Refusal>
    ensures { IsErrAnd result (λ e. e ≡ refusal) }
{
    Err(refusal)
}
