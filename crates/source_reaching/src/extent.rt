//! How far a search has come.
ghost use Rattle.std.specs.Prelude.{◌≡◌, ◌≤◌, ◌<◌, true, false};

/// Whether all of so many kept states were looked at, where the first ones up to a number were.
pub fn are_all_looked_at(kept: usize, looked_at: usize) -> bool
    ensures all { result ≡ true → kept ≤ looked_at }
    ensures some { result ≡ false → looked_at < kept }
{
    kept <= looked_at
}
