/// Counts one more.
pub fn count(number: &mut u32) {
    *number = number.saturating_add(1);
}
