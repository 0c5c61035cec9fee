ghost use Rattle.std.specs.Prelude.{◌≡◌, nat_le, length, sum, ◌&&◌};
ghost use Rattle.isa.specs.Limits.{most_monitors, most_member_words};

use isa::{MOST_MEMBER_WORDS, MOST_MONITORS};

// The monitors, by the words of their members, are within the limits of an image.
pub(crate) fn are_few(monitors: &[u32]) -> bool
    ensures { result ≡ (nat_le (length monitors.now) most_monitors && nat_le (sum monitors.now)
        most_member_words) }
{
    let mut left = MOST_MEMBER_WORDS;
    for words in monitors {
        if *words > left {
            return false;
        }
        left -= *words;
    }
    monitors.len() <= MOST_MONITORS
}
