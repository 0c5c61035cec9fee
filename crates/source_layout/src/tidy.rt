// What each text has that was laid out.

ghost use Rattle.std.specs.Prelude.{◌≡◌};
ghost use Rattle.source_layout.specs.Tidy.{is_tidy};

use crate::bare::is_white;

/// Whether no line ends in white space, no two lines in a row are empty, the first line isn't empty, and the last one
/// ends.
pub(crate) fn is_tidy(text: &[u8]) -> bool
    ensures { result ≡ is_tidy text.now }
{
    let mut feeds = 2u8;
    let mut blank = false;
    for byte in text {
        if *byte != b'\n' {
            feeds = 0;
            blank = is_white(*byte);
        } else if blank || feeds >= 2 {
            return false;
        } else {
            feeds += 1;
        }
    }
    feeds > 0
}
