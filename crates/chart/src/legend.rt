use crate::labels::Labels;
use crate::palette::colour;
use crate::shapes::{append_text, letters_of, wide};
use text_writer::TextWriter;

// What the lines and marks are.
const SAMPLES: &str =
    "<g><rect class='m0' x='0' y='-8' width='34' height='16'/><text x='40' y='4'>holds a monitor</text></g>
<g transform='translate(200)'><rect class='m0' x='0' y='-8' width='34' height='16'/>
<rect class='m1' x='8' y='-5' width='18' height='10'/><text x='40' y='4'>holds two</text></g>
<g transform='translate(400)'><path class='enters m0' d='M0,0H34'/><text x='40' y='4'>waits for a monitor</text></g>
<g transform='translate(600)'><rect class='waits m0' x='0' y='-8' width='34' height='16'/>
<text x='40' y='4'>waits on a condition</text></g>
<g transform='translate(800)'><path class='resumed m0' d='M0,0H34'/>
<text x='40' y='4'>resumed, not in yet</text></g>
<g transform='translate(0,24)'><path class='joins m9' d='M0,0H34'/><text x='40' y='4'>waits for a process</text></g>
<g transform='translate(200,24)'><path class='enters m9 never' d='M0,0H34'/><text x='40' y='4'>waits to the end</text></g>
<g transform='translate(400,24)'><path class='fork' d='M4,-8V8'/><text x='14' y='4'>forks</text>
<path class='notify' d='M64,-8V8'/><text x='74' y='4'>resumes</text>
<path class='join' d='M134,-8V8'/><text x='144' y='4'>is joined</text></g>
<g transform='translate(614,24)'><circle class='action' cx='4' cy='0' r='2'/><text x='12' y='4'>an action</text>
<circle class='notifies' cx='84' cy='0' r='3'/><text x='92' y='4'>notifies</text>
<path class='end' d='M156,-4h8v8h-8z'/><text x='170' y='4'>ends</text>
<path class='cross' d='M211,-5l10,10m0,-10l-10,10'/><text x='227' y='4'>aborts</text>
<text class='print' x='282' y='4'>7</text><text x='294' y='4'>prints</text></g>
</g>
</g>
";

// What comes before the monitors.
const HEAD: &str = "<path class='base' d='M12,$H$'/>
<g class='legend'>
<text x='12' y='$'>monitors</text>
";

// How wide a letter is, in tenths.
const LETTER: u64 = 61;

/// How wide the samples are.
pub(crate) const SAMPLES_WIDE: u64 = 970;

// Draws the colours of the monitors from a height on, in as many lines as they take; the height of the last line.
fn append_monitors(out: &mut TextWriter, labels: Labels, wide_as: u64, top: u64) -> u64 {
    let mut left: u64 = 84;
    let mut middle = top;
    for (number, naming) in labels.names.monitors.iter().enumerate() {
        let long = wide(letters_of(naming.name), LETTER).saturating_add(44);
        if left > 84 && left.saturating_add(long) > wide_as {
            left = 84;
            middle = middle.saturating_add(20);
        }
        let monitor = u32::try_from(number).unwrap_or(0);
        append_monitor(out, colour(monitor), left, middle, naming.name);
        left = left.saturating_add(long);
    }
    middle
}

// Draws the colour of a monitor, and its name.
fn append_monitor(out: &mut TextWriter, colour: u64, left: u64, middle: u64, name: &[u8]) {
    out.form(
        "<rect class='m$' x='$' y='$' width='24' height='12'/>",
        &[colour, left, middle.saturating_sub(6)],
    );
    let place = [left.saturating_add(30), middle.saturating_add(4)];
    append_text(out, "<text x='$' y='$'>", &place, name)
}

/// Draws the legend below a height, in a picture of that width; the height of the picture with it.
pub(crate) fn append_legend(
    out: &mut TextWriter,
    labels: Labels,
    wide_as: u64,
    bottom: u64,
) -> u64 {
    let top = bottom.saturating_add(34);
    let line = bottom.saturating_add(14);
    let numbers = [line, wide_as.saturating_sub(12), top.saturating_add(4)];
    out.form(HEAD, &numbers);
    let last = append_monitors(out, labels, wide_as, top);
    out.form(
        "<g transform='translate(12,$)'>\n",
        &[last.saturating_add(28)],
    );
    out.text(SAMPLES);
    last.saturating_add(70)
}
