//! The legend of a picture.
use crate::template::{write_heights, write_numbers};
use std::io;
use std::io::Write;

/// What stands in it: on the left arrows, on the right marks at the receiver.
const TEXT: &str = "<path class=\"arrow\" d=\"M20,$ h50\" marker-end=\"url(#tip)\"/>
<text class=\"note\" x=\"84\" y=\"$\">envelope, from its sender to its receiver</text>
<path class=\"arrow system\" d=\"M20,$ h50\" marker-end=\"url(#system-tip)\"/>
<text class=\"note\" x=\"84\" y=\"$\">system message</text>
<path class=\"arrow\" d=\"M20,$ h40\"/>
<path class=\"cross\" d=\"M55,$ l10,10 m-10,0 l10,-10\"/>
<text class=\"note\" x=\"84\" y=\"$\">dead letter</text>
<circle class=\"dot\" cx=\"24\" cy=\"$\" r=\"4\"/>
<path class=\"arrow system\" d=\"M24,$ h46\" marker-end=\"url(#system-tip)\"/>
<text class=\"note\" x=\"84\" y=\"$\">no journal has who sent it</text>
<path class=\"cross\" d=\"M400,$ l10,10 m-10,0 l10,-10\"/>
<text class=\"note\" x=\"434\" y=\"$\">the receiver failed</text>
<rect class=\"bar\" x=\"380\" y=\"$\" width=\"44\" height=\"7\" rx=\"2\"/>
<text class=\"note\" x=\"434\" y=\"$\">it began again</text>
<path class=\"end\" d=\"M393,$ h24\"/>
<text class=\"note\" x=\"434\" y=\"$\">it ended</text>
<text class=\"note\" x=\"386\" y=\"$\">× 1,000</text>
<text class=\"note\" x=\"434\" y=\"$\">so many, alike but for numbers and values</text>
";

/// How far below its beginning each of them stands.
const HEIGHTS: [u64; 18] = [
    22, 26, 46, 50, 70, 65, 74, 94, 94, 98, 17, 26, 42, 50, 70, 74, 98, 98,
];

/// The legend, from this height on.
pub(crate) fn write_legend<W: Write>(w: &mut W, top: u64, width: u64) -> io::Result<()> {
    write_numbers(
        w,
        "<path class=\"line\" d=\"M12,$ H$\"/>\n",
        &[top, width.saturating_sub(12)],
    )?;
    write_heights(w, TEXT, top, &HEIGHTS)
}
