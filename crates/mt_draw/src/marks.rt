//! What each picture is made of.

use crate::canvas::Canvas;
use std::alloc::AllocError;

/// The width of each picture.
pub const PICTURE_WIDTH: u32 = 980;

/// What the marks look like. Reads, writes and wrong reads differ in height and in brightness too, so a print in grey shows
/// them; the colours can be told apart by the colour-blind.
const STYLE: &str = "<style>\
text{font:12px sans-serif;fill:#222}.small{font-size:11px}.title{font-size:13px;font-weight:bold}.label{text-anchor:end}\
.element{fill:#f1f1f1}.next{fill:#e0e0e0}.hold{fill:#555}.read{fill:#0072b2}.write{fill:#e69f00}\
.differs{fill:#d00000;stroke:#000}.urgent{fill:#cc79a7;stroke:#222}.ordinary{fill:#009e73;stroke:#222}\
.kept{fill:#56b4e9}.filled{fill:#f0e442}.flash{fill:#b9b9b9}.copy{fill:#e8e8e8}.slice{fill:none;stroke:#444;stroke-width:.6}\
.words{fill:#fafafa;stroke:#888}.fault{fill:#d00000}.axis{stroke:#222;fill:none}\
</style>\n";

/// Begins a picture of a height, with what it is called.
pub fn begin_picture(canvas: &mut Canvas, height: u32, title: &[u8]) -> Result<(), AllocError> {
    canvas.pair(
        "<svg xmlns=\"http://www.w3.org/2000/svg\" role=\"img\" viewBox=\"0 0 ",
        PICTURE_WIDTH,
    )?;
    canvas.pair(" ", height)?;
    canvas.markup("\"><title>")?;
    canvas.words(title)?;
    canvas.markup("</title>\n")?;
    canvas.markup(STYLE)
}

/// A rectangle that is marked with a class and says what it is.
pub fn draw_mark(
    canvas: &mut Canvas,
    class: &str,
    across: (u32, u32),
    down: (u32, u32),
    title: &[u8],
) -> Result<(), AllocError> {
    canvas.markup("<rect class=\"")?;
    canvas.markup(class)?;
    canvas.pair("\" x=\"", across.0)?;
    canvas.pair("\" y=\"", down.0)?;
    canvas.pair("\" width=\"", across.1)?;
    canvas.pair("\" height=\"", down.1)?;
    canvas.markup("\"><title>")?;
    canvas.words(title)?;
    canvas.markup("</title></rect>\n")
}

/// Words that begin at a place, or end there.
pub fn draw_words(
    canvas: &mut Canvas,
    class: &str,
    across: u32,
    down: u32,
    words: &[u8],
) -> Result<(), AllocError> {
    canvas.markup("<text class=\"")?;
    canvas.markup(class)?;
    canvas.pair("\" x=\"", across)?;
    canvas.pair("\" y=\"", down)?;
    canvas.markup("\">")?;
    canvas.words(words)?;
    canvas.markup("</text>\n")
}
