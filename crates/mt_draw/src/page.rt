//! A page that stands alone: pictures, and the trace with a link to the picture of each line.

use crate::canvas::Canvas;
use std::alloc::AllocError;

/// A line of a trace: its number in the script, its text, and whether it has a picture.
#[derive(Clone, Copy, Debug)]
pub struct Line<'a> {
    pub number: u32,
    pub text: &'a [u8],
    pub has_picture: bool,
}

/// How the page looks, on a screen and in print.
const HEAD: &str = "<style>\
body{font:15px/1.5 sans-serif;max-width:1000px;margin:1.5em auto;padding:0 12px;color:#222}\
h1{font-size:1.4em}h2{font-size:1.15em;margin-top:2em}figure{margin:1em 0;page-break-inside:avoid}\
svg{width:100%;height:auto}figcaption{font-size:.9em;color:#444}\
pre{font:13px/1.45 monospace;white-space:pre-wrap}a{color:#0050a0}:target{outline:2px solid #e69f00}\
</style></head>\n<body>\n";

/// Begins a page.
pub fn begin_page(canvas: &mut Canvas, title: &[u8]) -> Result<(), AllocError> {
    canvas.markup("<!doctype html>\n<html lang=\"en\"><head><meta charset=\"utf-8\"><title>")?;
    canvas.words(title)?;
    canvas.markup("</title>\n")?;
    canvas.markup(HEAD)?;
    canvas.markup("<h1>")?;
    canvas.words(title)?;
    canvas.markup("</h1>\n")
}

/// Begins a part of the page with its heading.
pub fn begin_part(canvas: &mut Canvas, title: &str) -> Result<(), AllocError> {
    canvas.markup("<h2>")?;
    canvas.words(title.as_bytes())?;
    canvas.markup("</h2>\n")
}

/// Writes words as a paragraph.
pub fn write_paragraph(canvas: &mut Canvas, words: &[u8]) -> Result<(), AllocError> {
    canvas.markup("<p>")?;
    canvas.words(words)?;
    canvas.markup("</p>\n")
}

/// Begins the figure of a script line.
pub fn begin_figure(canvas: &mut Canvas, line: u32) -> Result<(), AllocError> {
    canvas.pair("<figure id=\"line-", line)?;
    canvas.markup("\">\n")
}

/// Ends a figure, with what is said below it.
pub fn end_figure(canvas: &mut Canvas, caption: &[u8]) -> Result<(), AllocError> {
    canvas.markup("<figcaption>")?;
    canvas.words(caption)?;
    canvas.markup("</figcaption></figure>\n")
}

// A line of the trace; the number of one that has a picture leads to it.
fn write_line(canvas: &mut Canvas, line: &Line<'_>) -> Result<(), AllocError> {
    if line.has_picture {
        canvas.pair("<a href=\"#line-", line.number)?;
        canvas.markup("\">")?;
        canvas.words(line.text)?;
        canvas.markup("</a>\n")
    } else {
        canvas.words(line.text)?;
        canvas.markup("\n")
    }
}

/// Writes a trace.
pub fn write_trace(canvas: &mut Canvas, lines: &[Line<'_>]) -> Result<(), AllocError> {
    canvas.markup("<pre>\n")?;
    for line in lines {
        write_line(canvas, line)?;
    }
    canvas.markup("</pre>\n")
}

/// Ends the page.
pub fn end_page(canvas: &mut Canvas) -> Result<(), AllocError> {
    canvas.markup("</body></html>\n")
}
