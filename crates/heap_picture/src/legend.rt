//! The meaning of a picture's colours and lines.

use crate::cell::{CELL_WIDTH, Cell};
use crate::part::Part::{Number, Tag, Text};
use crate::part::write_parts;
use std::fmt;

/// The colours of the tags 0 to 15.
#[rattlefmt::skip]
const COLOURS: [&str; 16] = [
    "#f6f6f2", "#a9cbf0", "#ffc27a", "#a5dd98", "#f9a19a", "#c9b3e2", "#cfab9b", "#f8bcdc",
    "#d8d684", "#93dee6", "#ffe86e", "#74c7b0", "#8fa6dc", "#ecc6a8", "#c3e85f", "#d99ad8",
];

/// The styles that rows name: how the elements of a class look, and a cell for each tag, `t0` to
/// `t15`, and for memory that is not mapped, `u`.
#[derive(Clone, Copy)]
pub struct Definitions;

impl fmt::Display for Definitions {
    fn fmt<W: fmt::Write>(&self, f: &mut fmt::Formatter<W>) -> fmt::Result {
        f.write_str(STYLE)?;
        f.write_str("<defs>\n")?;
        for (tag, colour) in COLOURS.iter().enumerate() {
            let (start, end) = (Text("<g id=\"t"), Text("</text></g>\n"));
            write_parts(f, &[start, Number(tag as u64), Text(CELL), Text(colour)])?;
            write_parts(f, &[Text(CELL_TEXT), Tag(tag as u8), end])?;
        }
        f.write_str(PATTERNS)?;
        f.write_str("</defs>\n")
    }
}

/// The rest of a tag's cell up to its colour.
const CELL: &str = "\"><rect width=\"16\" height=\"18\" fill=\"";

/// The text between the colour of a tag's cell and its number.
const CELL_TEXT: &str = "\"/><text class=\"tag\" x=\"8\" y=\"13\">";

/// How the elements of a class look.
const STYLE: &str = "<style>\n\
    .tag{font-size:10px;fill:#333;text-anchor:middle}\n\
    #t0 .tag{fill:#999}\n\
    .title{font-size:18px;font-weight:bold}\n\
    .at{text-anchor:end}\n\
    .of{text-anchor:end;fill:#777;font-size:11px}\n\
    .ruler{fill:#777;font-size:10px}\n\
    .block{stroke:#444;stroke-width:1}\n\
    .live{fill:none;stroke:#111;stroke-width:2}\n\
    .freed{fill:url(#hatch);stroke:#666;stroke-width:1;stroke-dasharray:3 2}\n\
    .band{fill:#ffe3e3}\n\
    .mark{fill:none;stroke:#e00000;stroke-width:3}\n\
    .says{fill:#d00000;font-weight:bold}\n\
    .note{fill:none;pointer-events:all}\n\
    .cause{fill:none;stroke:#e00000;stroke-width:1.5;pointer-events:all}\n\
    .arrow{fill:none;stroke:#e00000;stroke-width:2;marker-end:url(#head)}\n\
    .label{font-size:10px;fill:#333}\n\
    .size{font-size:9px;fill:#777;text-anchor:end}\n\
    .story{font-size:14px}\n\
    </style>\n";

/// The cell of memory that is not mapped, the hatches of freed chunks, and where a row ends.
const PATTERNS: &str = "<g id=\"u\"><rect width=\"16\" height=\"18\" fill=\"#bbb\"/></g>\n\
    <pattern id=\"hatch\" width=\"6\" height=\"6\" patternUnits=\"userSpaceOnUse\" \
    patternTransform=\"rotate(45)\"><path d=\"M1,0v6\" stroke=\"#333\" stroke-opacity=\"0.2\" \
    stroke-width=\"1.5\"/></pattern>\n\
    <marker id=\"head\" markerUnits=\"userSpaceOnUse\" markerWidth=\"8\" \
    markerHeight=\"8\" refX=\"7\" refY=\"4\" orient=\"auto\">\
    <path d=\"M0,0L8,4L0,8z\" fill=\"#e00000\"/></marker>\n\
    <clipPath id=\"row\"><rect x=\"7\" y=\"-4\" width=\"1026\" height=\"26\"/></clipPath>\n";

/// The meaning of the colours and lines, on three lines of 18 pixels, 10 apart.
#[derive(Clone, Copy)]
pub struct Legend;

impl fmt::Display for Legend {
    fn fmt<W: fmt::Write>(&self, f: &mut fmt::Formatter<W>) -> fmt::Result {
        f.write_str("<text class=\"at\" x=\"-10\" y=\"13\">tag (hexadecimal)</text>")?;
        for tag in 0..16u8 {
            let cell = Cell {
                x: (CELL_WIDTH + 8) * u64::from(tag),
                tag: Some(tag),
            };
            write!(f, "{cell}")?;
        }
        f.write_str(SAMPLES)
    }
}

/// A sample of each line, and of what has no tag.
const SAMPLES: &str = "\n<g transform=\"translate(0 28)\">\
    <rect class=\"live\" y=\"1\" width=\"32\" height=\"16\"/>\
    <text x=\"40\" y=\"13\">live</text>\
    <g transform=\"translate(92)\"><rect class=\"freed\" y=\"1\" width=\"32\" height=\"16\"/>\
    <text x=\"40\" y=\"13\">freed</text></g>\
    <g transform=\"translate(192)\"><use href=\"#t0\"/><use href=\"#t0\" x=\"16\"/>\
    <text x=\"40\" y=\"13\">no chunk</text></g>\
    <g transform=\"translate(310)\"><use href=\"#u\"/><use href=\"#u\" x=\"16\"/>\
    <text x=\"40\" y=\"13\">not mapped</text></g>\
    <g transform=\"translate(440)\"><path class=\"block\" d=\"M0,-2v22\"/>\
    <text x=\"8\" y=\"13\">a block begins</text></g>\
    <text x=\"570\" y=\"13\">#3 40 B: the chunk of heap call 3, of 40 bytes</text></g>\
    \n<g transform=\"translate(0 56)\">\
    <rect class=\"mark\" y=\"-1\" width=\"16\" height=\"20\"/>\
    <text x=\"28\" y=\"13\">what was refused; above it the tag of its pointer</text>\
    <g transform=\"translate(400)\"><rect class=\"cause\" width=\"32\" height=\"18\"/>\
    <text x=\"40\" y=\"13\">the chunk that the cause names</text></g>\
    <g transform=\"translate(690)\"><path class=\"arrow\" d=\"M0,14Q16,0 30,12\"/>\
    <text x=\"40\" y=\"13\">from that chunk to the access</text></g></g>\n";
