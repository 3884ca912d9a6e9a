use formats::reader::Line;

// Where an order stands: its line, and the text from that line on; and what a call to write is given.
#[derive(Clone, Copy)]
pub struct Source<'a> {
    pub line: Line<'a>,
    pub text: &'a [u8],
    pub space: &'a [u8],
    pub row: &'a [u32],
}
