ghost use Rattle.std.specs.Prelude.{◌≡◌, ◌+◌, true, false, length, Some, None, ◌==◌, position};
ghost use Rattle.formats.specs.Lines.{ended, first_line};
ghost use Rattle.formats.specs.Readers.{rest, Advanced};

use crate::reader::{Line, Reader};

pub const LINE_FEED: u8 = b'\n';

// How long the line is that a text begins with; None where no line feed is there.
fn line_length(text: &[u8]) -> Option<usize>
    ensures { result ≡ position (λ b. b == 10) text.now }
{
    text.iter().position(|b| *b == LINE_FEED)
}

impl<'a> Reader<'a> {
    pub fn new(text: &'a [u8]) -> Reader<'a>
        ensures { (result.text.now ≡ text.now) × (result.at ≡ 0) × (result.lines ≡ 0) }
    {
        Reader {
            text,
            at: 0,
            lines: 0,
        }
    }

    // The next line, as a part of the text; None where no line feed is left.
    pub fn next_line(&mut self) -> Option<Line<'a>>
        ensures { elim result [
          | None ↦ (ended (rest self.old) ≡ false) × (self.new ≡ self.old)
          | Some l ↦ (ended (rest self.old) ≡ true)
              × (l.bytes.now ≡ first_line (rest self.old))
              × (l.number ≡ self.old.lines + 1)
              × Advanced self.old self.new
        ] }
    {
        let end = self.at + line_length(&self.text[self.at..])?;
        let bytes = &self.text[self.at..end];
        let number = self.lines + 1;
        self.lines = number;
        self.at = end + 1;
        Some(Line { bytes, number })
    }

    // Whether every byte has been read.
    pub fn at_end(&self) -> bool
        ensures { result ≡ (length (rest self.now) == 0) }
    {
        self.at == self.text.len()
    }
}
