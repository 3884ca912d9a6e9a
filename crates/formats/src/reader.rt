ghost use Rattle.std.specs.Prelude.{◌≤◌, length};

// A line of a text, without its line feed, and its number, counted from 1.
#[derive(Clone, Copy)]
pub struct Line<'a> {
    pub bytes: &'a [u8],
    pub number: usize,
}

// Goes through a text line by line; `at` bytes and `lines` lines have been read.
// A slice of what is left in place of `text` and `at` would leave `lines + 1` without a bound.
#[derive(Drop)]
pub struct Reader<'a> {
    pub text: &'a [u8],
    pub at: usize,
    pub lines: usize,
    ghost within: { at ≤ length text.now },
    ghost counted: { lines ≤ at },
}
