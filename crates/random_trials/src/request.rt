use formats::refusal::Refusal;

// Another byte at one place of a sheet, and the reason for which the sheet must be refused then.
#[derive(Clone, Copy)]
pub struct Damage {
    pub at: usize,
    pub byte: u8,
    pub refusal: Refusal,
}

// What an engine is asked. An enum and no closure: a draw would have to hand out a boxed one, and the rules read the
// request too.
// It is no `Request` of runs, which holds bytes: here a sheet is damaged, and a space has a length.
#[derive(Drop)]
pub enum Request {
    // The sheet of the network, damaged.
    Load(Damage),
    Open(usize),
    Close(usize),
    Limit(usize, u32),
    // The letters.
    Pattern(Vec<u8>),
    Report,
    Governing(usize),
    // The length of the space, and of the row.
    WriteSheet(usize),
    ReadFlow(usize),
}
