use formats::refusal::Refusal;
use network::report::Report;

// What an engine answers.
#[derive(Drop)]
pub enum Answer {
    // The number of bytes taken.
    Loaded(usize),
    Changed { change: i64, augmentations: u32 },
    Reported(Report),
    Governs(bool),
    // The space of the call, over the front of which the sheet was written.
    Sheet { length: usize, space: Vec<u8> },
    // The row of the call, over the front of which the flow was written.
    Flow { pipes: usize, row: Vec<u32> },
    Refused(Refusal),
    // A writing or a reading is refused with its space or row, which hold what they held.
    SheetRefused { refusal: Refusal, space: Vec<u8> },
    FlowRefused { refusal: Refusal, row: Vec<u32> },
}
