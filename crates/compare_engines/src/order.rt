// What a line of a script asks for. It is no `Request` of runs: it holds no bytes yet, since letters are read off the line
// itself, and it knows workspace places and schedules.
#[derive(Clone, Copy)]
pub enum Order {
    // A sheet, with at most so many PIPE lines behind its first.
    Sheet(usize),
    Open(usize),
    Close(usize),
    // A pipe, and its new limit.
    Limit(usize, u32),
    Pattern,
    Report,
    Governing(usize),
    WriteSheet,
    ReadFlow,
    // The calls that follow are given so many workspace places.
    Places(usize),
    // The first line of a schedule, which asks for nothing.
    Schedule,
    // A pattern, and then a report.
    Step,
}
