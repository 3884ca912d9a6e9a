use crate::valve::Valve;

// A plain row of a table: a pipe with its limit and its flow in litres a minute.
// The table that holds it keeps the rules; on its own a row promises nothing, so it is another type than a pipe record,
// whose users name its limit and not that of its row.
#[derive(Clone, Copy)]
pub struct Row {
    pub from: usize,
    pub to: usize,
    pub limit: u32,
    pub flow: u32,
    pub valve: Valve,
}

impl Row {
    // What fills the rows of a table that are no pipes.
    pub const UNUSED: Row = Row {
        from: 0,
        to: 0,
        limit: 0,
        flow: 0,
        valve: Valve::Closed,
    };
}
