// What an engine is asked. A request owns the memory that is to be written to, and the answer takes it over, so that
// no memory is wanted for answering.
#[derive(Drop)]
pub enum Request<'a> {
    Load(&'a [u8]),
    Open(usize),
    Close(usize),
    Limit { pipe: usize, limit: u32 },
    Pattern(&'a [u8]),
    Report,
    Governing(usize),
    WriteSheet(Vec<u8>),
    ReadFlow(Vec<u32>),
}

// A request, with the number of workspace places that it is given.
#[derive(Drop)]
pub struct Call<'a> {
    pub request: Request<'a>,
    pub places: usize,
}
