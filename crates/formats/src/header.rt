// What the first line of a sheet says.
#[derive(Clone, Copy)]
pub struct Header {
    pub junctions: usize,
    pub pipes: usize,
    pub pump: usize,
    pub outlet: usize,
}
