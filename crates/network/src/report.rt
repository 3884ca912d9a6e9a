// What is told of a network: the greatest value, and two sets of junctions, bit k for junction k. The rules have them as
// 64-bit words.
// near: the junctions in every minimum cut; far: those in at least one.
#[derive(Clone, Copy, PartialEq, Eq, Debug)]
pub struct Report {
    pub value: u32,
    pub near: u64,
    pub far: u64,
}
