// Whether a pipe lets water through.
#[derive(Clone, Copy, PartialEq, Eq, Debug)]
pub enum Valve {
    Open,
    Closed,
}
