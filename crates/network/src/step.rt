// Which way a step takes its pipe.
#[derive(Clone, Copy, PartialEq, Eq, Debug)]
pub enum Direction {
    Along,
    Against,
}

// A step of the residual graph: a pipe by its number, along it or against it.
#[derive(Clone, Copy, PartialEq, Eq, Debug)]
pub struct Step {
    pub pipe: usize,
    pub direction: Direction,
}
