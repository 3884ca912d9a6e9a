// What came of leading an amount: what is still to be led, and the number of augmentations.
#[derive(Clone, Copy)]
pub struct Led {
    pub rest: u32,
    pub count: u32,
}
