ghost use Rattle.std.specs.Prelude.{◌<◌, ◌≤◌};

// Numbers that look random, the same ones from the same seed: xorshift, and a product of its state.
#[derive(Clone, Copy)]
pub struct Random {
    pub state: u64,
}

impl Random {
    pub fn draw(&mut self) -> u64 {
        let first = self.state ^ (self.state >> 12);
        let second = first ^ (first << 25);
        let third = second ^ (second >> 27);
        self.state = third;
        third.wrapping_mul(0x2545_F491_4F6C_DD1D)
    }

    // A number below n, or 0 where there is none: a draw always gives a number, so that those after it stay the same.
    pub fn below(&mut self, n: usize) -> usize
        ensures below { 0 < n → result < n }
        ensures bound { result ≤ n }
    {
        if n == 0 {
            return 0;
        }
        ((self.draw() >> 8) % n as u64) as usize
    }
}
