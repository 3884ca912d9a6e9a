use crate::plan::{GREATEST_LIMIT, LINE_BYTES, Plan};
use crate::random::Random;
use crate::request::{Damage, Request};
use formats::refusal::Refusal;
use network::table::MOST_JUNCTIONS;
use std::alloc::{AllocError, Global};

// Draws are matched as numbers: how many of them an arm takes is its chance.
impl Random {
    // Mostly the number of a pipe; at times of none.
    fn draw_pipe(&mut self, pipes: usize) -> usize {
        match self.below(24) {
            0 => pipes.saturating_add(self.below(3)),
            1 => usize::MAX,
            _ => self.below(pipes),
        }
    }

    fn draw_new_limit(&mut self, widest: usize) -> u32 {
        match self.below(16) {
            0 => 0,
            1 => GREATEST_LIMIT + 1,
            2 => u32::MAX,
            3 => GREATEST_LIMIT,
            _ => self.draw_limit(widest),
        }
    }

    // Enough, or too little.
    fn draw_length(&mut self, needed: usize) -> usize {
        match self.below(4) {
            0 => needed.saturating_sub(1),
            1 => self.below(needed),
            2 => needed,
            _ => needed.saturating_add(self.below(8)),
        }
    }

    // The places that a call is given: mostly enough.
    pub fn draw_places(&mut self) -> usize {
        match self.below(24) {
            0 => MOST_JUNCTIONS - 1,
            1 => self.below(MOST_JUNCTIONS),
            _ => MOST_JUNCTIONS + self.below(4),
        }
    }

    // A wrong byte at one place of the sheet.
    fn draw_damage(&mut self, pipes: usize) -> Damage {
        let line = self.below(pipes.saturating_add(1));
        let number = line.saturating_add(1);
        let (column, byte, refusal) = match self.below(6) {
            0 => (24, b' ', Refusal::BadLine(number)),
            1 => (0, b'X', Refusal::WrongKind(number)),
            2 => (8, b'-', Refusal::BadNumber(number)),
            3 => (13, b' ', Refusal::BadNumber(number)),
            4 => (7, b'9', Refusal::OutOfRange(number)),
            _ if line == 0 => (23, b'x', Refusal::BadNumber(1)),
            _ => (23, b'x', Refusal::WrongLetter(number)),
        };
        Damage {
            at: line.saturating_mul(LINE_BYTES).saturating_add(column),
            byte,
            refusal,
        }
    }

    // A letter for each pipe; at times one too many, one too few or a wrong one.
    fn draw_letters(&mut self, heap: Global, pipes: usize) -> Result<Vec<u8>, AllocError> {
        let count = match self.below(16) {
            0 => pipes.saturating_add(1),
            1 => pipes.saturating_sub(1),
            _ => pipes,
        };
        let wrong = self.below(count.saturating_mul(8));
        let mut letters = Vec::new(heap);
        // No slice is gone through: so many letters are drawn, one of them wrong.
        for k in 0..count {
            let letter = match self.below(8) {
                _ if k == wrong => b'o',
                0 | 1 => b'O',
                2 | 3 => b'C',
                _ => b'=',
            };
            letters.push(letter)?;
        }
        Ok(letters)
    }

    pub fn draw_request(
        &mut self,
        heap: Global,
        plan: &Plan,
        widest: usize,
    ) -> Result<Request, AllocError> {
        let pipes = plan.links.len();
        let letters = self.draw_letters(heap, pipes)?;
        let pipe = self.draw_pipe(pipes);
        Ok(match self.below(20) {
            0..=3 => Request::Open(pipe),
            4..=7 => Request::Close(pipe),
            8..=11 => Request::Limit(pipe, self.draw_new_limit(widest)),
            12..=14 => Request::Pattern(letters),
            15 => Request::Report,
            16 => Request::Governing(pipe),
            17 => Request::WriteSheet(self.draw_length(plan.sheet.len())),
            18 => Request::ReadFlow(self.draw_length(pipes)),
            _ => Request::Load(self.draw_damage(pipes)),
        })
    }
}
