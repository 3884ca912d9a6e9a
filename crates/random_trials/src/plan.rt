use network::valve::Valve;
use std::alloc::{AllocError, Global};

// How a sheet looks and which limits there may be is told here a second time, and not taken from the crates that are
// tried: an engine is held against a plan that has of their numbers only the most junctions and pipes.
pub const LINE_BYTES: usize = 25;

pub const GREATEST_LIMIT: u32 = 60_000;

const NUMBER_BYTES: usize = 5;

// Where the numbers of a line begin, and where the letter of a pipe stands.
const FIRST: usize = 4;

const SECOND: usize = 9;

const THIRD: usize = 14;

const FOURTH: usize = 19;

const LETTER: usize = 23;

// A pipe, as a sheet has it.
#[derive(Clone, Copy)]
pub struct Link {
    pub from: usize,
    pub to: usize,
    pub limit: u32,
    pub valve: Valve,
}

// What an engine should mean, kept beside it by rules of its own: the numbers of a sheet, and the sheet.
#[derive(Drop)]
pub struct Plan {
    pub junctions: usize,
    pub pump: usize,
    pub outlet: usize,
    pub links: Vec<Link>,
    pub sheet: Vec<u8>,
}

// A number in its columns, with blanks before it.
fn columns(number: usize) -> [u8; NUMBER_BYTES] {
    let mut columns = [b' '; NUMBER_BYTES];
    let mut rest = number;
    for column in columns.iter_mut().rev() {
        *column = b'0' + (rest % 10) as u8;
        rest /= 10;
        if rest == 0 {
            break;
        }
    }
    columns
}

// The bytes in their place, where the sheet has it: a slice from there on would ask each caller whether it does.
fn put(sheet: &mut [u8], at: usize, bytes: &[u8]) {
    if at <= sheet.len() && bytes.len() <= sheet.len() - at {
        sheet[at..at + bytes.len()].copy_from_slice(bytes);
    }
}

// The numbers and the letter of a pipe, in its line.
fn put_link(sheet: &mut [u8], pipe: usize, link: &Link) {
    let at = pipe.saturating_add(1).saturating_mul(LINE_BYTES);
    put(sheet, at.saturating_add(FIRST), &columns(link.from));
    put(sheet, at.saturating_add(SECOND), &columns(link.to));
    put(
        sheet,
        at.saturating_add(THIRD),
        &columns(link.limit as usize),
    );
    let letter = match link.valve {
        Valve::Open => b'O',
        Valve::Closed => b'C',
    };
    put(sheet, at.saturating_add(LETTER), &[letter]);
}

impl Plan {
    // A plan without pipes.
    pub fn new(
        heap: Global,
        junctions: usize,
        pump: usize,
        outlet: usize,
    ) -> Result<Plan, AllocError> {
        let mut sheet = b"NETW                    \n".to_vec(heap)?;
        put(&mut sheet, FIRST, &columns(junctions));
        put(&mut sheet, SECOND, &columns(0));
        put(&mut sheet, THIRD, &columns(pump));
        put(&mut sheet, FOURTH, &columns(outlet));
        Ok(Plan {
            junctions,
            pump,
            outlet,
            links: Vec::new(heap),
            sheet,
        })
    }

    pub fn add(&mut self, link: Link) -> Result<(), AllocError> {
        self.sheet.extend_from_slice(b"PIPE                    \n")?;
        put_link(&mut self.sheet, self.links.len(), &link);
        self.links.push(link)?;
        put(&mut self.sheet, SECOND, &columns(self.links.len()));
        Ok(())
    }

    // A pipe becomes another: it gets another limit or another valve.
    fn change(&mut self, pipe: usize, link: Link) {
        if pipe < self.links.len() {
            self.links[pipe] = link;
            put_link(&mut self.sheet, pipe, &link);
        }
    }

    // Limit and valve are two fields: the two functions share what is done with the changed link.
    pub fn set_limit(&mut self, pipe: usize, limit: u32) {
        if let Some(link) = self.links.get(pipe).copied() {
            self.change(pipe, Link { limit, ..link });
        }
    }

    pub fn set_valve(&mut self, pipe: usize, valve: Valve) {
        if let Some(link) = self.links.get(pipe).copied() {
            self.change(pipe, Link { valve, ..link });
        }
    }

    pub fn set_valves(&mut self, letters: &[u8]) {
        for (pipe, letter) in letters.iter().enumerate() {
            match letter {
                b'O' => self.set_valve(pipe, Valve::Open),
                b'C' => self.set_valve(pipe, Valve::Closed),
                _ => {}
            }
        }
    }
}
