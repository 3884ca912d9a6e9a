ghost use Rattle.std.specs.Prelude.{◌≡◌, ℕ, ◌+◌, ◌≤◌, List, [], map, length, Ok, Err, Result};
ghost use Rattle.std.specs.List.{AllByRecursion};
ghost use Rattle.formats.specs.declared.refusal.Refusal.{Refusal};
ghost use Rattle.formats.specs.Readers.{rest, Advanced, LinesRead};
ghost use Rattle.formats.specs.Sheets.{next_in, lines_in};

use crate::reader::{Line, Reader};
use crate::refusal::Refusal;

// A kind of line. A value holds what the lines before have settled, such as the number of junctions that a pipe line may
// name.
pub(crate) trait Kind<'a> {
    type Told: Copy;

    // what a line tells, as a sheet or a schedule means it
    ghost Meaning: { Type 0 };

    ghost meaning: { Self.Told → Meaning };

    ghost word: { List ℕ };

    ghost columns: { Self → ℕ };

    ghost says: { Self → ℕ → List ℕ → Result Meaning Refusal };

    // what holds of all that such a line tells
    ghost Sound: { Self → Self.Told → Type 0 };

    // The kind word.
    fn word(&self) -> &'static [u8; 4]
        ensures { result.now ≡ word };

    // How long such a line is.
    fn columns(&self) -> usize
        ensures is { result ≡ columns self.now }
        ensures worded { 4 ≤ result };

    // What a line of this length tells.
    fn read(&self, line: &Line<'a>) -> Result<Self::Told, Refusal>
        requires { length line.now.bytes.now ≡ columns self.now }
        ensures { elim result [
          | Ok x ↦ (says self.now line.now.number line.now.bytes.now ≡ Ok (meaning x)) × Sound self.now x
          | Err e ↦ says self.now line.now.number line.now.bytes.now ≡ Err e
        ] };
}

impl<'a> Reader<'a> {
    // What the next line tells, if it is of this kind.
    pub(crate) fn read_line<K: Kind<'a>>(&mut self, kind: &K) -> Result<K::Told, Refusal>
        ensures { elim result [
          | Ok x ↦ (next_in K.word (K.columns kind.now) (K.says kind.now) (self.old.lines + 1) (rest self.old) ≡ Ok (K.meaning x))
              × K.Sound kind.now x
              × Advanced self.old self.new
          | Err e ↦ next_in K.word (K.columns kind.now) (K.says kind.now) (self.old.lines + 1) (rest self.old) ≡ Err e
        ] }
    {
        let line = self.due(kind.word(), kind.columns())?;
        kind.read(&line)
    }

    // What the next lines tell, each of this kind, into all places.
    pub(crate) fn fill<K: Kind<'a>>(
        &mut self,
        kind: &K,
        places: &mut [K::Told],
    ) -> Result<(), Refusal>
        ensures { elim result [
          | Ok u ↦ (lines_in (next_in K.word (K.columns kind.now) (K.says kind.now)) (length places.old) (self.old.lines + 1) (rest self.old) [] ≡ Ok (map K.meaning places.new, rest self.new))
              × AllByRecursion (K.Sound kind.now) places.new
              × LinesRead (length places.old) self.old self.new
          | Err e ↦ lines_in (next_in K.word (K.columns kind.now) (K.says kind.now)) (length places.old) (self.old.lines + 1) (rest self.old) [] ≡ Err e
        ] }
    {
        for place in places {
            *place = self.read_line(kind)?;
        }
        Ok(())
    }
}
