ghost use Rattle.std.specs.Prelude.{◌≡◌, length, drop, Decides};
ghost use Rattle.runs.specs.Agreements.{Agree};

use runs::answer::Answer;

// Whether two rows have the same length, and the same numbers behind the first n.
fn equal_behind(n: usize, row: &[u32], other: &[u32]) -> bool
    ensures { Decides result ((length row.now ≡ length other.now) × (drop n row.now ≡ drop n other.now)) }
{
    if row.len() != other.len() {
        return false;
    }
    let start = n.min(row.len());
    row[start..] == other[start..]
}

// Whether two answers say the same. This is no equality of answers: counts of augmentations and kept flows may differ.
pub(crate) fn agree(one: &Answer, other: &Answer) -> bool
    ensures { Decides result (Agree one.now other.now) }
{
    match (one, other) {
        (Answer::Loaded(m), Answer::Loaded(n)) => m == n,
        (Answer::Changed { change: d, .. }, Answer::Changed { change: e, .. }) => d == e,
        (Answer::Reported(r), Answer::Reported(s)) => r == s,
        (Answer::Governs(b), Answer::Governs(c)) => b == c,
        (
            Answer::Sheet {
                length: m,
                space: u,
            },
            Answer::Sheet {
                length: n,
                space: v,
            },
        ) => m == n && u == v,
        (Answer::Flow { pipes: m, row: u }, Answer::Flow { pipes: n, row: v }) => {
            m == n && equal_behind(*m, u, v)
        }
        (Answer::Refused(e), Answer::Refused(f)) => e == f,
        (
            Answer::SheetRefused {
                refusal: e,
                space: u,
            },
            Answer::SheetRefused {
                refusal: f,
                space: v,
            },
        ) => e == f && u == v,
        (Answer::FlowRefused { refusal: e, row: u }, Answer::FlowRefused { refusal: f, row: v }) =>
            e == f && u == v,
        _ => false,
    }
}
