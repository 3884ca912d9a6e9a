// What a pattern asks of one valve. An Option<Valve> has as many values, but a letter may mean nothing at all, and
// `Some(None)` beside `None` would not tell which of the two leaves the valve as it is.
#[derive(Clone, Copy, PartialEq, Eq, Debug)]
pub enum Setting {
    Open,
    Closed,
    Unchanged,
}
