use crate::entry::Entry;

// What the lines of a script make, and the workspace places for the calls that follow.
#[derive(Drop)]
pub struct Script<'a> {
    pub entries: Vec<Entry<'a>>,
    pub places: usize,
}
