use formats::reader::Line;
use runs::call::Call;

// A call of a script, and the line that it stands on.
#[derive(Drop)]
pub struct Entry<'a> {
    pub call: Call<'a>,
    pub line: Line<'a>,
}
