use runs::answer::Answer;

// What the four engines answered: warm and cold ones, by fewest pipes and by widest paths.
// Fields, and no array of four: clauses and pages speak of each engine by name, and of an array a clause would have to
// say its length and give a place for each.
#[derive(Drop)]
pub struct Four {
    pub warm_fewest: Vec<Answer>,
    pub warm_widest: Vec<Answer>,
    pub cold_fewest: Vec<Answer>,
    pub cold_widest: Vec<Answer>,
}

// What they answered to one call. It has the same four names in a type of its own: it borrows and is copied, where what the
// engines gave is owned and dropped.
#[derive(Clone, Copy)]
pub struct Told<'a> {
    pub warm_fewest: &'a Answer,
    pub warm_widest: &'a Answer,
    pub cold_fewest: &'a Answer,
    pub cold_widest: &'a Answer,
}
