ghost use Rattle.std.specs.Prelude.{◌≡◌, None};

use crate::metric::PathMetric;
use network::step::Step;

// What a search knows of a junction: the best length found so far, and the step that leads into it.
// Labels are a slice by the numbers of their junctions: the workspace is the caller's, and nothing is allocated.
// `steps` counts the steps of the path that the length was measured on. Following `via` back may spell another path,
// of another number of steps and, once the search is over, of the same length.
#[derive(Clone, Copy)]
pub struct Label<M> {
    pub length: M,
    pub steps: usize,
    pub via: Option<Step>,
}

impl<M: PathMetric> Label<M> {
    // The label of a junction that no path leads to.
    pub fn unreached() -> Label<M>
        ensures length { M.means result.length ≡ M.none }
        ensures steps { result.steps ≡ 0 }
        ensures via { result.via ≡ None }
    {
        Label {
            length: M::no_way(),
            steps: 0,
            via: None,
        }
    }
}
