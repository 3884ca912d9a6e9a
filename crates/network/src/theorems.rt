ghost use Rattle.std.specs.Prelude.{ℕ, List};
ghost use Rattle.std.specs.List.{AllByRecursion};
ghost use Rattle.network.specs.Cases.{Holds, marked};
ghost use Rattle.network.specs.Flows.{Greatest};
ghost use Rattle.network.specs.Network.{Network, Wired};
ghost use Rattle.network.specs.Theorems.{ByCuts, ByFlow, EqualReports, FoundByFlow, GoverningPipe, GreatestFlows, OneCut, SealedCuts, WeakDuality};

// These functions do nothing: each stands for the theorem in its contract, so that no check passes without its proof.

// For every flow and cut, the value is at most the capacity.
pub fn weak_duality()
    ensures { (w : Network) → Wired w → WeakDuality w }
{}

// A cut that no residual step leaves has the flow's value as its capacity: the flow is greatest, the cut minimum.
pub fn sealed_cuts()
    ensures { (w : Network) → Wired w → SealedCuts w }
{}

// There is a greatest flow; no augmenting path, greatest value and least capacity are one.
pub fn greatest_flows()
    ensures { (w : Network) → Wired w → GreatestFlows w }
{}

// The report by cuts: the near side is the smallest minimum cut, the far side the largest.
pub fn report_by_cuts()
    ensures { (w : Network) → Wired w → ByCuts w }
{}

// The report by a greatest flow, whichever it is.
pub fn report_by_flow()
    ensures { (w : Network) → Wired w → (f : List ℕ) → Greatest w f → ByFlow w f }
{}

// How an engine finds the report: by a flow whose pump does not reach its outlet.
pub fn report_found()
    ensures { (w : Network) → Wired w → FoundByFlow w }
{}

// Near side and far side are the same exactly where there is just one minimum cut.
pub fn one_cut()
    ensures { (w : Network) → Wired w → OneCut w }
{}

// Two reports are equal exactly where the least capacity and the two sets of junctions agree.
pub fn equal_reports()
    ensures { (w u : Network) → Wired w → Wired u → EqualReports w u }
{}

// A pipe governs exactly where it is open and one litre more on its limit raises the greatest value.
pub fn governing_pipes()
    ensures { (w : Network) → Wired w → (k : ℕ) → GoverningPipe w k }
{}

// Ten cases worked out by the definitions.
pub fn marked_cases()
    ensures { AllByRecursion Holds marked }
{}
