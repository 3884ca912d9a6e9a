ghost use Rattle.std.specs.Prelude.{◌≡◌, ℕ, ◌+◌, ◌-◌, ◌≤◌, List};
ghost use Rattle.network.specs.declared.step.Step.{Step};
ghost use Rattle.network.specs.Flows.{Flow, Within, dry, Greatest, outflow, inflow};
ghost use Rattle.network.specs.Network.{Network, Wired};
ghost use Rattle.network.specs.Paths.{Path};
ghost use Rattle.network.specs.Reports.{report_of};
ghost use Rattle.engines.specs.Balances.{Balanced};

// These functions do nothing: each stands for the theorem in its contract, so that no check passes without its proof.

// A flow is balanced at each junction other than pump and outlet.
pub fn flows_balance()
    ensures { (w : Network) (f : List ℕ) → Flow w f → Balanced w f }
{}

// What keeps to the limits and is balanced is a flow.
pub fn balanced_flows()
    ensures { (w : Network) (f : List ℕ) → Within w f → Balanced w f → Flow w f }
{}

// Dry pipes bring the pump no more than they take from it.
pub fn dry_pipes()
    ensures { (w : Network) → Wired w → inflow w (dry w) w.pump ≤ outflow w (dry w) w.pump }
{}

// A flow that no path augments has no negative value.
pub fn full_pipes()
    ensures { (w : Network) → Wired w → (f : List ℕ) → Flow w f → ((ss : List Step) → Path w f w.pump ss w.outlet → ⊥) → (v : ℕ) → v ≡ outflow w f w.pump - inflow w f w.pump → outflow w f w.pump ≡ inflow w f w.pump + v }
{}

// A flow of the report's value is greatest.
pub fn greatest_by_value()
    ensures { (w : Network) → Wired w → (f : List ℕ) → Flow w f → (v : ℕ) → outflow w f w.pump ≡ inflow w f w.pump + v → v ≡ (report_of w).value → Greatest w f }
{}
