ghost use Rattle.std.specs.Prelude.{◌≤◌};
ghost use Rattle.network.specs.Valves.{room};

use crate::valve::Valve;

// A pipe record that keeps the rules in any hands: its flow is at most its limit, and 0 while its valve is closed.
#[derive(Clone, Copy)]
pub struct Pipe {
    pub from: usize,
    pub to: usize,
    pub limit: u32,
    pub flow: u32,
    pub valve: Valve,
    ghost within: { flow ≤ room valve limit },
}
