ghost use Rattle.std.specs.Prelude.{◌≡◌, ◌<◌, ◌≤◌, length};
ghost use Rattle.network.specs.Changes.{with_pipe, with_limit, with_valve};
ghost use Rattle.network.specs.Pipes.{network_of, flow_of};
ghost use Rattle.network.specs.Residual.{pipe, carried};
ghost use Rattle.network.specs.Valves.{room};
ghost use Rattle.formats.specs.Letters.{setting_of};
ghost use Rattle.interface.specs.Works.{Lowers, Closings};
ghost use Rattle.augmenting.specs.Legs.{ClosesBy};

use crate::augmenter::Augmenter;
use crate::greatest_flow::GreatestFlow;
use crate::rows::change_row;
use formats::letters::read_setting;
use formats::setting::Setting;
use network::valve::Valve;
use paths::metric::PathMetric;

impl<'t, 'w, M: PathMetric> GreatestFlow<'t, 'w, M> {
    // Pipe k gets this limit and this valve, by which it may carry no more than before, and keeps so much of its flow:
    // the rest is led by other ways, or given back. The answer is the number of augmentations.
    pub fn lower(&mut self, k: usize, limit: u32, valve: Valve, keep: u32) -> u32
        requires inside { k < self.old.table.now.count }
        requires some { 1 ≤ limit }
        requires few { limit ≤ 60000 }
        requires within { keep ≤ room valve limit }
        requires less { keep ≤ carried (flow_of self.old.table.now) k }
        requires lower { room valve limit ≤ room (pipe (network_of self.old.table.now) k).valve (pipe (network_of self.old.table.now) k).limit }
        ensures network { network_of self.new.table.now ≡ with_pipe (network_of self.old.table.now) k (with_valve (with_limit (pipe (network_of self.old.table.now) k) limit) valve) }
        ensures lowers { Lowers M.good M.start M.extended (network_of self.old.table.now) (flow_of self.old.table.now) k (with_valve (with_limit (pipe (network_of self.old.table.now) k) limit) valve) keep result (flow_of self.new.table.now) }
        ensures few { result ≤ 180000 }
        ensures same_table { self.new.table.ghost_name ≡ self.old.table.ghost_name }
        ensures same_labels { self.new.labels.ghost_name ≡ self.old.labels.ghost_name }
    {
        let row = self.table.rows[k];
        change_row(self.table, k, limit, valve, keep);
        let mut augmenter = Augmenter {
            table: &mut *self.table,
            labels: &mut *self.labels,
        };
        augmenter.mend(row.from, row.to, row.flow - keep)
    }

    // Closes pipe k if the letter says so, and answers the number of augmentations.
    fn close_by(&mut self, k: usize, letter: u8) -> u32
        requires inside { k < self.old.table.now.count }
        ensures closes { ClosesBy M.good M.start M.extended (network_of self.old.table.now) (flow_of self.old.table.now) k (setting_of letter) (network_of self.new.table.now) result (flow_of self.new.table.now) }
        ensures few { result ≤ 180000 }
        ensures same_table { self.new.table.ghost_name ≡ self.old.table.ghost_name }
        ensures same_labels { self.new.labels.ghost_name ≡ self.old.labels.ghost_name }
    {
        match read_setting(letter) {
            Some(Setting::Closed) => {
                let limit = self.table.rows[k].limit;
                self.lower(k, limit, Valve::Closed, 0)
            }
            _ => 0,
        }
    }

    // Closes the pipes that the letters close, one after the other, and answers the number of augmentations.
    pub fn close_marked(&mut self, letters: &[u8]) -> u32
        requires long { length letters.now ≡ self.old.table.now.count }
        ensures closings { Closings M.good M.start M.extended (network_of self.old.table.now) (flow_of self.old.table.now) letters.now self.old.table.now.count (network_of self.new.table.now) result (flow_of self.new.table.now) }
        ensures few { result ≤ 92160000 }
        ensures same_table { self.new.table.ghost_name ≡ self.old.table.ghost_name }
        ensures same_labels { self.new.labels.ghost_name ≡ self.old.labels.ghost_name }
    {
        let mut count = 0;
        // By the pipe's number: what lowers a pipe changes the row of that number.
        for (k, letter) in letters.iter().enumerate() {
            count += self.close_by(k, *letter);
        }
        count
    }
}
