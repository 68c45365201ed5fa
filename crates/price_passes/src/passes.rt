// Passes over all rows, until one changes nothing (src/extract.rs: bellman_ford).
ghost use Rattle.std.specs.Prelude.{◌≡◌, ◌+◌, ◌<◌, length};
ghost use Rattle.choice_rules.specs.Run.{pass, run};
ghost use Rattle.price_passes.specs.Flat.{top, flat_of, FlatIn, Fresh, state_of, ran_to};

use super::rows;
use crate::flat::Rows;

// One pass, in order and in place; the last rank given comes back.
pub fn one_pass(costs: &mut [u64], ranks: &mut [u64], last: u64, rows: &Rows) -> u64
    requires outputs_bound { last + length rows.now.outputs.now < top }
    requires costs_len { length costs.old ≡ length ranks.old }
    requires flat_ok { FlatIn (length ranks.old) rows.now }
    ensures { state_of costs.new ranks.new result
        ≡ pass top (flat_of rows.now)
        (state_of costs.old ranks.old last) }
{
    let mut l = last;
    for i in 0..rows.outputs.len() {
        let output = rows.outputs[i] as usize;
        let head = rows.heads[i];
        let a = rows.starts[i];
        let e = rows.starts[i + 1];
        l = rows::relax_row(costs, ranks, l, output, head, &rows.children[a..e]);
    }
    l
}

// What a run tells besides the costs and ranks: the number of passes, and the last rank.
#[derive(Clone, Copy)]
pub struct Run {
    pub passes: u64,
    pub last: u64,
}

// Passes until one changes nothing; that one is counted.
pub fn repeat(costs: &mut [u64], ranks: &mut [u64], rows: &Rows) -> Run
    requires fresh { Fresh costs.old ranks.old }
    requires flat_ok { FlatIn (length ranks.old) rows.now }
    ensures { ran_to costs.new ranks.new result.last result.passes
        ≡ run top (flat_of rows.now)
        (length ranks.old) }
{
    let mut l = 0;
    let mut p = 0;
    loop {
        let m = one_pass(costs, ranks, l, rows);
        p += 1;
        if m == l {
            return Run { passes: p, last: m };
        }
        l = m;
    }
}
