// The costs, ranks and edges of flat rows: the relaxation, then the choice. (src/extract.rs, bellman_ford)
#![tactic(auto)]

ghost use Rattle.std.specs.Prelude.{length};
ghost use Rattle.price_passes.specs.Flat.{FlatOk, FlatIn};
ghost use Rattle.price.specs.Solved.{Blank, Solved, SolvedRows};

use price_passes::flat::Rows;
use price_passes::passes::Run;

pub mod edges; // edges.rt: the edge of each class, in one walk over the rows (src/extract.rs: save_best_parent_edge of bellman_ford)

// Passes until one changes nothing, then the edge of each class.
pub fn solve_rows(rows: &Rows, costs: &mut [u64], ranks: &mut [u64], edges: &mut [u16]) -> Run
    requires flat_ok { FlatIn (length ranks.old) rows.now }
    requires blank { Blank (length ranks.old) costs.old ranks.old edges.old }
    ensures { SolvedRows (length ranks.old) result.passes result.last rows.now costs.new ranks.new edges.new }
{
    let run = price_marks::run::repeat(costs, ranks, rows);
    edges::fill(edges, costs, ranks, rows);
    run
}

// The same, of rows as four lists.
pub fn solve(
    outputs: &[u64],
    heads: &[u64],
    starts: &[usize],
    children: &[u64],
    costs: &mut [u64],
    ranks: &mut [u64],
    edges: &mut [u16],
) -> Run
    requires flat_ok { FlatOk (length ranks.old) outputs.now heads.now starts.now children.now }
    requires blank { Blank (length ranks.old) costs.old ranks.old edges.old }
    ensures { Solved (length ranks.old) result.passes result.last outputs.now
        heads.now starts.now children.now costs.new
        ranks.new edges.new }
{
    let rows = Rows {
        outputs,
        heads,
        starts,
        children,
    };
    solve_rows(&rows, costs, ranks, edges)
}
