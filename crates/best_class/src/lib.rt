// The best term of a class, over flat rows: costs and choice, then the term. (src/extract.rs, extract_best_with_sort)
#![tactic(auto)]

ghost use Rattle.std.specs.Prelude.{◌≡◌, length};
ghost use Rattle.term_add.specs.Held.{held, SameLoans};
ghost use Rattle.price.specs.Solved.{Blank};
ghost use Rattle.best_class.specs.Flat.{RowsReady, RowsAnswer, seen};

use build::plan::Plan;
use build::whole;
use refusal::Refusal;
use term_add::store_mut::StoreMut;

// The best term's cost and number, and the passes.
#[derive(Clone, Copy)]
pub struct Best {
    pub cost: u64,
    pub term: usize,
    pub passes: u64,
}

// The best term of class `c`, by packed rows, on lists of one place for each class that are all zero before.
pub fn decide(
    outputs: &[u64],
    heads: &[u64],
    starts: &[usize],
    children: &[u64],
    rows: &[u16],
    labels: &[u8],
    values: &[i64],
    c: usize,
    costs: &mut [u64],
    ranks: &mut [u64],
    edges: &mut [u16],
    store: &mut StoreMut,
) -> Result<Best, Refusal>
    requires rows_ready { RowsReady outputs.now heads.now starts.now children.now rows.now labels.now values.now
        (length ranks.old) c (held store.old) }
    requires blank { Blank (length ranks.old) costs.old ranks.old edges.old }
    ensures loans { SameLoans store.old store.new }
    ensures best { RowsAnswer outputs.now heads.now starts.now
        children.now rows.now labels.now values.now
        (length ranks.old) c
        (held store.old)
        (seen result (held store.new)) }
{
    let run = price::solve(outputs, heads, starts, children, costs, ranks, edges);
    let rank = ranks[c];
    if rank == 0 {
        return Err(Refusal::NoTerm);
    }
    let cost = costs[c];
    if 18446744073709551615 <= cost {
        return Err(Refusal::TooDear);
    }
    let plan = Plan {
        rows,
        edges,
        labels,
        values,
    };
    let term = whole::term(&plan, store, rank as usize, c).ok_or(Refusal::NoRoom)?;
    Ok(Best {
        cost,
        term,
        passes: run.passes,
    })
}
