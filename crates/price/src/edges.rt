// The edge of each class, in one walk over the rows (src/extract.rs: save_best_parent_edge of bellman_ford).
ghost use Rattle.std.specs.Prelude.{◌≡◌, map, ◌<◌, length};
ghost use Rattle.choice_rules.specs.Rows.{all_of};
ghost use Rattle.choice_rules.specs.Edges.{below, is_edge, edges_of};
ghost use Rattle.price_passes.specs.Flat.{top, child_of, row_of, flat_of, ChildrenIn, FlatIn};
ghost use Rattle.price.specs.Marks.{marked};

use price_passes::flat::Rows;
use price_passes::{children, rows};

// Whether every child's rank is strictly below b (src/extract.rs: compute_topo_rnk_hyperedge, compared).
fn all_below(ranks: &[u64], b: u64, kids: &[u64]) -> bool
    requires { ChildrenIn (length ranks.now) kids.now }
    ensures { result ≡ all_of (below b ranks.now) (map child_of kids.now) }
{
    kids.iter().all(|child| children::rank(ranks, *child) < b)
}

// Whether a row can be the edge of its class.
fn is_edge(costs: &[u64], ranks: &[u64], output: usize, head: u64, kids: &[u64]) -> bool
    requires costs_len { length costs.now ≡ length ranks.now }
    requires output_in_bounds { output < length ranks.now }
    requires children_in { ChildrenIn (length ranks.now) kids.now }
    ensures { result ≡ is_edge top costs.now ranks.now output (row_of output head kids.now) }
{
    if !rows::has_cost(ranks, kids) {
        return false;
    }
    let w = rows::cost(costs, head, kids);
    if w != costs[output] {
        return false;
    }
    let b = ranks[output];
    all_below(ranks, b, kids)
}

// Takes the row of number i for the edge of its class, if the class has none yet and the row can be.
fn mark(
    edges: &mut [u16],
    none: u16,
    i: u16,
    costs: &[u64],
    ranks: &[u64],
    output: usize,
    head: u64,
    kids: &[u64],
)
    requires edges_len { length edges.old ≡ length ranks.now }
    requires costs_len { length costs.now ≡ length ranks.now }
    requires output_in_bounds { output < length ranks.now }
    requires children_in { ChildrenIn (length ranks.now) kids.now }
    ensures { edges.new
        ≡ marked (is_edge top costs.now ranks.now) none i (row_of output head kids.now)
        edges.old }
{
    if edges[output] != none {
        return;
    }
    if is_edge(costs, ranks, output, head, kids) {
        edges[output] = i;
    }
}

// The edges of all classes; the number of rows where a class has none.
pub fn fill(edges: &mut [u16], costs: &[u64], ranks: &[u64], rows: &Rows)
    requires edges_len { length edges.old ≡ length ranks.now }
    requires costs_len { length costs.now ≡ length ranks.now }
    requires flat_ok { FlatIn (length ranks.now) rows.now }
    ensures { edges.new ≡ edges_of top costs.now ranks.now
        (flat_of rows.now) }
{
    let none = rows.outputs.len() as u16;
    edges.fill(none);
    for i in 0..rows.outputs.len() {
        let output = rows.outputs[i] as usize;
        let head = rows.heads[i];
        let a = rows.starts[i];
        let e = rows.starts[i + 1];
        mark(
            edges,
            none,
            i as u16,
            costs,
            ranks,
            output,
            head,
            &rows.children[a..e],
        );
    }
}
