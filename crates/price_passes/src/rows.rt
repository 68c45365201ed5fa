// One row: whether it has a cost, its cost, its relaxation.
ghost use Rattle.std.specs.Prelude.{◌≡◌, map, ◌+◌, ◌<◌, min, length};
ghost use Rattle.choice_rules.specs.Rows.{all_of, sum_of};
ghost use Rattle.choice_rules.specs.Run.{priced, child_cost, relax};
ghost use Rattle.price_passes.specs.Flat.{top, child_of, row_of, ChildrenIn, state_of};

use super::children;

// Whether every child has a cost.
pub fn has_cost(ranks: &[u64], kids: &[u64]) -> bool
    requires { ChildrenIn (length ranks.now) kids.now }
    ensures { result ≡ all_of (priced ranks.now) (map child_of kids.now) }
{
    kids.iter().all(|child| children::has_cost(ranks, *child))
}

// src/extract.rs: compute_cost_hyperedge, and combine of u64 costs, of a row whose children have a cost.
pub fn cost(costs: &[u64], head: u64, kids: &[u64]) -> u64
    requires { ChildrenIn (length costs.now) kids.now }
    ensures { result ≡ min top (head + sum_of (child_cost costs.now) (map child_of kids.now)) }
{
    let mut sum = head;
    for child in kids {
        sum = sum.saturating_add(children::cost(costs, *child));
    }
    sum
}

// Relaxes one row; the last rank given comes back (src/extract.rs: relax_hyperedge of bellman_ford).
pub fn relax_row(
    costs: &mut [u64],
    ranks: &mut [u64],
    last: u64,
    output: usize,
    head: u64,
    kids: &[u64],
) -> u64
    requires last_lt_top { last < top }
    requires costs_len { length costs.old ≡ length ranks.old }
    requires output_in_bounds { output < length ranks.old }
    requires children_in { ChildrenIn (length ranks.old) kids.now }
    ensures { state_of costs.new ranks.new result
        ≡ relax top (state_of costs.old ranks.old last) (row_of output head kids.now) }
{
    if !has_cost(ranks, kids) {
        return last;
    }
    let w = cost(costs, head, kids);
    if ranks[output] == 0 || w < costs[output] {
        costs[output] = w;
        ranks[output] = last + 1;
        return last + 1;
    }
    last
}
