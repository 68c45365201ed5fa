// What the kept rows of a class answer: their costs and terms, all of them or nothing. (src/extract.rs,
// extract_variants_with_sort)
#![tactic(auto)]

ghost use Rattle.std.specs.Prelude.{◌≡◌, ◌≤◌, length};
ghost use Rattle.std.proofs.Math.Seq.{paste};
ghost use Rattle.term_add.specs.Held.{held, SameLoans};
ghost use Rattle.build.specs.Plan.{plan_in, children_of};
ghost use Rattle.variant_order.specs.Arrays.{AllBelow};
ghost use Rattle.variant_terms.specs.Turned.{name_in};
ghost use Rattle.variant_answers.specs.Kept.{lending, seen, dear_in, prices_of, ResultsFit, Results};
ghost use Rattle.variant_answers.specs.Kept.{AnswerReady, Answers};

use build::plan::Plan;
use refusal::Refusal;
use term_add::store_mut::StoreMut;

// How many variants are kept, and the passes.
#[derive(Clone, Copy)]
pub struct Kept {
    pub count: usize,
    pub passes: u64,
}

// Whether one of the listed rows costs 2^64-1.
fn any_dear(prices: &[u64], list: &[u64]) -> bool
    requires { AllBelow (length prices.now) list.now }
    ensures { result ≡ dear_in prices.now list.now }
{
    for row in list {
        let i = *row as usize;
        if 18446744073709551615 <= prices[i] {
            return true;
        }
    }
    false
}

// The costs of the listed rows, to the front of `out`.
fn put_costs(prices: &[u64], list: &[u64], out: &mut [u64])
    requires all_below { AllBelow (length prices.now) list.now }
    requires list_in_bounds { length list.now ≤ length out.old }
    ensures { out.new ≡ paste out.old 0 (prices_of prices.now list.now)
        (length list.now) }
{
    for (k, row) in list.iter().enumerate() {
        let i = *row as usize;
        out[k] = prices[i];
    }
}

// The costs and the terms of the listed rows, to the front of the two lists of results, which have room for them.
fn put_results(prices: &[u64], list: &[u64], made: &[u64], paid: &mut [u64], found: &mut [u64])
    requires all_below { AllBelow (length prices.now) list.now }
    requires results_fit { ResultsFit (length list.now) made.now paid.old found.old }
    ensures { Results prices.now list.now made.now paid.old
        found.old paid.new found.new }
{
    let k = list.len();
    put_costs(prices, list, paid);
    copies::over(found, &made[..k]);
}

// The answer for the listed rows: whether one is too dear, whether the results have room, then their terms.
pub fn answer(
    plan: &Plan,
    ranks: &[u64],
    prices: &[u64],
    list: &[u64],
    passes: u64,
    store: &mut StoreMut,
    paid: &mut [u64],
    found: &mut [u64],
) -> Result<Kept, Refusal>
    requires { AnswerReady
        plan.now.rows.now plan.now.edges.now ranks.now plan.now.labels.now plan.now.values.now
        prices.now list.now
        (held store.old) }
    ensures loans { SameLoans store.old store.new }
    ensures variants { Answers
        (plan_in plan.now)
        ranks.now (name_in plan.now.labels.now plan.now.rows.now)
        (children_of plan.now.rows.now plan.now.values.now) passes prices.now list.now
        (lending (held store.old)
        paid.old found.old)
        (seen result (held store.new) paid.new
        found.new) }
{
    if any_dear(prices, list) {
        return Err(Refusal::TooDear);
    }
    let k = list.len();
    if paid.len() < k {
        return Err(Refusal::NoRoom);
    }
    if found.len() < k {
        return Err(Refusal::NoRoom);
    }
    let mut made = [0u64; 1024];
    variant_terms::whole_rows(plan, ranks, list, store, &mut made).ok_or(Refusal::NoRoom)?;
    put_results(prices, list, &made, paid, found);
    Ok(Kept { count: k, passes })
}
