// The rows of a class that have a cost, and what each row costs. (src/extract.rs, extract_variants_with_sort)
ghost use Rattle.std.specs.Prelude.{◌≡◌, ◌<◌, ◌≤◌, length};
ghost use Rattle.table_rules.specs.Order.{picked};
ghost use Rattle.table_rules.specs.Arrays.{Filled};
ghost use Rattle.variant_rows.specs.Candidates.{PartsIn, price_of, Prices, is_candidate};

use price_passes::flat::Rows;

// The cost of row `i`.
fn price(costs: &[u64], rows: &Rows, i: usize) -> u64
    requires parts_in { PartsIn (length costs.now) (length rows.now.heads.now) rows.now.starts.now
        rows.now.children.now }
    requires i_in_bounds { i < length rows.now.heads.now }
    ensures { result ≡ price_of costs.now rows.now.heads.now rows.now.starts.now rows.now.children.now
        i }
{
    let a = rows.starts[i];
    let e = rows.starts[i + 1];
    price_passes::rows::cost(costs, rows.heads[i], &rows.children[a..e])
}

// The cost of each row, into its place of `prices`.
pub fn price_rows(costs: &[u64], rows: &Rows, prices: &mut [u64])
    requires parts_in { PartsIn (length costs.now) (length rows.now.heads.now) rows.now.starts.now
        rows.now.children.now }
    requires heads_in_bounds { length rows.now.heads.now ≤ length prices.old }
    ensures { Prices costs.now rows.now.heads.now rows.now.starts.now rows.now.children.now
        (length rows.now.heads.now) prices.new }
{
    for i in 0..rows.heads.len() {
        prices[i] = price(costs, rows, i);
    }
}

// Whether row `i` is one of class `c` and has a cost.
fn is_candidate(ranks: &[u64], rows: &Rows, c: usize, i: usize) -> bool
    requires parts_in { PartsIn (length ranks.now) (length rows.now.outputs.now) rows.now.starts.now
        rows.now.children.now }
    requires i_in_bounds { i < length rows.now.outputs.now }
    ensures { result ≡ is_candidate ranks.now rows.now.outputs.now rows.now.starts.now
        rows.now.children.now c i }
{
    if rows.outputs[i] as usize != c {
        return false;
    }
    let a = rows.starts[i];
    let e = rows.starts[i + 1];
    price_passes::rows::has_cost(ranks, &rows.children[a..e])
}

// The rows of class `c` that have a cost, in scan order, to the front of `list`; how many they are.
pub fn find_rows(ranks: &[u64], rows: &Rows, c: usize, list: &mut [u64]) -> usize
    requires parts_in { PartsIn (length ranks.now) (length rows.now.outputs.now) rows.now.starts.now
        rows.now.children.now }
    requires outputs_in_bounds { length rows.now.outputs.now ≤ length list.old }
    ensures { Filled list.new result
        (picked
        (is_candidate ranks.now rows.now.outputs.now rows.now.starts.now rows.now.children.now c) 0
        (length rows.now.outputs.now)) }
{
    let mut m = 0;
    for i in 0..rows.outputs.len() {
        if is_candidate(ranks, rows, c, i) {
            list[m] = i as u64;
            m += 1;
        }
    }
    m
}
