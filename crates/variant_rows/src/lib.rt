// The rows of a class that are kept as its variants. (src/extract.rs, extract_variants_with_sort)
#![tactic(auto)]

ghost use Rattle.std.specs.Prelude.{length};
ghost use Rattle.variant_rows.specs.Kept.{KeptReady, Keeps};

use price_passes::flat::Rows;
use variant_order::keys::Keys;

pub mod candidates; // candidates.rt: the rows of a class that have a cost, and what each row costs

// The first `most` rows of class `c` that have a cost, in order, to the front of `list`, and every row's cost into
// `prices`; how many are kept. `rows` has the same rows packed.
pub fn rows(
    costs: &[u64],
    ranks: &[u64],
    outputs: &[u64],
    heads: &[u64],
    starts: &[usize],
    children: &[u64],
    rows: &[u16],
    labels: &[u8],
    cells: &[u64],
    c: usize,
    most: usize,
    prices: &mut [u64],
    list: &mut [u64],
) -> usize
    requires { KeptReady (length outputs.now) costs.now ranks.now heads.now starts.now children.now
        rows.now labels.now cells.now prices.old list.old }
    ensures { Keeps costs.now ranks.now outputs.now heads.now
        starts.now children.now rows.now labels.now cells.now
        c most result prices.new list.new }
{
    let flat = Rows {
        outputs,
        heads,
        starts,
        children,
    };
    candidates::price_rows(costs, &flat, prices);
    let m = candidates::find_rows(ranks, &flat, c, list);
    let k = most.min(m);
    let keys = Keys {
        costs: prices,
        rows,
        names: labels,
        cells,
        count: outputs.len(),
    };
    variant_sort::choose(&keys, &mut list[..m], k);
    k
}
