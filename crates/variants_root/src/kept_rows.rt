// The rows of a class that are kept, over flat rows: costs and choice, then the rows; and the variants by them.
// (src/extract.rs, extract_variants_with_sort)
ghost use Rattle.std.specs.Prelude.{◌≡◌, ◌≤◌, length};
ghost use Rattle.term_add.specs.Held.{held, SameLoans};
ghost use Rattle.price.specs.Solved.{Blank};
ghost use Rattle.variant_answers.specs.Kept.{lending, seen};
ghost use Rattle.variants_root.specs.Flat.{KeyedReady, KeyedAnswers};
ghost use Rattle.variants_root.specs.Chosen.{PackedReady, PackedChosen};

use crate::Choice;
use build::plan::Plan;
use refusal::Refusal;
use term_add::store_mut::StoreMut;
use variant_answers::Kept;

// The first `most` rows of class `c`, by packed rows, on lists of one place for each class that are all zero before:
// their numbers to the front of `list`, and what they are built by to `prices`, `ranks` and `edges`.
pub fn keep(
    outputs: &[u64],
    heads: &[u64],
    starts: &[usize],
    children: &[u64],
    rows: &[u16],
    labels: &[u8],
    cells: &[u64],
    c: usize,
    most: usize,
    costs: &mut [u64],
    ranks: &mut [u64],
    edges: &mut [u16],
    prices: &mut [u64],
    list: &mut [u64],
) -> Choice
    requires packed_ready { PackedReady outputs.now heads.now starts.now children.now rows.now labels.now
        cells.now (length ranks.old) }
    requires blank { Blank (length ranks.old) costs.old ranks.old edges.old }
    requires prices_room { 1024 ≤ length prices.old }
    requires list_room { length list.old ≡ 1024 }
    ensures { PackedChosen outputs.now heads.now starts.now children.now rows.now labels.now cells.now
        (length ranks.old) c most result edges.new ranks.new prices.new list.new }
{
    let run = price::solve(outputs, heads, starts, children, costs, ranks, edges);
    let count = variant_rows::rows(
        costs, ranks, outputs, heads, starts, children, rows, labels, cells, c, most, prices, list,
    );
    Choice {
        count,
        passes: run.passes,
    }
}

// The first `most` variants of class `c`, by packed rows, on lists of one place for each class that are all zero
// before: their costs to the front of `paid`, their terms to the front of `found`.
pub fn decide(
    outputs: &[u64],
    heads: &[u64],
    starts: &[usize],
    children: &[u64],
    rows: &[u16],
    labels: &[u8],
    values: &[i64],
    cells: &[u64],
    c: usize,
    most: usize,
    costs: &mut [u64],
    ranks: &mut [u64],
    edges: &mut [u16],
    store: &mut StoreMut,
    paid: &mut [u64],
    found: &mut [u64],
) -> Result<Kept, Refusal>
    requires keyed_ready { KeyedReady outputs.now heads.now starts.now children.now rows.now labels.now values.now
        cells.now (length ranks.old) (held store.old) }
    requires blank { Blank (length ranks.old) costs.old ranks.old edges.old }
    ensures loans { SameLoans store.old store.new }
    ensures variants { KeyedAnswers outputs.now heads.now starts.now
        children.now rows.now labels.now values.now cells.now
        (length ranks.old) c most
        (lending (held store.old)
        paid.old found.old)
        (seen result (held store.new) paid.new
        found.new) }
{
    let mut prices = [0u64; 1024];
    let mut list = [0u64; 1024];
    let choice = keep(
        outputs,
        heads,
        starts,
        children,
        rows,
        labels,
        cells,
        c,
        most,
        costs,
        ranks,
        edges,
        &mut prices,
        &mut list,
    );
    let plan = Plan {
        rows,
        edges,
        labels,
        values,
    };
    variant_answers::answer(
        &plan,
        ranks,
        &prices,
        &list[..choice.count],
        choice.passes,
        store,
        paid,
        found,
    )
}
