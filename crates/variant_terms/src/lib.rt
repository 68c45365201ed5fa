// The terms of rows in turn, as the variants of a class are: all of them, or nothing. (src/extract.rs,
// extract_variants_with_sort)
#![tactic(auto)]

ghost use Rattle.std.specs.Prelude.{◌≡◌, ◌≤◌, length, get_or, take};
ghost use Rattle.term_add.specs.Held.{held, SameLoans};
ghost use Rattle.table_layout.specs.Rows.{children_at};
ghost use Rattle.build.specs.Plan.{plan_in, children_of};
ghost use Rattle.build.specs.Building.{state};
ghost use Rattle.build.specs.Ready.{seen};
ghost use Rattle.variant_terms.specs.Rows.{RowMade};
ghost use Rattle.variant_terms.specs.Turned.{name_in, ListedReady, ListReady, seen_all, RowsMade};
ghost use Rattle.variant_terms.specs.Turned.{WholeReady, seen_wholly, RowsWhole};

use build::plan::Plan;
use term_add::store_mut::StoreMut;

pub mod row; // row.rt: the term of one row, as a variant is: each child class by its best term, then the row's own

// The term of row `i` of the scan order.
fn one_row(
    plan: &Plan,
    ranks: &[u64],
    memo: &mut [u16],
    store: &mut StoreMut,
    i: usize,
) -> Option<usize>
    requires { ListedReady
        plan.now.rows.now plan.now.edges.now ranks.now plan.now.labels.now plan.now.values.now
        memo.old
        (held store.old) i }
    ensures loans { SameLoans store.old store.new }
    ensures made { RowMade
        (plan_in plan.now)
        ranks.now plan.now.values.now (name_in plan.now.labels.now plan.now.rows.now i)
        (children_at plan.now.rows.now i)
        (state memo.old
        (held store.old))
        (seen result memo.new (held store.new)) }
{
    let f = table_layout::function_of(plan.rows, i);
    let kids = table_layout::children_of(plan.rows, i);
    row::row_term(plan, ranks, memo, store, f, kids)
}

// The terms of the listed rows in turn, into the front of `found`; none where the store has no room for one.
fn all_rows(
    plan: &Plan,
    ranks: &[u64],
    list: &[u64],
    memo: &mut [u16],
    store: &mut StoreMut,
    found: &mut [u64],
) -> Option<()>
    requires list_ready { ListReady
        plan.now.rows.now plan.now.edges.now ranks.now plan.now.labels.now plan.now.values.now
        memo.old
        (held store.old) list.now }
    requires list_in_bounds { length list.now ≤ length found.old }
    ensures loans { SameLoans store.old store.new }
    ensures made { RowsMade
        (plan_in plan.now)
        ranks.now (name_in plan.now.labels.now plan.now.rows.now)
        (children_of plan.now.rows.now plan.now.values.now) list.now
        (state memo.old
        (held store.old))
        (seen_all result (take (length list.now) found.new) memo.new (held store.new)) }
{
    for (j, i) in list.iter().enumerate() {
        let term = one_row(plan, ranks, memo, store, *i as usize)?;
        found[j] = term as u64;
    }
    Some(())
}

// The terms of the listed rows, all or nothing: where there is no room for one, what was lent is put back.
pub fn whole_rows(
    plan: &Plan,
    ranks: &[u64],
    list: &[u64],
    store: &mut StoreMut,
    found: &mut [u64],
) -> Option<()>
    requires whole_ready { WholeReady
        plan.now.rows.now plan.now.edges.now ranks.now plan.now.labels.now plan.now.values.now
        (held store.old) list.now }
    requires list_in_bounds { length list.now ≤ length found.old }
    ensures loans { SameLoans store.old store.new }
    ensures whole { RowsWhole
        (plan_in plan.now)
        ranks.now (name_in plan.now.labels.now plan.now.rows.now)
        (children_of plan.now.rows.now plan.now.values.now) list.now
        (held store.old)
        (seen_wholly result (take (length list.now) found.new) (held store.new)) }
{
    let mut memo = [0u16; 512];
    let mut old_records = [0u64; term_layout::RECORDS];
    let mut old_literals = [0i64; 1024];
    let mut old_names = [0u8; 4096];
    let old = store.lent();
    copies::over(&mut old_records, old.records);
    copies::over(&mut old_literals, old.literals);
    copies::over(&mut old_names, old.names);
    let terms = store.terms;
    let symbols = store.symbols;
    let made = all_rows(plan, ranks, list, &mut memo, store, found);
    if made.is_none() {
        copies::over(store.records, &old_records);
        copies::over(store.literals, &old_literals);
        copies::over(store.names, &old_names);
        store.terms = terms;
        store.symbols = symbols;
    }
    made
}
