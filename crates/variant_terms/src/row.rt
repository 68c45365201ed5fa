// The term of one row, as a variant is: each child class by its best term, then the row's own. (src/extract.rs,
// extract_variants_with_sort)
ghost use Rattle.std.specs.Prelude.{IfNone, ◌≡◌};
ghost use Rattle.name.specs.Entries.{name_at};
ghost use Rattle.term_rules.specs.Nodes.{application};
ghost use Rattle.term_rules.specs.Adding.{add};
ghost use Rattle.term_add.specs.Held.{held, SameLoans, Gains};
ghost use Rattle.build.specs.Plan.{plan_in};
ghost use Rattle.build.specs.Building.{state};
ghost use Rattle.build.specs.Ready.{seen};
ghost use Rattle.variant_terms.specs.Rows.{OwnIn, KidReady, KidMade, RowReady, RowMade};

use build::plan::Plan;
use term_add::store_mut::StoreMut;

// The application of function `f` to terms that are in the store.
fn own_row(labels: &[u8], store: &mut StoreMut, f: usize, children: &[u64]) -> Option<usize>
    requires { OwnIn labels.now f (held store.old) children.now }
    ensures loans { SameLoans store.old store.new }
    ensures gains { Gains (held store.old) (add (held store.old) (application (name_at labels.now f) children.now))
        result (held store.new) }
{
    store.intern_application(name::name_of(labels, f), children)
}

// The term of a row's child: a class by its best term, a literal by itself.
fn child_term(
    plan: &Plan,
    ranks: &[u64],
    memo: &mut [u16],
    store: &mut StoreMut,
    x: usize,
) -> Option<usize>
    requires { KidReady
        plan.now.rows.now plan.now.edges.now ranks.now plan.now.labels.now plan.now.values.now
        memo.old
        (held store.old) x }
    ensures loans { SameLoans store.old store.new }
    ensures made { KidMade
        (plan_in plan.now)
        ranks.now plan.now.values.now
        (state memo.old
        (held store.old))
        x (seen result memo.new (held store.new)) }
{
    if x < 512 {
        let level = ranks[x] as usize;
        return build::build(plan, memo, store, level, x);
    }
    store.intern_literal(plan.values[x - 512])
}

// The term of a row of function `f`: its children first, left to right, then the term itself. Where there is no room,
// what is lent stays as far as it came.
fn grow_row(
    plan: &Plan,
    ranks: &[u64],
    memo: &mut [u16],
    store: &mut StoreMut,
    f: usize,
    kids: &[u16],
) -> Option<usize>
    requires { RowReady
        plan.now.rows.now plan.now.edges.now ranks.now plan.now.labels.now plan.now.values.now
        memo.old
        (held store.old) f kids.now }
    ensures loans { SameLoans store.old store.new }
    ensures made { RowMade
        (plan_in plan.now)
        ranks.now plan.now.values.now (name_at plan.now.labels.now f) kids.now
        (state memo.old
        (held store.old))
        (seen result memo.new (held store.new)) }
{
    let mut children = [0u64; 8];
    for (j, kid) in kids.iter().enumerate() {
        let term = child_term(plan, ranks, memo, store, usize::from(*kid))?;
        children[j] = term as u64;
    }
    own_row(plan.labels, store, f, &children[..kids.len()])
}

// The same; where there is no room, the store's counts are put back.
pub fn row_term(
    plan: &Plan,
    ranks: &[u64],
    memo: &mut [u16],
    store: &mut StoreMut,
    f: usize,
    kids: &[u16],
) -> Option<usize>
    requires { RowReady
        plan.now.rows.now plan.now.edges.now ranks.now plan.now.labels.now plan.now.values.now
        memo.old
        (held store.old) f kids.now }
    ensures loans { SameLoans store.old store.new }
    ensures made { RowMade
        (plan_in plan.now)
        ranks.now plan.now.values.now (name_at plan.now.labels.now f) kids.now
        (state memo.old
        (held store.old))
        (seen result memo.new (held store.new)) }
    ensures counts { IfNone result ((store.new.terms ≡ store.old.terms) × (store.new.symbols ≡ store.old.symbols)) }
{
    let terms = store.terms;
    let symbols = store.symbols;
    let made = grow_row(plan, ranks, memo, store, f, kids);
    if made.is_none() {
        store.terms = terms;
        store.symbols = symbols;
    }
    made
}
