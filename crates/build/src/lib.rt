// The builder of best terms: a class's term is built into a lent store by a function that calls itself on each child
// class.
#![tactic(auto)]

ghost use Rattle.std.specs.Prelude.{IfNone, ◌≡◌, ℕ, ◌+◌, ◌*◌, ◌<◌, ◌≤◌, true, length, get_or, pos};
ghost use Rattle.name.specs.Entries.{name_at};
ghost use Rattle.term_rules.specs.Lent.{store};
ghost use Rattle.term_rules.specs.WellFormed.{well_formed};
ghost use Rattle.term_rules.specs.Nodes.{literal};
ghost use Rattle.term_rules.specs.Adding.{add};
ghost use Rattle.term_add.specs.Held.{held, SameLoans};
ghost use Rattle.term_add.specs.Interning.{Leaves};
ghost use Rattle.build.specs.Plan.{plan_in};
ghost use Rattle.build.specs.Building.{state, done, own_in};
ghost use Rattle.build.specs.Ready.{Ready, OwnReady, Exact, seen};

use crate::plan::Plan;
use term_add::Added;
use term_add::store_mut::StoreMut;

pub mod plan; // plan.rt: what is to be built, as it lies in packed rows
pub mod whole; // whole.rt: a class's best term as one call: all or nothing

// The term of literal `i` of the table, if the store has room for it, for a caller that lends its names to be read
// alone.
pub fn literal_term(
    values: &[i64],
    records: &mut [u64],
    literals: &mut [i64],
    names: &[u8],
    terms: usize,
    symbols: usize,
    i: usize,
) -> Option<Added>
    requires sound { well_formed (store records.old literals.old names.now terms symbols) ≡ true }
    requires i_in_bounds { i < length values.now }
    ensures { Leaves (store records.old literals.old names.now terms symbols)
        (add (store records.old literals.old names.now terms symbols) (literal (get_or values.now i (pos 0))))
        result records.new literals.new names.now }
{
    term_add::intern_literal(records, literals, names, terms, symbols, values[i])
}

// The term of class `c`, of function `f` over its children's terms, kept in the memo.
fn own_term(
    labels: &[u8],
    memo: &mut [u16],
    store: &mut StoreMut,
    c: usize,
    f: usize,
    children: &[u64],
) -> Option<usize>
    requires { OwnReady labels.now memo.old (held store.old)
        c f children.now }
    ensures loans { SameLoans store.old store.new }
    ensures built { own_in (name_at labels.now f) c (done children.now (state memo.old (held store.old)))
        ≡ seen result memo.new (held store.new) }
{
    let name = name::name_of(labels, f);
    let term = store.intern_application(name, children)?;
    memo[c] = term as u16 + 1;
    Some(term)
}

// The term of class `c`: its children first, left to right, then the term itself, once per class (src/extract.rs,
// reconstruct_termdag_node_helper). The row of a class is the one that its edge names. Each call inside is on a class
// of a lower rank, so `level`, which no rank is above, falls with each. Where there is no room, what is lent stays as
// far as it came.
fn grow_class(
    plan: &Plan,
    memo: &mut [u16],
    store: &mut StoreMut,
    level: usize,
    c: usize,
) -> Option<usize>
    requires { Ready plan.now.rows.now plan.now.edges.now plan.now.labels.now plan.now.values.now memo.old
        (held store.old) level c }
    ensures loans { SameLoans store.old store.new }
    ensures built { Exact (plan_in plan.now) level (state memo.old (held store.old)) c
        (seen result memo.new (held store.new)) }
{
    let m = memo[c];
    if 0 < m {
        return Some(usize::from(m) - 1);
    }
    let i = usize::from(plan.edges[c]);
    let kids = table_layout::children_of(plan.rows, i);
    let mut children = [0u64; 8];
    for (j, kid) in kids.iter().enumerate() {
        let x = usize::from(*kid);
        let built = if x < 512 {
            grow_class(plan, memo, store, level - 1, x)
        } else {
            store.intern_literal(plan.values[x - 512])
        };
        let term = built?;
        children[j] = term as u64;
    }
    let f = table_layout::function_of(plan.rows, i);
    own_term(plan.labels, memo, store, c, f, &children[..kids.len()])
}

// The same; where there is no room, the store's counts are put back.
pub fn build(
    plan: &Plan,
    memo: &mut [u16],
    store: &mut StoreMut,
    level: usize,
    c: usize,
) -> Option<usize>
    requires { Ready plan.now.rows.now plan.now.edges.now plan.now.labels.now plan.now.values.now memo.old
        (held store.old) level c }
    ensures loans { SameLoans store.old store.new }
    ensures built { Exact (plan_in plan.now) level (state memo.old (held store.old)) c
        (seen result memo.new (held store.new)) }
    ensures counts { IfNone result ((store.new.terms ≡ store.old.terms) × (store.new.symbols ≡ store.old.symbols)) }
{
    let terms = store.terms;
    let symbols = store.symbols;
    let built = grow_class(plan, memo, store, level, c);
    if built.is_none() {
        store.terms = terms;
        store.symbols = symbols;
    }
    built
}
