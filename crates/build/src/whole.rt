// A class's best term as one call: all or nothing.
ghost use Rattle.std.specs.Prelude.{◌≡◌};
ghost use Rattle.term_add.specs.Held.{held, SameLoans};
ghost use Rattle.build.specs.Plan.{plan_in};
ghost use Rattle.build.specs.Whole.{Ready, whole};

use crate::plan::Plan;
use term_add::store_mut::StoreMut;

// The term of class `c`, of a rank at most `level`, all or nothing: where there is no room for it, what was lent is put
// back (src/extract.rs, reconstruct_termdag_node).
pub fn term(plan: &Plan, store: &mut StoreMut, level: usize, c: usize) -> Option<usize>
    requires { Ready plan.now.rows.now plan.now.edges.now plan.now.labels.now plan.now.values.now
        (held store.old) level c }
    ensures loans { SameLoans store.old store.new }
    ensures whole { record { answer = result; store = held store.new }
        ≡ whole (plan_in plan.now) level (held store.old) c }
{
    let mut memo = [0u16; 512];
    let mut old_records = [0u64; term_layout::RECORDS];
    let mut old_literals = [0i64; 1024];
    let mut old_names = [0u8; 4096];
    let old = store.lent();
    copies::over(&mut old_records, old.records);
    copies::over(&mut old_literals, old.literals);
    copies::over(&mut old_names, old.names);
    let terms = store.terms;
    let symbols = store.symbols;
    let built = crate::build(plan, &mut memo, store, level, c);
    if built.is_none() {
        copies::over(store.records, &old_records);
        copies::over(store.literals, &old_literals);
        copies::over(store.names, &old_names);
        store.terms = terms;
        store.symbols = symbols;
    }
    built
}
