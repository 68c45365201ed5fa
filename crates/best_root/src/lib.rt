// The best term of a root, once a table is laid flat: a literal, or a class's, over a lent store.
// A refusal leaves all that is lent as it was. (src/extract.rs, extract_best_with_sort)
#![tactic(auto)]

ghost use Rattle.std.specs.Prelude.{◌≡◌, ◌<◌, pos, length, get_or};
ghost use Rattle.term_rules.specs.Lent.{store};
ghost use Rattle.term_add.specs.Held.{held, SameLoans};
ghost use Rattle.best_class.specs.Flat.{BestReady, BestAnswers};
ghost use Rattle.best_root.specs.Single.{seen_best, seen_counted, literal_answer, SomeClass, ClassAnswers};

pub use best_class::Best;
use refusal::Refusal;
use table_layout::pack;
use term_add::store_mut::StoreMut;
use term_layout::lent::Lent;

// A best term, and how many terms and symbols the store has then.
#[derive(Clone, Copy)]
pub struct CountedBest {
    pub best: Best,
    pub terms: usize,
    pub symbols: usize,
}

// The term of literal `i`, for a caller that lends its names to be read alone: a base root costs 1, and one pass
// changes nothing.
pub fn of_literal(
    values: &[i64],
    i: u64,
    records: &mut [u64],
    literals: &mut [i64],
    names: &[u8],
    terms: usize,
    symbols: usize,
) -> Result<CountedBest, Refusal>
    requires { i < length values.now }
    ensures { seen_counted result records.new literals.new names.now terms symbols
        ≡ literal_answer (get_or values.now i (pos 0))
        (store records.old literals.old names.now terms symbols) }
{
    let formed = term_record::check(&Lent {
        records,
        literals,
        names,
        terms,
        symbols,
    });
    if !formed {
        return Err(Refusal::BadStore);
    }
    let added = build::literal_term(
        values, records, literals, names, terms, symbols, i as usize,
    ).ok_or(Refusal::NoRoom)?;
    Ok(CountedBest {
        best: Best {
            cost: 1,
            term: added.term,
            passes: 1,
        },
        terms: added.terms,
        symbols: added.symbols,
    })
}

// The best term of class `c` of `w`, over flat rows and a well-formed store, on lists of the call's own.
fn choose(
    outputs: &[u64],
    heads: &[u64],
    starts: &[usize],
    children: &[u64],
    order: &[u64],
    functions: &[u64],
    labels: &[u8],
    values: &[i64],
    c: usize,
    w: usize,
    store: &mut StoreMut,
) -> Result<Best, Refusal>
    requires { BestReady outputs.now heads.now starts.now children.now order.now functions.now
        labels.now values.now w c (held store.old) }
    ensures loans { SameLoans store.old store.new }
    ensures best { BestAnswers outputs.now heads.now starts.now
        children.now order.now functions.now labels.now
        values.now w c
        (held store.old)
        (seen_best result (held store.new)) }
{
    let mut rows = [0u16; table_layout::ROWS];
    pack::fill(&mut rows, order, functions, outputs, starts, children);
    let mut costs: [u64; 512] = [0; 512];
    let mut ranks: [u64; 512] = [0; 512];
    let mut edges: [u16; 512] = [0; 512];
    let choice = best_class::decide(
        outputs,
        heads,
        starts,
        children,
        &rows,
        labels,
        values,
        c,
        &mut costs[..w],
        &mut ranks[..w],
        &mut edges[..w],
        store,
    );
    choice
}

// The best term of class `c`, over the lists that a table was laid in: `n` rows with `m` children, over `w` classes.
pub fn of_class(
    flat: &[u64],
    heads: &[u64],
    starts: &[usize],
    children: &[u64],
    order: &[u64],
    functions: &[u64],
    labels: &[u8],
    values: &[i64],
    c: u64,
    n: usize,
    m: usize,
    w: usize,
    store: &mut StoreMut,
) -> Result<Best, Refusal>
    requires { SomeClass c n m w order.now flat.now heads.now starts.now children.now functions.now
        labels.now values.now }
    ensures loans { SameLoans store.old store.new }
    ensures best { ClassAnswers c n m w order.now flat.now heads.now
        starts.now children.now functions.now labels.now
        values.now (held store.old)
        (seen_best result (held store.new)) }
{
    if !term_record::check(&store.lent()) {
        return Err(Refusal::BadStore);
    }
    choose(
        &flat[..n],
        &heads[..n],
        &starts[..n + 1],
        &children[..m],
        &order[..n],
        functions,
        labels,
        values,
        c as usize,
        w,
        store,
    )
}
