// The variants of a root, once a table is laid flat: a literal's one, or a class's, over a lent store; or what is
// chosen of a class alone, which `variant_answers` answers by. A refusal leaves what is lent of the store as it was.
// (src/extract.rs, extract_variants_with_sort)
#![tactic(auto)]

ghost use Rattle.std.specs.Prelude.{◌≡◌, ◌<◌, ◌≤◌, pos, length, get_or};
ghost use Rattle.term_rules.specs.Lent.{store};
ghost use Rattle.term_rules.specs.WellFormed.{well_formed};
ghost use Rattle.term_layout.specs.Sound.{lent_of};
ghost use Rattle.term_add.specs.Held.{held, SameLoans};
ghost use Rattle.variant_answers.specs.Kept.{lending};
ghost use Rattle.variants_root.specs.Several.{seen_variants, seen_counted, literal_answer, LaidTable};
ghost use Rattle.variants_root.specs.Several.{SomeTable, ClassAnswers};
ghost use Rattle.variants_root.specs.Chosen.{ZeroRanks, ClassChosen};

use build::plan::Plan;
use refusal::Refusal;
use table_layout::pack;
use term_add::store_mut::StoreMut;
use term_layout::lent::Lent;
pub use variant_answers::Kept;

pub mod kept_rows; // kept_rows.rt: the rows of a class that are kept, over flat rows, and the variants by them

// How many rows are kept of a class, and the passes.
#[derive(Clone, Copy)]
pub struct Choice {
    pub count: usize,
    pub passes: u64,
}

// What is kept, and how many terms and symbols the store has then.
#[derive(Clone, Copy)]
pub struct CountedKept {
    pub kept: Kept,
    pub terms: usize,
    pub symbols: usize,
}

// The one variant of literal `i`, for a caller that lends its names to be read alone: a base root costs 1, and one
// pass changes nothing.
pub fn of_literal(
    values: &[i64],
    i: u64,
    records: &mut [u64],
    literals: &mut [i64],
    names: &[u8],
    terms: usize,
    symbols: usize,
    paid: &mut [u64],
    found: &mut [u64],
) -> Result<CountedKept, Refusal>
    requires { i < length values.now }
    ensures { seen_counted result terms symbols records.new literals.new names.now
        paid.new found.new
        ≡ literal_answer (get_or values.now i (pos 0))
        (lending (store records.old literals.old names.now terms symbols)
        paid.old found.old) }
{
    let formed = term_record::check(&Lent {
        records,
        literals,
        names,
        terms,
        symbols,
    });
    if !formed {
        return Err(Refusal::BadStore);
    }
    if paid.len() == 0 {
        return Err(Refusal::NoRoom);
    }
    if found.len() == 0 {
        return Err(Refusal::NoRoom);
    }
    let added = build::literal_term(
        values, records, literals, names, terms, symbols, i as usize,
    ).ok_or(Refusal::NoRoom)?;
    paid[0] = 1;
    found[0] = added.term as u64;
    Ok(CountedKept {
        kept: Kept {
            count: 1,
            passes: 1,
        },
        terms: added.terms,
        symbols: added.symbols,
    })
}

// What is chosen of class `c` for at most `most` variants, over the lists that a table was laid in: `n` rows with `m`
// children. A store that is not well formed is refused. `ranks` and `edges` have a place for each class.
pub fn choose_class(
    flat: &[u64],
    heads: &[u64],
    starts: &[usize],
    children: &[u64],
    order: &[u64],
    functions: &[u64],
    labels: &[u8],
    cells: &[u64],
    c: u64,
    n: usize,
    m: usize,
    most: usize,
    store: &Lent,
    rows: &mut [u16],
    ranks: &mut [u64],
    edges: &mut [u16],
    prices: &mut [u64],
    list: &mut [u64],
) -> Result<Choice, Refusal>
    requires table { LaidTable n m (length ranks.old) order.now flat.now heads.now starts.now children.now
        functions.now labels.now cells.now }
    requires ranks_zero { ZeroRanks ranks.old }
    requires as_many_edges { length edges.old ≡ length ranks.old }
    requires rows_room { length rows.old ≡ 12288 }
    requires prices_room { 1024 ≤ length prices.old }
    requires list_room { length list.old ≡ 1024 }
    ensures { ClassChosen n m (length ranks.old) order.now flat.now heads.now starts.now children.now
        functions.now labels.now cells.now c most
        (well_formed (lent_of store.now))
        result rows.new edges.new ranks.new prices.new list.new }
{
    if !term_record::check(store) {
        return Err(Refusal::BadStore);
    }
    let w = ranks.len();
    let mut costs: [u64; 512] = [0; 512];
    pack::fill(
        rows,
        &order[..n],
        functions,
        &flat[..n],
        &starts[..n + 1],
        &children[..m],
    );
    Ok(kept_rows::keep(
        &flat[..n],
        &heads[..n],
        &starts[..n + 1],
        &children[..m],
        rows,
        labels,
        cells,
        c as usize,
        most,
        &mut costs[..w],
        ranks,
        edges,
        prices,
        list,
    ))
}

// The first `most` variants of class `c`, over the lists that a table was laid in: `n` rows with `m` children, over
// `w` classes. It is `choose_class` and `variant_answers::answer` in one, for a caller that has its store while it
// chooses.
pub fn of_class(
    flat: &[u64],
    heads: &[u64],
    starts: &[usize],
    children: &[u64],
    order: &[u64],
    functions: &[u64],
    labels: &[u8],
    values: &[i64],
    cells: &[u64],
    c: u64,
    n: usize,
    m: usize,
    w: usize,
    most: usize,
    store: &mut StoreMut,
    paid: &mut [u64],
    found: &mut [u64],
) -> Result<Kept, Refusal>
    requires { SomeTable n m w order.now flat.now heads.now starts.now children.now functions.now
        labels.now values.now cells.now }
    ensures loans { SameLoans store.old store.new }
    ensures variants { ClassAnswers n m w order.now flat.now heads.now
        starts.now children.now functions.now labels.now
        values.now cells.now c most
        (lending (held store.old)
        paid.old found.old)
        (seen_variants result (held store.new)
        paid.new found.new) }
{
    let mut rows = [0u16; table_layout::ROWS];
    let mut all_ranks: [u64; 512] = [0; 512];
    let mut all_edges: [u16; 512] = [0; 512];
    let mut prices = [0u64; 1024];
    let mut list = [0u64; 1024];
    let ranks = &mut all_ranks[..w];
    let edges = &mut all_edges[..w];
    let choice = choose_class(
        flat,
        heads,
        starts,
        children,
        order,
        functions,
        labels,
        cells,
        c,
        n,
        m,
        most,
        &store.lent(),
        &mut rows,
        ranks,
        edges,
        &mut prices,
        &mut list,
    )?;
    let plan = Plan {
        rows: &rows,
        edges,
        labels,
        values,
    };
    variant_answers::answer(
        &plan,
        ranks,
        &prices,
        &list[..choice.count],
        choice.passes,
        store,
        paid,
        found,
    )
}
