// A root of a table file: what is chosen of it for its variants, and their answer by what was chosen. `extract` makes both
// calls one after the other, and `program` its store between them. (src/extract.rs, extract_variants_with_sort)
#![tactic(auto)]

ghost use Rattle.std.specs.Prelude.{◌≡◌};
ghost use Rattle.term_rules.specs.WellFormed.{well_formed};
ghost use Rattle.term_layout.specs.Sound.{lent_of};
ghost use Rattle.term_add.specs.Held.{held, SameLoans};
ghost use Rattle.answer_rules.specs.Variants.{variants_at};
ghost use Rattle.variant_answers.specs.Kept.{lending};
ghost use Rattle.variants_root.specs.Several.{seen_variants};
ghost use Rattle.variants_root.specs.Chosen.{ZeroRanks};
ghost use Rattle.table_roots.specs.Chosen.{ChosenFor, SomeChosen, ChosenAnswers};

use build::plan::Plan;
use file_rules::Table;
use refusal::Refusal;
use table_rows::Loaded;
use term_add::store_mut::StoreMut;
use term_layout::lent::Lent;
use variants_root::{Choice, Kept};

// What a root asks for, once its rows are chosen: a literal's index, or what is chosen of a class, of so many classes.
#[derive(Clone, Copy)]
pub enum Chosen {
    Literal(u64),
    Class { choice: Choice, classes: usize },
}

// What is chosen of the root for at most `most` variants of any store that is well formed, if the one that is lent is.
// The first fault of the file, else BadRoot, else BadStore for a class. The table and its flat lists are this
// function's own and end with it, so that they do not stand beside the copy of the store that the terms are built over;
// of the table the names and the literals are read then, and are copied out.
#[inline(never)]
pub fn choose_rows(
    file: &[u8],
    sort: u64,
    value: u64,
    most: usize,
    store: &Lent,
    rows: &mut [u16; table_layout::ROWS],
    ranks: &mut [u64; 512],
    edges: &mut [u16; 512],
    prices: &mut [u64; 1024],
    list: &mut [u64; 1024],
    labels: &mut [u8; name::TABLE],
    values: &mut [i64; 512],
) -> Result<Chosen, Refusal>
    requires { ZeroRanks ranks.old }
    ensures { ChosenFor result rows.new edges.new ranks.new labels.new values.new prices.new list.new
        (well_formed (lent_of store.now))
        (variants_at file.now sort value most) }
{
    let mut table = Table::empty();
    let mut order: [u64; 1024] = [0; 1024];
    let mut flat: [u64; 1024] = [0; 1024];
    let mut heads: [u64; 1024] = [0; 1024];
    let mut starts: [usize; 1025] = [0; 1025];
    let mut children: [u64; 8192] = [0; 8192];
    let loaded = table_rows::load(
        file,
        sort,
        value,
        &mut table,
        &mut order,
        &mut flat,
        &mut heads,
        &mut starts,
        &mut children,
    )?;
    *labels = table.functions.names;
    *values = table.literals;
    match loaded {
        Loaded::Literal(i) => Ok(Chosen::Literal(i)),
        Loaded::Class { class, flat: laid } => {
            let choice = variants_root::choose_class(
                &flat,
                &heads,
                &starts,
                &children,
                &order,
                &table.rows.functions,
                &table.functions.names,
                &table.rows.cells,
                class,
                laid.rows,
                laid.children,
                most,
                store,
                rows,
                &mut ranks[..laid.classes],
                &mut edges[..laid.classes],
                prices,
                list,
            )?;
            Ok(Chosen::Class {
                choice,
                classes: laid.classes,
            })
        }
    }
}

// The variants by what was chosen, over a store for which it was: TooDear and NoRoom, or BadStore for a literal, else
// how many are kept: their costs at the front of `costs`, and the numbers of their terms in the store at the front of
// `found`.
#[inline(never)]
pub fn answer_rows(
    root: Chosen,
    rows: &[u16; table_layout::ROWS],
    ranks: &[u64; 512],
    edges: &[u16; 512],
    prices: &[u64; 1024],
    list: &[u64; 1024],
    labels: &[u8; name::TABLE],
    values: &[i64; 512],
    store: &mut StoreMut,
    costs: &mut [u64],
    found: &mut [u64],
) -> Result<Kept, Refusal>
    requires { SomeChosen root rows.now edges.now ranks.now labels.now values.now prices.now list.now
        (held store.old) }
    ensures loans { SameLoans store.old store.new }
    ensures variants { ChosenAnswers root rows.now edges.now ranks.now labels.now values.now prices.now list.now
        (lending (held store.old)
        costs.old found.old)
        (seen_variants result (held store.new)
        costs.new found.new) }
{
    match root {
        Chosen::Literal(i) => {
            let terms = store.terms;
            let symbols = store.symbols;
            let records = &mut *store.records;
            let literals = &mut *store.literals;
            let names = &mut *store.names;
            let counted = variants_root::of_literal(
                values, i, records, literals, names, terms, symbols, costs, found,
            )?;
            store.terms = counted.terms;
            store.symbols = counted.symbols;
            Ok(counted.kept)
        }
        Chosen::Class { choice, classes } => variant_answers::answer(
            &Plan {
                rows,
                edges: &edges[..classes],
                labels,
                values,
            },
            &ranks[..classes],
            prices,
            &list[..choice.count],
            choice.passes,
            store,
            costs,
            found,
        ),
    }
}
