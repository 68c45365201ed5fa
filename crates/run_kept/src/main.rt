// The variants of a class by the two calls that take a table laid flat: `variants_root::of_class`, over its lists, and
// `kept_rows::decide`, over its rows packed. The tables are document 01's; `stdout` has for each of the two what
// run_choices has, and by hand what the rules say of one variant at most, of too little room and of a broken store.
#![tactic(auto)]

ghost use Rattle.variants_root.specs.Several.{SomeTable};

use file_rules::Table;
use refusal::Refusal;
use std::io;
use table_layout::pack;
use table_rows::Loaded;
use table_rows::prepare::Flat;
use term_add::store_mut::StoreMut;
use variants_root::Kept;
use variants_root::kept_rows::decide;

// The first `most` variants of class `c` by its rows packed, over the lists that a table was laid in. `decide` asks for
// a well-formed store, so another is refused before it.
fn by_rows(
    flat: &[u64],
    heads: &[u64],
    starts: &[usize],
    children: &[u64],
    order: &[u64],
    table: &Table,
    c: u64,
    laid: Flat,
    most: usize,
    store: &mut StoreMut,
    paid: &mut [u64],
    found: &mut [u64],
) -> Result<Kept, Refusal>
    requires { SomeTable laid.rows laid.children laid.classes order.now flat.now heads.now starts.now children.now
        table.now.rows.functions table.now.functions.names table.now.literals table.now.rows.cells }
{
    if !term_record::check(&store.lent()) {
        return Err(Refusal::BadStore);
    }
    let n = laid.rows;
    let outputs = &flat[..n];
    let heads = &heads[..n];
    let starts = &starts[..n + 1];
    let children = &children[..laid.children];
    let order = &order[..n];
    let mut rows = [0u16; table_layout::ROWS];
    pack::fill(
        &mut rows,
        order,
        &table.rows.functions,
        outputs,
        starts,
        children,
    );
    let mut all_costs: [u64; 512] = [0; 512];
    let mut all_ranks: [u64; 512] = [0; 512];
    let mut all_edges: [u16; 512] = [0; 512];
    let costs = &mut all_costs[..laid.classes];
    let ranks = &mut all_ranks[..laid.classes];
    let edges = &mut all_edges[..laid.classes];
    decide(
        outputs,
        heads,
        starts,
        children,
        &rows,
        &table.functions.names,
        &table.literals,
        &table.rows.cells,
        c as usize,
        most,
        costs,
        ranks,
        edges,
        store,
        paid,
        found,
    )
}

// The first `most` variants of class 0 of sort 0 of a file: by its rows packed, or by its lists.
fn variants(
    file: &[u8],
    most: usize,
    packed: bool,
    store: &mut StoreMut,
    paid: &mut [u64],
    found: &mut [u64],
) -> Result<Kept, Refusal> {
    let mut table = Table::empty();
    let mut order: [u64; 1024] = [0; 1024];
    let mut flat: [u64; 1024] = [0; 1024];
    let mut heads: [u64; 1024] = [0; 1024];
    let mut starts: [usize; 1025] = [0; 1025];
    let mut children: [u64; 8192] = [0; 8192];
    let loaded = table_rows::load(
        file,
        0,
        0,
        &mut table,
        &mut order,
        &mut flat,
        &mut heads,
        &mut starts,
        &mut children,
    )?;
    let Loaded::Class { class, flat: laid } = loaded else {
        return Err(Refusal::BadRoot);
    };
    if packed {
        return by_rows(
            &flat, &heads, &starts, &children, &order, &table, class, laid, most, store, paid,
            found,
        );
    }
    variants_root::of_class(
        &flat,
        &heads,
        &starts,
        &children,
        &order,
        &table.rows.functions,
        &table.functions.names,
        &table.literals,
        &table.rows.cells,
        class,
        laid.rows,
        laid.children,
        laid.classes,
        most,
        store,
        paid,
        found,
    )
}

// Writes the variants over a store with `terms` for its count, into lists of `room` places, nine at most.
fn write_variants(
    rt: &impl Print,
    file: &[u8],
    most: usize,
    packed: bool,
    terms: usize,
    room: usize,
) -> io::Result<()> {
    let mut records = [0u64; 176];
    let mut literals = [0i64; 16];
    let mut names = [0u8; 256];
    let mut paid = [0u64; 9];
    let mut found = [0u64; 9];
    let mut store = StoreMut {
        records: &mut records,
        literals: &mut literals,
        names: &mut names,
        terms,
        symbols: 0,
    };
    let n = room.min(9);
    match variants(
        file,
        most,
        packed,
        &mut store,
        &mut paid[..n],
        &mut found[..n],
    ) {
        Ok(kept) => {
            println!(rt; "variants {} {}", kept.count, kept.passes)?;
            for (i, (cost, term)) in paid.iter().zip(&found).take(kept.count).enumerate() {
                println!(rt; "variant {} {cost} {}", i + 1, store.terms)?;
                let mut out = [0u8; 300];
                let answer = text::plain_text(&store.lent(), *term as usize, &mut out);
                run_output::write_plain(rt, answer, &out)?;
            }
            Ok(())
        }
        Err(refusal) => run_output::write_refusal(rt, refusal),
    }
}

// All of it by one of the two calls.
fn by_one(rt: &impl Print, packed: bool) -> io::Result<()> {
    // Wrap(0)->0 at no cost, then Leaf()->0.
    let zero_loop = [
        16u8, 192, 16, 0, 34, 43, 185, 48, 184, 64, 0, 0, 0, 0, 0, 0, 0, 0, 8, 8, 152, 202, 194,
        204, 0, 0, 8, 0, 0, 0, 2, 0, 0,
    ];
    // Only Wrap(0)->0.
    let only_loop = [
        16u8, 192, 16, 0, 18, 43, 185, 48, 184, 64, 0, 0, 0, 0, 0, 0, 0, 0, 8, 0, 8, 0, 0, 0,
    ];
    write_variants(rt, &zero_loop, 9, packed, 0, 9)?;
    write_variants(rt, &only_loop, 9, packed, 0, 9)?;
    write_variants(rt, &zero_loop, 1, packed, 0, 1)?;
    write_variants(rt, &zero_loop, 9, packed, 0, 1)?;
    write_variants(rt, &zero_loop, 9, packed, 17, 9)
}

fn main(rt: HostRuntime) -> io::Result<()> {
    by_one(&rt, false)?;
    by_one(&rt, true)
}
