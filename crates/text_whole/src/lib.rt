// Plain text and let text of a store that is known to be well formed, byte for byte (`src/termdag.rs`, to_string and
// to_string_with_let). An inner crate: `text` tests what it is lent and then calls these, and the program calls them on
// its own store.
#![tactic(auto)]

ghost use Rattle.std.specs.Prelude.{◌≡◌, true, ◌++◌, ◌+◌, ◌-◌, ◌<◌, ◌≤◌, length};
ghost use Rattle.term_layout.specs.Sound.{store_of};
ghost use Rattle.decimal.specs.Written.{Wrote};
ghost use Rattle.name.specs.Name.{valid};
ghost use Rattle.text_rules.specs.PlainText.{plain_line};
ghost use Rattle.text_pieces.specs.Read.{nodes_of};
ghost use Rattle.text_whole.specs.Placed.{answer_of, told, placed, plain_placed, written, refusal, Zeros};
ghost use Rattle.text_whole.specs.LetPlaced.{naming_of, let_answer_of, naming, valid_prefix, let_placed};
ghost use Rattle.text_whole.specs.Laid.{LayableOf, AllMetOf, LaysOf};

use refusal::Refusal;
use term_layout::store::Store;
use text_counts::bindings;
use text_counts::bindings::Found;
use text_lines::{Bindings, lets};
use text_pieces::Spelling;
use text_pieces::nodes::Nodes;
use text_write::page::Page;
use text_write::widths;

// How let names are made: the prefix, the hint and a count, from the start count on; the count 0 may print no digits.
#[derive(Clone, Copy)]
pub struct Naming<'a> {
    pub prefix: &'a [u8],
    pub hint: &'a [u8],
    pub start: u64,
    pub bare: bool,
}

// The length of a let text that was written, and the next unused count.
#[derive(Clone, Copy)]
pub struct LetText {
    pub length: usize,
    pub next: u64,
}

// The plain text of term `t`, if it fits: its length from the table of lengths, then its bytes.
fn put_plain(
    out: &mut [u8],
    nodes: &Nodes,
    places: &[u64],
    wides: &mut [u64],
    t: usize,
) -> Result<usize, Refusal>
    requires t_lt_n { t < nodes.now.n }
    requires n_in_bounds { (nodes.now.n ≤ length places.now) × (nodes.now.n ≤ length wides.old) }
    requires zeros { Zeros places.now }
    ensures { told (answer_of result) out.new
        ≡ placed (plain_line (nodes_of nodes.now) t)
        (written (length (plain_line (nodes_of nodes.now) t)))
        (refusal 13) out.old }
{
    let spelling = Spelling {
        stem: b"",
        start: 0,
        bare: false,
    };
    widths::widths(wides, nodes, places, &spelling);
    if (out.len() as u64) < wides[t] {
        return Err(Refusal::NoRoom);
    }
    let page = Page {
        nodes: *nodes,
        places,
        wides,
        spelling,
    };
    Ok(text_write::put(out, &page, u64::MAX, 0, 0, 0, t))
}

// The plain text of term `term` of a well-formed store, at the start of `out` (`src/termdag.rs`, to_string).
pub fn plain_of(out: &mut [u8], store: &Store, term: usize) -> Result<usize, Refusal>
    requires term_lt_terms { term < store.now.terms }
    ensures { told (answer_of result) out.new
        ≡ plain_placed
        (store_of store.now) term
        out.old }
{
    let nodes = Nodes {
        records: store.records,
        literals: store.literals,
        names: store.names,
        n: term + 1,
    };
    let places = [0u64; 1024];
    let mut wides = [0u64; 1024];
    put_plain(out, &nodes, &places, &mut wides, term)
}

// The let text of the last of the terms from the tables of its bindings, if it fits: the inline lengths, its length,
// then its bytes.
fn put_bound(
    out: &mut [u8],
    nodes: &Nodes,
    places: &[u64],
    wides: &mut [u64],
    spelling: &Spelling,
    bindings: &Bindings,
) -> Result<LetText, Refusal>
    requires layable { LayableOf nodes.now spelling.now }
    requires all_met { AllMetOf nodes.now places.now bindings.now }
    requires n_in_bounds { (nodes.now.n ≤ length places.now)
        × (nodes.now.n ≤ length wides.old)
        × (length bindings.now.terms.now ≤ 1024) }
    ensures { LaysOf nodes.now spelling.now out.old (let_answer_of result) out.new }
{
    widths::widths(wides, nodes, places, spelling);
    let page = Page {
        nodes: *nodes,
        places,
        wides,
        spelling: *spelling,
    };
    let long = lets::let_length(&page, bindings);
    if (out.len() as u64) < long {
        return Err(Refusal::NoRoom);
    }
    let length = lets::put_let(out, &page, bindings);
    let next = spelling.start + bindings.count as u64;
    Ok(LetText { length, next })
}

// The let text of the last of the terms: its bindings in tables of the call's own, then the text.
fn put_let(out: &mut [u8], nodes: &Nodes, spelling: &Spelling) -> Result<LetText, Refusal>
    requires { LayableOf nodes.now spelling.now }
    ensures { LaysOf nodes.now spelling.now out.old (let_answer_of result) out.new }
{
    let mut counts = [0u64; 1024];
    let mut sizes = [0u64; 1024];
    let mut places = [0u64; 1024];
    let mut terms = [0u64; 1024];
    let mut indents = [0u64; 1024];
    let mut wides = [0u64; 1024];
    let mut found = Found {
        places: &mut places,
        terms: &mut terms,
        indents: &mut indents,
        count: 0,
    };
    bindings::bind(nodes.records, &mut counts, &mut sizes, &mut found, nodes.n);
    let count = found.count;
    let bindings = Bindings {
        terms: &terms,
        indents: &indents,
        count,
    };
    put_bound(out, nodes, &places, &mut wides, spelling, &bindings)
}

// Prefix and hint, one after the other.
fn join(stem: &mut [u8], prefix: &[u8], hint: &[u8]) -> usize
    requires { length prefix.now + length hint.now ≤ length stem.old }
    ensures { Wrote (prefix.now ++ hint.now) result stem.old stem.new }
{
    let p = text_pieces::put_bytes(stem, prefix);
    p + text_pieces::put_bytes(&mut stem[p..], hint)
}

// The let text of term `term` of a well-formed store, at the start of `out` (`src/termdag.rs`, to_string_with_let).
pub fn let_of(
    out: &mut [u8],
    store: &Store,
    term: usize,
    naming: &Naming,
) -> Result<LetText, Refusal>
    requires term_lt_terms { term < store.now.terms }
    requires prefix_value { (valid_prefix naming.now.prefix.now ≡ true) × (valid naming.now.hint.now ≡ true) }
    requires start_bound { naming.now.start ≤ 4294966271 }
    ensures { told (let_answer_of result) out.new
        ≡ let_placed
        (store_of store.now)
        (naming_of naming.now) term out.old }
{
    let mut stem = [0u8; 62];
    let e = join(&mut stem, naming.prefix, naming.hint);
    let nodes = Nodes {
        records: store.records,
        literals: store.literals,
        names: store.names,
        n: term + 1,
    };
    let spelling = Spelling {
        stem: &stem[..e],
        start: naming.start,
        bare: naming.bare,
    };
    put_let(out, &nodes, &spelling)
}
