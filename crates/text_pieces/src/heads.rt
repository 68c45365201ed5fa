// What a term's text starts with: its length and its bytes, read from the lent store.
ghost use Rattle.std.specs.Prelude.{◌≡◌, ◌≤◌, ◌<◌, length};
ghost use Rattle.decimal.specs.Written.{Wrote};
ghost use Rattle.name.specs.Entries.{name_at, InEntries};
ghost use Rattle.text_pieces.specs.Pieces.{capped};
ghost use Rattle.text_pieces.specs.Readable.{head_text};
ghost use Rattle.text_pieces.specs.Read.{nodes_of};

use crate::nodes::Nodes;

// How long the head of term `t` is.
pub fn head_length(nodes: &Nodes, t: usize) -> u64
    requires t_lt_n { t < nodes.now.n }
    ensures { result ≡ capped
        (length (head_text (nodes_of nodes.now t))) }
{
    let kind = term_layout::kind_of(nodes.records, t);
    if kind == 0 {
        return crate::add(0, decimal::literal_length(nodes.literals[t]));
    }
    let k = term_layout::symbol_of(nodes.records, t) as usize;
    let long = name::length_of(nodes.names, k) as u64;
    if kind == 1 {
        return long;
    }
    long + 1
}

// Writes the name of symbol `k`.
fn put_symbol(out: &mut [u8], names: &[u8], k: usize) -> usize
    requires in_entries { InEntries names.now k }
    requires k_in_bounds { length (name_at names.now k) ≤ length out.old }
    ensures { Wrote (name_at names.now k) result out.old out.new }
{
    crate::put_bytes(out, name::name_of(names, k))
}

// Writes the head of term `t`.
pub fn put_head(out: &mut [u8], nodes: &Nodes, t: usize) -> usize
    requires t_lt_n { t < nodes.now.n }
    requires t_in_bounds { length (head_text (nodes_of nodes.now t)) ≤ length out.old }
    ensures { Wrote (head_text (nodes_of nodes.now t)) result
        out.old out.new }
{
    let kind = term_layout::kind_of(nodes.records, t);
    if kind == 0 {
        return decimal::put_literal(out, nodes.literals[t]);
    }
    let k = term_layout::symbol_of(nodes.records, t) as usize;
    if kind == 1 {
        return put_symbol(out, nodes.names, k);
    }
    out[0] = b'(';
    1 + put_symbol(&mut out[1..], nodes.names, k)
}
