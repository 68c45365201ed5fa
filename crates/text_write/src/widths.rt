// The inline lengths of all terms up to one, children first, each found once and cut at 2^63.
ghost use Rattle.std.specs.Prelude.{◌≡◌, ◌+◌, ◌^◌, ◌<◌, ◌≤◌, length, get_or};
ghost use Rattle.text_rules.specs.Forms.{shown, line};
ghost use Rattle.text_pieces.specs.Pieces.{capped};
ghost use Rattle.text_pieces.specs.Read.{nodes_of};
ghost use Rattle.text_write.specs.Widths.{Widths, ShownWide};
ghost use Rattle.text_write.specs.Seen.{called_of, TablesOf};

use text_pieces::nodes::Nodes;
use text_pieces::{Spelling, heads};

// How long a child is in its parent's line.
fn shown_width(places: &[u64], wides: &[u64], spelling: &Spelling, k: usize) -> u64
    requires k_in_bounds { k < length places.now }
    requires k_in_bounds_2 { k < length wides.now }
    requires k_bound { spelling.now.start + get_or places.now k 0 ≤ 2 ^ 62 }
    ensures { ShownWide (called_of places.now spelling.now k)
        (get_or wides.now k 0) result }
{
    let b = places[k];
    if 0 < b {
        return text_pieces::name_length(spelling, b - 1);
    }
    wides[k]
}

// The inline length of term `t`, from those of the terms below it.
fn width(nodes: &Nodes, places: &[u64], wides: &[u64], spelling: &Spelling, t: usize) -> u64
    requires tables { TablesOf nodes.now places.now wides.now spelling.now }
    requires t_lt_n { t < nodes.now.n }
    requires widths { Widths (nodes_of nodes.now) (called_of places.now spelling.now)
        wides.now t }
    ensures { result
        ≡ capped
        (length
        (line (nodes_of nodes.now)
        (called_of places.now spelling.now) t)) }
{
    let mut acc = heads::head_length(nodes, t);
    if term_layout::kind_of(nodes.records, t) != 2 {
        return acc;
    }
    let ks = term_layout::children_of(nodes.records, t);
    for k in ks {
        let child = shown_width(places, wides, spelling, *k as usize);
        acc = text_pieces::add(text_pieces::add(acc, 1), child);
    }
    text_pieces::add(acc, 1)
}

// Fills the table of inline lengths of the first `n` terms.
pub fn widths(wides: &mut [u64], nodes: &Nodes, places: &[u64], spelling: &Spelling)
    requires { TablesOf nodes.now places.now wides.old spelling.now }
    ensures { Widths (nodes_of nodes.now)
        (called_of places.now spelling.now) wides.new nodes.now.n }
{
    for t in 0..nodes.n {
        wides[t] = width(nodes, places, wides, spelling, t);
    }
}
