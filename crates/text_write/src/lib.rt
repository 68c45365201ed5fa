// The one writer of a term's text.
#![tactic(auto)]

ghost use Rattle.std.specs.Prelude.{◌+◌, ◌*◌, ◌<◌, ◌≤◌, length};
ghost use Rattle.decimal.specs.Written.{Wrote};
ghost use Rattle.text_write.specs.Piece.{piece};
ghost use Rattle.text_write.specs.Seen.{view_of};

use crate::page::Page;
use text_pieces::heads;

pub mod page; // page.rt: what a text is written from: terms, tables of places and inline lengths, let names
pub mod flat; // flat.rt: the writer, and the pass over the inline lengths, for a caller that has the lists and not a page of them
pub mod widths; // widths.rt: the inline lengths of all terms up to one, children first, each found once and cut at 2^63
pub mod lengths; // lengths.rt: the length of a term's text, before a byte of it is written

// Writes term `t` at indent `i`, `m` more spaces after each newline: its let name, if its place is above `lim`, or
// its own text (`src/termdag.rs`, to_string and to_string_with_let).
pub fn put(out: &mut [u8], page: &Page, limit: u64, lim: u64, m: usize, i: usize, t: usize) -> usize
    requires t_lt_n { t < page.now.nodes.n }
    requires t_bound { m + i + 2 * t ≤ 4096 }
    requires t_in_bounds { length
        (piece (view_of page.now limit) lim m i t)
        ≤ length out.old }
    ensures { Wrote
        (piece (view_of page.now limit) lim m i t) result out.old out.new }
{
    let b = page.places[t];
    if lim < b {
        return text_pieces::put_name(out, &page.spelling, b - 1);
    }
    let mut p = heads::put_head(out, &page.nodes, t);
    if term_layout::kind_of(page.nodes.records, t) != 2 {
        return p;
    }
    let width = i as u64 + page.wides[t];
    let ks = term_layout::children_of(page.nodes.records, t);
    for k in ks {
        p += text_pieces::put_gap(&mut out[p..], limit, width, m + i + 2);
        p += put(&mut out[p..], page, limit, 0, m, i + 2, *k as usize);
    }
    out[p] = b')';
    p + 1
}
