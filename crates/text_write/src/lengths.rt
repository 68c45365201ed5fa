// The length of a term's text, before a byte of it is written.
ghost use Rattle.std.specs.Prelude.{◌≡◌, ◌+◌, ◌*◌, ◌<◌, ◌≤◌, length};
ghost use Rattle.text_pieces.specs.Pieces.{capped};
ghost use Rattle.text_write.specs.Piece.{piece};
ghost use Rattle.text_write.specs.Seen.{view_of};

use crate::page::Page;
use text_pieces::heads;

// How long what `text_write::put` writes is, cut at 2^63. A term that is shared and has no let name has at most three
// terms in its tree, so no tree is walked twice but those.
pub fn text_length(page: &Page, limit: u64, lim: u64, m: usize, i: usize, t: usize) -> u64
    requires t_lt_n { t < page.now.nodes.n }
    requires t_bound { m + i + 2 * t ≤ 4096 }
    ensures { result
        ≡ capped
        (length
        (piece (view_of page.now limit) lim m i t)) }
{
    let b = page.places[t];
    if lim < b {
        return text_pieces::name_length(&page.spelling, b - 1);
    }
    let mut acc = heads::head_length(&page.nodes, t);
    if term_layout::kind_of(page.nodes.records, t) != 2 {
        return acc;
    }
    let gap = text_pieces::gap_length(limit, i as u64 + page.wides[t], (m + i + 2) as u64);
    let ks = term_layout::children_of(page.nodes.records, t);
    for k in ks {
        let long = text_length(page, limit, 0, m, i + 2, *k as usize);
        acc = text_pieces::add(text_pieces::add(acc, gap), long);
    }
    text_pieces::add(acc, 1)
}
