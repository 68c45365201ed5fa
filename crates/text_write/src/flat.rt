// The writer, and the pass over the inline lengths, for a caller that has the lists and not a page of them.
ghost use Rattle.std.specs.Prelude.{◌+◌, ◌*◌, ◌<◌, ◌≤◌, length};
ghost use Rattle.decimal.specs.Written.{Wrote};
ghost use Rattle.text_pieces.specs.Readable.{nodes};
ghost use Rattle.text_write.specs.Piece.{piece, view, Sheet};
ghost use Rattle.text_write.specs.Widths.{called_by, Widths, Tables};

use crate::page::Page;
use text_pieces::Spelling;
use text_pieces::nodes::Nodes;

// `text_write::put` of a page of these lists.
pub fn put<'a>(
    out: &mut [u8],
    records: &'a [u64],
    literals: &'a [i64],
    names: &'a [u8],
    places: &'a [u64],
    wides: &'a [u64],
    stem: &'a [u8],
    n: usize,
    start: u64,
    bare: bool,
    limit: u64,
    lim: u64,
    m: usize,
    i: usize,
    t: usize,
) -> usize
    requires sheet { Sheet records.now literals.now names.now places.now wides.now n start }
    requires t_lt_n { t < n }
    requires t_bound { m + i + 2 * t ≤ 4096 }
    requires t_in_bounds { length
        (piece
        (view records.now literals.now names.now places.now wides.now stem.now start bare limit) lim m i t)
        ≤ length out.old }
    ensures { Wrote
        (piece
        (view records.now literals.now names.now places.now
        wides.now stem.now start bare limit) lim m i t) result out.old out.new }
{
    let nodes = Nodes {
        records,
        literals,
        names,
        n,
    };
    let page = Page {
        nodes,
        places,
        wides,
        spelling: Spelling { stem, start, bare },
    };
    crate::put(out, &page, limit, lim, m, i, t)
}

// `widths::widths` of terms in these lists.
pub fn widths<'a>(
    wides: &mut [u64],
    records: &'a [u64],
    literals: &'a [i64],
    names: &'a [u8],
    places: &'a [u64],
    stem: &'a [u8],
    n: usize,
    start: u64,
    bare: bool,
)
    requires { Tables records.now literals.now names.now places.now wides.old n start }
    ensures { Widths (nodes records.now literals.now names.now)
        (called_by places.now stem.now start bare) wides.new n }
{
    let nodes = Nodes {
        records,
        literals,
        names,
        n,
    };
    crate::widths::widths(wides, &nodes, places, &Spelling { stem, start, bare });
}
