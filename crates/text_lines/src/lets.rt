// The whole let text from its tables: its length, and its bytes.
ghost use Rattle.std.specs.Prelude.{◌≡◌, ◌<◌, ◌≤◌, length};
ghost use Rattle.decimal.specs.Written.{Wrote};
ghost use Rattle.text_pieces.specs.Pieces.{capped};
ghost use Rattle.text_lines.specs.Bound.{whole_of, BundleOf};

use crate::Bindings;
use text_write::lengths;
use text_write::page::Page;

// How long the let text of the page's last term is, with these bindings.
pub fn let_length(page: &Page, bindings: &Bindings) -> u64
    requires n_nonzero { 0 < page.now.nodes.n }
    requires bundle { BundleOf bindings.now page.now.nodes.n page.now.spelling.start }
    ensures { result
        ≡ capped
        (length
        (whole_of page.now bindings.now)) }
{
    let own = u64::MAX;
    let t = page.nodes.n - 1;
    let lines = crate::lines_length(page, bindings);
    let root = lengths::text_length(page, 80, own, 0, 0, t);
    text_pieces::add(text_pieces::add(lines, 1), root)
}

// Writes the let text of the page's last term, with these bindings.
pub fn put_let(out: &mut [u8], page: &Page, bindings: &Bindings) -> usize
    requires n_nonzero { 0 < page.now.nodes.n }
    requires bundle { BundleOf bindings.now page.now.nodes.n page.now.spelling.start }
    requires m_in_bounds { length
        (whole_of page.now bindings.now)
        ≤ length out.old }
    ensures { Wrote
        (whole_of page.now bindings.now) result out.old out.new }
{
    let own = u64::MAX;
    let t = page.nodes.n - 1;
    let mut p = crate::put_lines(out, page, bindings);
    out[p] = b'\n';
    p += 1;
    p + text_write::put(&mut out[p..], page, 80, own, 0, 0, t)
}
