// The lines of the bindings: their lengths, and their bytes.
#![tactic(auto)]

ghost use Rattle.std.specs.Prelude.{◌≡◌, ◌+◌, ◌*◌, ◌^◌, ◌<◌, ◌≤◌, length, get_or};
ghost use Rattle.decimal.specs.Written.{Wrote};
ghost use Rattle.term_rules.specs.Lent.{HasRecord};
ghost use Rattle.text_pieces.specs.Pieces.{capped};
ghost use Rattle.text_pieces.specs.Read.{named};
ghost use Rattle.text_lines.specs.Lines.{body_width, open_text};
ghost use Rattle.text_lines.specs.Bound.{line_of, lines_of, BundleOf};

use text_pieces::Spelling;
use text_write::lengths;
use text_write::page::Page;

pub mod lets; // lets.rt: the whole let text from its tables: its length, and its bytes

// The terms that are bound, each with the indent at which it was met: the first `count` of both tables.
#[derive(Clone, Copy)]
pub struct Bindings<'a> {
    pub terms: &'a [u64],
    pub indents: &'a [u64],
    pub count: usize,
}

// The width that decides whether a body at indent `i` is broken.
fn body_width(records: &[u64], wides: &[u64], i: usize, t: usize) -> u64
    requires has_record { HasRecord records.now t }
    requires t_in_bounds { t < length wides.now }
    requires t_bound { i + get_or wides.now t 0 < 2 ^ 64 }
    ensures { result ≡ body_width records.now wides.now i t }
{
    if term_layout::count_of(records, t) == 0 {
        return 0;
    }
    i as u64 + wides[t]
}

// Writes `(let ` and the name of binding `k`.
fn put_open(out: &mut [u8], spelling: &Spelling, k: u64) -> usize
    requires k_bound { spelling.now.start + k < 2 ^ 63 }
    requires k_in_bounds { length (open_text (named spelling.now k)) ≤ length out.old }
    ensures { Wrote (open_text (named spelling.now k)) result out.old out.new }
{
    let p = text_pieces::put_bytes(out, b"(let ");
    p + text_pieces::put_name(&mut out[p..], spelling, k)
}

// How long the line of binding `k` is.
fn line_length(page: &Page, k: u64, i: usize, t: usize) -> u64
    requires t_lt_n { t < page.now.nodes.n }
    requires t_bound { 2 + i + 2 * t ≤ 4096 }
    requires k_bound { page.now.spelling.start + k < 2 ^ 63 }
    ensures { result
        ≡ capped
        (length
        (line_of page.now i t k)) }
{
    let own = u64::MAX;
    let opened = text_pieces::add(5, text_pieces::name_length(&page.spelling, k));
    let gap = text_pieces::gap_length(80, body_width(page.nodes.records, page.wides, i, t), 2);
    let body = lengths::text_length(page, 80, own, 2, i, t);
    text_pieces::add(text_pieces::add(text_pieces::add(opened, gap), body), 2)
}

// Writes the line of binding `k`.
fn put_line(out: &mut [u8], page: &Page, k: u64, i: usize, t: usize) -> usize
    requires t_lt_n { t < page.now.nodes.n }
    requires t_bound { 2 + i + 2 * t ≤ 4096 }
    requires k_bound { page.now.spelling.start + k < 2 ^ 63 }
    requires k_in_bounds { length
        (line_of page.now i t k)
        ≤ length out.old }
    ensures { Wrote
        (line_of page.now i t k) result
        out.old out.new }
{
    let own = u64::MAX;
    let width = body_width(page.nodes.records, page.wides, i, t);
    let mut p = put_open(out, &page.spelling, k);
    p += text_pieces::put_gap(&mut out[p..], 80, width, 2);
    p += text_write::put(&mut out[p..], page, 80, own, 2, i, t);
    out[p] = b')';
    out[p + 1] = b'\n';
    p + 2
}

// How long the lines of the bindings are.
pub fn lines_length(page: &Page, bindings: &Bindings) -> u64
    requires bundle { BundleOf bindings.now page.now.nodes.n page.now.spelling.start }
    ensures { result
        ≡ capped
        (length
        (lines_of page.now bindings.now)) }
{
    let mut acc = 0;
    for k in 0..bindings.count {
        let i = bindings.indents[k] as usize;
        let t = bindings.terms[k] as usize;
        let long = line_length(page, k as u64, i, t);
        acc = text_pieces::add(acc, long);
    }
    acc
}

// Writes the lines of the bindings.
pub fn put_lines(out: &mut [u8], page: &Page, bindings: &Bindings) -> usize
    requires bundle { BundleOf bindings.now page.now.nodes.n page.now.spelling.start }
    requires m_in_bounds { length
        (lines_of page.now bindings.now)
        ≤ length out.old }
    ensures { Wrote
        (lines_of page.now bindings.now) result out.old out.new }
{
    let mut p = 0;
    for k in 0..bindings.count {
        let i = bindings.indents[k] as usize;
        let t = bindings.terms[k] as usize;
        p += put_line(&mut out[p..], page, k as u64, i, t);
    }
    p
}
