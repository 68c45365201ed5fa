// The small pieces that texts are made of: bytes, let names, gaps; each with its length, cut at 2^63.
#![tactic(auto)]

ghost use Rattle.std.specs.Prelude.{◌≡◌, ◌&&◌, ◌+◌, ◌^◌, ◌<◌, ◌≤◌, length, eqb, ltb};
ghost use Rattle.decimal.specs.Written.{Wrote};
ghost use Rattle.text_rules.specs.LetText.{count_text};
ghost use Rattle.text_pieces.specs.Pieces.{capped, gap_text};
ghost use Rattle.text_pieces.specs.Read.{named};

pub mod nodes; // nodes.rt: the first terms of a store, as the texts read them
pub mod heads; // heads.rt: what a term's text starts with: its length and its bytes, read from the lent store

// How let names are spelled: a stem and a count, from the start count on; the count 0 may print no digits.
#[derive(Clone, Copy)]
pub struct Spelling<'a> {
    pub stem: &'a [u8],
    pub start: u64,
    pub bare: bool,
}

const CAP: u64 = 9223372036854775808;

// The sum of two lengths.
pub fn add(a: u64, b: u64) -> u64
    ensures { result ≡ capped (a + b) }
{
    a.saturating_add(b).min(CAP)
}

// Writes the bytes `s`, one by one: a copy of so many bytes by std's method needs `memmove` of the C library.
pub fn put_bytes(out: &mut [u8], s: &[u8]) -> usize
    requires { length s.now ≤ length out.old }
    ensures { Wrote s.now result out.old out.new }
{
    for j in 0..s.len() {
        out[j] = s[j];
    }
    s.len()
}

// Whether the count `n` prints no digits.
fn is_bare(bare: bool, n: u64) -> bool
    ensures { result ≡ (bare && eqb n 0) }
{
    bare && n == 0
}

fn count_length(bare: bool, n: u64) -> u64
    ensures { result ≡ length (count_text bare n) }
{
    if is_bare(bare, n) {
        return 0;
    }
    decimal::digits_length(n)
}

fn put_count(out: &mut [u8], bare: bool, n: u64) -> usize
    requires { length (count_text bare n) ≤ length out.old }
    ensures { Wrote (count_text bare n) result out.old out.new }
{
    if is_bare(bare, n) {
        return 0;
    }
    decimal::put_digits(out, n)
}

// How long the name of binding `k` is (`src/util.rs`, SymbolGen).
pub fn name_length(spelling: &Spelling, k: u64) -> u64
    requires { spelling.now.start + k < 2 ^ 63 }
    ensures { result ≡ capped (length (named spelling.now k)) }
{
    add(
        spelling.stem.len() as u64,
        count_length(spelling.bare, spelling.start + k),
    )
}

// Writes the name of binding `k` (`src/util.rs`, SymbolGen).
pub fn put_name(out: &mut [u8], spelling: &Spelling, k: u64) -> usize
    requires k_bound { spelling.now.start + k < 2 ^ 63 }
    requires k_in_bounds { length (named spelling.now k) ≤ length out.old }
    ensures { Wrote (named spelling.now k) result out.old out.new }
{
    let p = put_bytes(out, spelling.stem);
    p + put_count(&mut out[p..], spelling.bare, spelling.start + k)
}

// How long the gap before a child is, in a text of this width.
pub fn gap_length(limit: u64, width: u64, n: u64) -> u64
    requires { n < 2 ^ 63 }
    ensures { result ≡ length (gap_text (ltb limit width) n) }
{
    if limit < width { n + 1 } else { 1 }
}

// Writes the gap before a child: a space, or a new line of `n` spaces where the text is wider than the limit.
pub fn put_gap(out: &mut [u8], limit: u64, width: u64, n: usize) -> usize
    requires { length (gap_text (ltb limit width) n) ≤ length out.old }
    ensures { Wrote (gap_text (ltb limit width) n) result out.old out.new }
{
    if width <= limit {
        out[0] = b' ';
        return 1;
    }
    out[0] = b'\n';
    out[1..=n].fill(b' ');
    n + 1
}
