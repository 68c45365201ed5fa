// Both texts for callers in C, on an array of term structs and an array of name entries: a length, or a refusal's
// number below zero. Assumed of the caller: what include/needlevale.h says of its buffers.
ghost use Rattle.lent.specs.Records.{lent_store};
ghost use Rattle.text.specs.Told.{plain_told};
ghost use Rattle.text_whole.specs.LetPlaced.{naming};
ghost use Rattle.text.specs.LetTold.{let_told};
ghost use Rattle.needlevale_c.specs.Texts.{Writes, WritesLets};

use c_told::texts;
use c_told::texts::LetLength;
use lent_entries::Name;
use lent_texts::{lets, plain};
use term_rules::Term;

// The plain text of a term, at the start of `out`: its length.
#[unsafe(no_mangle)]
pub extern "C" fn needlevale_plain_text(
    ts: &[Term],
    ns: &[Name],
    terms: usize,
    symbols: usize,
    term: usize,
    out: &mut [u8],
) -> i64
    ensures { Writes (plain_told (lent_store ts.now ns.now terms symbols) term out.old) result
        out.new }
{
    let r = plain::plain_text(ts, ns, terms, symbols, term, out);
    texts::told_text(r)
}

// The let text of a term, at the start of `out`: its length and the next unused count.
#[unsafe(no_mangle)]
pub extern "C" fn needlevale_let_text(
    ts: &[Term],
    ns: &[Name],
    terms: usize,
    symbols: usize,
    term: usize,
    prefix: &[u8],
    hint: &[u8],
    start: u64,
    bare: bool,
    out: &mut [u8],
) -> LetLength
    ensures { WritesLets (let_told (lent_store ts.now ns.now terms symbols)
        (naming prefix.now hint.now start bare) term out.old) result
        out.new }
{
    let r = lets::let_text(ts, ns, terms, symbols, term, prefix, hint, start, bare, out);
    texts::told_lets(r)
}
