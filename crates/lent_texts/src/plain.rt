// Plain text on a lent slice of term records and a lent slice of name entries. It copies the records and the entries
// once into arrays of its own, and hands them to the call of the same name in the crate `text`.
ghost use Rattle.std.specs.Prelude.{◌≡◌};
ghost use Rattle.text_whole.specs.Placed.{answer_of, told};
ghost use Rattle.text.specs.Told.{plain_told};
ghost use Rattle.lent.specs.Records.{lent_store};

use lent::StoreCopy;
use lent_entries::Name;
use refusal::Refusal;
use term_rules::Term;

// The plain text of a term, at the start of `out`: `to_string` of src/termdag.rs.
pub fn plain_text(
    ts: &[Term],
    ns: &[Name],
    terms: usize,
    symbols: usize,
    term: usize,
    out: &mut [u8],
) -> Result<usize, Refusal>
    ensures { told (answer_of result) out.new
        ≡ plain_told (lent_store ts.now ns.now terms symbols) term out.old }
{
    let mut c = StoreCopy::blank();
    lent::copy_of(ts, ns, &mut c);
    text::plain_text(&c.lent(terms, symbols), term, out)
}
