// Let text on a lent slice of term records and a lent slice of name entries. It copies the records and the entries
// once into arrays of its own, and hands them to the call of the same name in the crate `text`. Assumes nothing.
ghost use Rattle.std.specs.Prelude.{◌≡◌};
ghost use Rattle.text_whole.specs.Placed.{told};
ghost use Rattle.text_whole.specs.LetPlaced.{let_answer_of, naming};
ghost use Rattle.text.specs.LetTold.{let_told};
ghost use Rattle.lent.specs.Records.{lent_store};

use lent::StoreCopy;
use lent_entries::Name;
use refusal::Refusal;
use term_rules::Term;
use text_whole::{LetText, Naming};

// The let text of a term, at the start of `out`, and the next unused count: `to_string_with_let` of src/termdag.rs.
pub fn let_text(
    ts: &[Term],
    ns: &[Name],
    terms: usize,
    symbols: usize,
    term: usize,
    prefix: &[u8],
    hint: &[u8],
    start: u64,
    bare: bool,
    out: &mut [u8],
) -> Result<LetText, Refusal>
    ensures { told (let_answer_of result) out.new
        ≡ let_told (lent_store ts.now ns.now terms symbols)
        (naming prefix.now hint.now start bare) term out.old }
{
    let mut c = StoreCopy::blank();
    lent::copy_of(ts, ns, &mut c);
    let naming = Naming {
        prefix,
        hint,
        start,
        bare,
    };
    text::let_text(&c.lent(terms, symbols), term, &naming, out)
}
