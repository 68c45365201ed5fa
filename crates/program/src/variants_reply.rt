// The text of an answer of variants in a lent buffer: its length first, then its bytes.
ghost use Rattle.std.specs.Prelude.{◌≡◌, true, length};
ghost use Rattle.term_layout.specs.Sound.{store_of};
ghost use Rattle.term_rules.specs.Lent.{store};
ghost use Rattle.term_rules.specs.WellFormed.{well_formed};
ghost use Rattle.text_pieces.specs.Readable.{nodes};
ghost use Rattle.answer_rules.specs.Answers.{value};
ghost use Rattle.program.specs.Replies.{PlainSheet, Within};
ghost use Rattle.program_rules.specs.Reply.{variants_text, in_room, put_in};
ghost use Rattle.program_rules.specs.Seen.{seen};
ghost use Rattle.program.specs.VariantsReply.Text.{lines_text};

use crate::variant_lines;
use program_rules::headlines;
use refusal::Refusal;
use term_layout::store::Store;
use text_write::flat;

// Writes the text, if it fits, by the table of plain lengths.
fn put_lines(
    out: &mut [u8],
    records: &[u64],
    literals: &[i64],
    names: &[u8],
    places: &[u64],
    wides: &[u64],
    n: usize,
    costs: &[u64],
    terms: &[u64],
    k: usize,
    passes: u64,
) -> Result<usize, Refusal>
    requires plain_sheet { PlainSheet records.now literals.now names.now places.now wides.now n }
    requires within { Within costs.now terms.now n k }
    ensures { seen result out.new
        ≡ put_in
        (in_room (length out.old)
        (value
        (lines_text (nodes records.now literals.now names.now) n costs.now
        terms.now k passes))) out.old }
{
    let head = headlines::variants_length(k as u64, passes);
    let rest = variant_lines::texts_length(
        records, literals, names, places, wides, n, costs, terms, k,
    );
    if (out.len() as u64) < text_pieces::add(rest, head) {
        return Err(Refusal::NoRoom);
    }
    let p = headlines::put_variants(out, k as u64, passes);
    let e = variant_lines::put_texts(
        out, p, records, literals, names, places, wides, n, costs, terms, k,
    );
    Ok(e)
}

// Writes the text of `k` variants, of the costs and terms given, if it fits.
pub fn put(
    out: &mut [u8],
    store: &Store,
    costs: &[u64],
    found: &[u64],
    k: usize,
    passes: u64,
) -> Result<usize, Refusal>
    requires within { Within costs.now found.now store.now.terms k }
    ensures { seen result out.new
        ≡ put_in
        (in_room (length out.old)
        (value
        (variants_text
        (store_of store.now)
        costs.now found.now k passes))) out.old }
{
    let places = [0u64; 1024];
    let mut wides = [0u64; 1024];
    flat::widths(
        &mut wides,
        store.records,
        store.literals,
        store.names,
        &places,
        store.names,
        store.terms,
        0,
        false,
    );
    put_lines(
        out,
        store.records,
        store.literals,
        store.names,
        &places,
        &wides,
        store.terms,
        costs,
        found,
        k,
        passes,
    )
}
