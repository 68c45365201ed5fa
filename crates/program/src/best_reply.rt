// The text of an answer of best in a lent buffer: the line, the term's text, a newline.
ghost use Rattle.std.specs.Prelude.{◌≡◌, true, ◌<◌, length};
ghost use Rattle.term_layout.specs.Sound.{store_of};
ghost use Rattle.term_rules.specs.Lent.{store};
ghost use Rattle.term_rules.specs.WellFormed.{well_formed};
ghost use Rattle.text_whole.specs.Placed.{answer_of, told};
ghost use Rattle.answer_rules.specs.Answers.{value};
ghost use Rattle.answer_rules.specs.Best.{best_term};
ghost use Rattle.program_rules.specs.Reply.{best_reply, in_room, put_in};
ghost use Rattle.program_rules.specs.Seen.{seen};
ghost use Rattle.program.specs.BestReply.Text.{best_placed};

use program_rules::headlines;
use refusal::Refusal;
use term_layout::store::Store;
use text_whole::Naming;

// Writes the text of term `term`: plain, or with lets, no prefix, hint `t`, start 0, no zero flag.
fn put_text(plain: bool, out: &mut [u8], store: &Store, term: usize) -> Result<usize, Refusal>
    requires term_lt_terms { term < store.now.terms }
    ensures { told (answer_of result) out.new
        ≡ best_placed plain
        (store_of store.now) term
        out.old }
{
    if plain {
        return text_whole::plain_of(out, store, term);
    }
    let naming = Naming {
        prefix: b"",
        hint: b"t",
        start: 0,
        bare: false,
    };
    let text = text_whole::let_of(out, store, term, &naming)?;
    Ok(text.length)
}

// Writes the line `best C N P`, the text of the term and a newline, if they fit. The text goes to its place first,
// which tells whether it fits; the line goes before it then.
pub fn put(
    plain: bool,
    out: &mut [u8],
    store: &Store,
    cost: u64,
    term: usize,
    passes: u64,
) -> Result<usize, Refusal>
    requires term_lt_terms { term < store.now.terms }
    ensures { seen result out.new
        ≡ put_in
        (in_room (length out.old)
        (value
        (best_reply plain
        (store_of store.now)
        (best_term cost term passes)))) out.old }
{
    let h = headlines::best_length(cost, store.terms as u64, passes) as usize;
    if out.len() <= h {
        return Err(Refusal::NoRoom);
    }
    let e = out.len() - 1;
    let n = put_text(plain, &mut out[h..e], store, term)?;
    let z = h + n;
    out[z] = b'\n';
    headlines::put_best(out, cost, store.terms as u64, passes);
    Ok(z + 1)
}
