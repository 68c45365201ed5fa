// Plain text and let text, byte for byte (`src/termdag.rs`, to_string and to_string_with_let). Every call checks what
// it is lent for itself, and a refusal leaves all of it as it was.
#![tactic(auto)]

ghost use Rattle.std.specs.Prelude.{◌≡◌, MatchResult, IfOk};
ghost use Rattle.term_layout.specs.Sound.{lent_of, store_of};
ghost use Rattle.text_whole.specs.Placed.{answer_of, told};
ghost use Rattle.text_whole.specs.LetPlaced.{let_answer_of, naming_of, valid_prefix};
ghost use Rattle.text.specs.Told.{plain_told};
ghost use Rattle.text.specs.LetTold.{let_told};
ghost use Rattle.text.specs.Checks.{Held, Unheld, Taken, Untaken};

use refusal::Refusal;
use term_layout::lent::Lent;
use term_layout::store::Store;
use text_whole::{LetText, Naming};

// The last count that let names may start from: every later count then stays below 2^32.
const LAST_START: u64 = 4294966271;

// What each call asks first: a well-formed store, and a term of it.
fn check_term<'a>(lent: &Lent<'a>, term: usize) -> Result<Store<'a>, Refusal>
    ensures checked { MatchResult result
        (λ done. Held (lent_of lent.now) term)
        (λ why. Unheld (lent_of lent.now) term why) }
    ensures same { IfOk result (λ s. store_of s ≡ lent_of lent.now) }
{
    let store = term::check_store(lent)?;
    if store.terms <= term {
        return Err(Refusal::BadTerm);
    }
    Ok(store)
}

// The plain text of a term, at the start of `out`.
pub fn plain_text(lent: &Lent, term: usize, out: &mut [u8]) -> Result<usize, Refusal>
    ensures { told (answer_of result) out.new
        ≡ plain_told
        (lent_of lent.now) term
        out.old }
{
    let store = check_term(lent, term)?;
    text_whole::plain_of(out, &store, term)
}

// Whether `s` may be a let prefix: a name, or empty.
fn is_prefix(s: &[u8]) -> bool
    ensures { result ≡ valid_prefix s.now }
{
    s.len() <= 31 && name::all_allowed(s)
}

// What a let text asks of its names: a prefix and a hint that can be taken, and a start count with room above it.
fn check_naming(naming: &Naming) -> Result<(), Refusal>
    ensures { MatchResult result
        (λ done. Taken naming.now.prefix.now naming.now.hint.now naming.now.start)
        (λ why. Untaken naming.now.prefix.now naming.now.hint.now naming.now.start why) }
{
    if !is_prefix(naming.prefix) {
        return Err(Refusal::BadName);
    }
    if !name::is_valid(naming.hint) {
        return Err(Refusal::BadName);
    }
    if LAST_START < naming.start {
        return Err(Refusal::BadSize);
    }
    Ok(())
}

// The let text of a term, at the start of `out`. Let names are prefix, hint and a count, from `start` on; with `bare`
// the count 0 prints no digits.
pub fn let_text(
    lent: &Lent,
    term: usize,
    naming: &Naming,
    out: &mut [u8],
) -> Result<LetText, Refusal>
    ensures { told (let_answer_of result) out.new
        ≡ let_told
        (lent_of lent.now)
        (naming_of naming.now) term out.old }
{
    let store = check_term(lent, term)?;
    check_naming(naming)?;
    text_whole::let_of(out, &store, term, naming)
}
