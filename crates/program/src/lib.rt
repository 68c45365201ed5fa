// The program as a function: from its whole input and a lent buffer to the length of its answer, or a refusal.
#![tactic(auto)]

ghost use Rattle.std.specs.Prelude.{◌≡◌, ◌≤◌, length};
ghost use Rattle.decimal.specs.Written.{Wrote};
ghost use Rattle.program_rules.specs.Query.{asked};
ghost use Rattle.program_rules.specs.Reply.{best_call, variants_call, call_of, reply, replied, responded, in_room, put_in};
ghost use Rattle.program_rules.specs.Seen.{seen};
ghost use Rattle.program.specs.Chosen.{FileChosen, FileTold};

use program_rules::{headlines, queries};
use refusal::Refusal;
use table_roots::Chosen;
use term_add::store_mut::StoreMut;
use term_layout::lent::Lent;

mod variant_lines; // variant_lines.rt: the answers of variants, one after the other: their length, and their bytes
mod best_reply; // best_reply.rt: the text of an answer of best in a lent buffer: the line, the term's text, a newline
mod variants_reply; // variants_reply.rt: the text of an answer of variants in a lent buffer: its length first, then its bytes

// Best of a file into a store that starts empty, and its text. Like `variants_of` it stays a function of its own in what
// is built: in one frame the arrays of both would stand beside each other.
#[inline(never)]
fn best_of(
    plain: bool,
    file: &[u8],
    sort: u64,
    value: u64,
    out: &mut [u8],
) -> Result<usize, Refusal>
    ensures { seen result out.new
        ≡ put_in (in_room (length out.old) (best_call plain file.now sort value)) out.old }
{
    let mut records = [0u64; term_layout::RECORDS];
    let mut literals = [0i64; 1024];
    let mut names = [0u8; name::TABLE];
    let mut store = StoreMut {
        records: &mut records,
        literals: &mut literals,
        names: &mut names,
        terms: 0,
        symbols: 0,
    };
    let best = extract::best(file, sort, value, &mut store)?;
    best_reply::put(plain, out, &store.read(), best.cost, best.term, best.passes)
}

// The texts of the variants that were chosen, over a store and lists that start empty. They are this function's own, so
// that they do not stand beside the arrays that a table is read into.
#[inline(never)]
fn put_chosen(
    root: Chosen,
    rows: &[u16; table_layout::ROWS],
    ranks: &[u64; 512],
    edges: &[u16; 512],
    prices: &[u64; 1024],
    list: &[u64; 1024],
    labels: &[u8; name::TABLE],
    values: &[i64; 512],
    out: &mut [u8],
) -> Result<usize, Refusal>
    requires { FileChosen root rows.now edges.now ranks.now labels.now values.now prices.now list.now }
    ensures { FileTold root rows.now edges.now ranks.now labels.now values.now prices.now list.now out.old
        (seen result out.new) }
{
    let mut records = [0u64; term_layout::RECORDS];
    let mut literals = [0i64; 1024];
    let mut names = [0u8; name::TABLE];
    let mut paid = [0u64; 256];
    let mut found = [0u64; 256];
    let mut store = StoreMut {
        records: &mut records,
        literals: &mut literals,
        names: &mut names,
        terms: 0,
        symbols: 0,
    };
    let kept = table_roots::answer_rows(
        root, rows, ranks, edges, prices, list, labels, values, &mut store, &mut paid, &mut found,
    )?;
    variants_reply::put(out, &store.read(), &paid, &found, kept.count, kept.passes)
}

// Variants of a file, and their texts. Its rows are chosen for a store without a term.
#[inline(never)]
fn variants_of(
    file: &[u8],
    sort: u64,
    value: u64,
    most: u64,
    out: &mut [u8],
) -> Result<usize, Refusal>
    ensures { seen result out.new
        ≡ put_in (in_room (length out.old) (variants_call file.now sort value most))
        out.old }
{
    let mut rows = [0u16; table_layout::ROWS];
    let mut ranks = [0u64; 512];
    let mut edges = [0u16; 512];
    let mut prices = [0u64; 1024];
    let mut list = [0u64; 1024];
    let mut labels = [0u8; name::TABLE];
    let mut values = [0i64; 512];
    let none = Lent {
        records: &[],
        literals: &[],
        names: &[],
        terms: 0,
        symbols: 0,
    };
    let root = table_roots::choose_rows(
        file,
        sort,
        value,
        most as usize,
        &none,
        &mut rows,
        &mut ranks,
        &mut edges,
        &mut prices,
        &mut list,
        &mut labels,
        &mut values,
    )?;
    put_chosen(
        root, &rows, &ranks, &edges, &prices, &list, &labels, &values, out,
    )
}

// The call that the mode asks for.
fn by_mode(
    file: &[u8],
    mode: u64,
    sort: u64,
    value: u64,
    most: u64,
    out: &mut [u8],
) -> Result<usize, Refusal>
    ensures { seen result out.new
        ≡ put_in
        (in_room (length out.old) (call_of (asked mode sort value most) file.now))
        out.old }
{
    if mode == 1 {
        return variants_of(file, sort, value, most, out);
    }
    let plain = mode == 2;
    best_of(plain, file, sort, value, out)
}

// The answer to an input: a query, then a table file. The text stands at the start of `out`, or nothing changes.
pub fn answer(input: &[u8], out: &mut [u8]) -> Result<usize, Refusal>
    ensures { seen result out.new ≡ replied input.now out.old }
{
    let query = queries::ask(input)?;
    by_mode(
        &input[3..],
        query.mode,
        query.sort,
        query.value,
        query.most,
        out,
    )
}

// What the program writes, at the start of a buffer of at least 16,384 bytes: the text, or `refused K`.
fn write(input: &[u8], out: &mut [u8]) -> usize
    requires { 16384 ≤ length out.old }
    ensures { Wrote (reply input.now) result out.old out.new }
{
    match answer(input, &mut out[..16384]) {
        Ok(n) => n,
        Err(r) => headlines::put_refused(out, u64::from(refusal::number(r))),
    }
}

// What the program writes, at the start of `out`: NoRoom where that is longer, and then nothing changes. A buffer below
// 16,384 bytes gets it from one of the call's own.
pub fn respond(input: &[u8], out: &mut [u8]) -> Result<usize, Refusal>
    ensures { seen result out.new ≡ responded input.now out.old }
{
    if 16384 <= out.len() {
        return Ok(write(input, out));
    }
    let mut own = [0u8; 16384];
    let n = write(input, &mut own);
    if out.len() < n {
        return Err(Refusal::NoRoom);
    }
    Ok(headlines::put_word(out, 0, &own[..n]))
}
