// The answers of variants, one after the other: their length, and their bytes.
ghost use Rattle.std.specs.Prelude.{◌≡◌, ◌+◌, ◌<◌, ◌≤◌, length};
ghost use Rattle.text_pieces.specs.Pieces.{capped};
ghost use Rattle.text_pieces.specs.Readable.{nodes};
ghost use Rattle.program_rules.specs.Step.{Step};
ghost use Rattle.program.specs.Replies.{reply_text, reply_texts, PlainSheet, Within};

use program_rules::headlines;

// How long the answer of one variant is: number `i`, of cost `c` and term `t`.
fn one_length(
    records: &[u64],
    literals: &[i64],
    names: &[u8],
    places: &[u64],
    wides: &[u64],
    n: usize,
    i: usize,
    c: u64,
    t: usize,
) -> u64
    requires plain_sheet { PlainSheet records.now literals.now names.now places.now wides.now n }
    requires t_lt_n { t < n }
    ensures { result
        ≡ capped
        (length
        (reply_text (nodes records.now literals.now names.now) n i c t)) }
{
    let head = headlines::variant_length(i as u64, c, n as u64);
    text_pieces::add(wides[t], head + 1)
}

// How long the answers of the first `k` variants are in all.
pub fn texts_length(
    records: &[u64],
    literals: &[i64],
    names: &[u8],
    places: &[u64],
    wides: &[u64],
    n: usize,
    costs: &[u64],
    terms: &[u64],
    k: usize,
) -> u64
    requires plain_sheet { PlainSheet records.now literals.now names.now places.now wides.now n }
    requires within { Within costs.now terms.now n k }
    ensures { result
        ≡ capped
        (length
        (reply_texts (nodes records.now literals.now names.now) n
        costs.now terms.now k)) }
{
    let mut acc = 0;
    for j in 0..k {
        let c = costs[j];
        let t = terms[j] as usize;
        let long = one_length(records, literals, names, places, wides, n, j + 1, c, t);
        acc = text_pieces::add(acc, long);
    }
    acc
}

// Writes the answer of one variant from place `p` on.
fn put_one(
    out: &mut [u8],
    p: usize,
    records: &[u64],
    literals: &[i64],
    names: &[u8],
    places: &[u64],
    wides: &[u64],
    n: usize,
    i: usize,
    c: u64,
    t: usize,
) -> usize
    requires plain_sheet { PlainSheet records.now literals.now names.now places.now wides.now n }
    requires t_lt_n { t < n }
    requires t_in_bounds { p + length (reply_text (nodes records.now literals.now names.now) n i c t) ≤ length out.old }
    ensures { Step (reply_text (nodes records.now literals.now names.now) n i c t) p result
        out.old out.new }
{
    let a = headlines::put_variant(out, p, i as u64, c, n as u64);
    let e = a
        + text_write::flat::put(
            &mut out[a..],
            records,
            literals,
            names,
            places,
            wides,
            names,
            n,
            0,
            false,
            u64::MAX,
            0,
            0,
            0,
            t,
        );
    out[e] = b'\n';
    e + 1
}

// Writes the answers of the first `k` variants from place `p` on.
pub fn put_texts(
    out: &mut [u8],
    p: usize,
    records: &[u64],
    literals: &[i64],
    names: &[u8],
    places: &[u64],
    wides: &[u64],
    n: usize,
    costs: &[u64],
    terms: &[u64],
    k: usize,
) -> usize
    requires plain_sheet { PlainSheet records.now literals.now names.now places.now wides.now n }
    requires within { Within costs.now terms.now n k }
    requires k_in_bounds { p
        + length (reply_texts (nodes records.now literals.now names.now) n costs.now terms.now k)
        ≤ length out.old }
    ensures { Step
        (reply_texts (nodes records.now literals.now names.now) n
        costs.now terms.now k) p result out.old out.new }
{
    let mut e = p;
    for j in 0..k {
        let c = costs[j];
        let t = terms[j] as usize;
        e = put_one(
            out,
            e,
            records,
            literals,
            names,
            places,
            wides,
            n,
            j + 1,
            c,
            t,
        );
    }
    e
}
