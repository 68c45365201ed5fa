// The lines of numbers that the program writes: their lengths, and their bytes.
ghost use Rattle.std.specs.Prelude.{◌≡◌, ◌+◌, ◌≤◌, length};
ghost use Rattle.decimal.specs.Decimal.{digits};
ghost use Rattle.program_rules.specs.Lines.{number_text, line_text, best_line, variants_line, variant_line, refused_line};
ghost use Rattle.program_rules.specs.Step.{Step};

// Writes `word` from place `p` on.
pub fn put_word(out: &mut [u8], p: usize, word: &[u8]) -> usize
    requires { p + length word.now ≤ length out.old }
    ensures { Step word.now p result out.old out.new }
{
    p + text_pieces::put_bytes(&mut out[p..], word)
}

// Writes the digits of `x` and the byte after them, from place `p` on.
pub fn put_number(out: &mut [u8], p: usize, x: u64, after: u8) -> usize
    requires { p + length (number_text x after) ≤ length out.old }
    ensures { Step (number_text x after) p result out.old out.new }
{
    let e = p + decimal::put_digits(&mut out[p..], x);
    out[e] = after;
    e + 1
}

// How long a line is of `word`, numbers with a space after each, and a last number.
fn line_length(word: &[u8], numbers: &[u64], last: u64) -> u64
    requires word_few { length word.now ≤ 9 }
    requires numbers_few { length numbers.now ≤ 2 }
    ensures { result ≡ length (line_text word.now numbers.now last) }
{
    let mut n = word.len() as u64;
    for x in numbers {
        n += decimal::digits_length(*x) + 1;
    }
    n + decimal::digits_length(last) + 1
}

// Writes the line from place `p` on.
fn put_line(out: &mut [u8], p: usize, word: &[u8], numbers: &[u64], last: u64) -> usize
    requires { p + length (line_text word.now numbers.now last) ≤ length out.old }
    ensures { Step (line_text word.now numbers.now last) p result out.old out.new }
{
    let mut e = put_word(out, p, word);
    for x in numbers {
        e = put_number(out, e, *x, b' ');
    }
    put_number(out, e, last, b'\n')
}

// How long the line `best C N P` is.
pub fn best_length(c: u64, n: u64, p: u64) -> u64
    ensures { result ≡ length (best_line c n p) }
{
    line_length(b"best ", &[c, n], p)
}

// Writes the line `best C N P` at the start of `out`.
pub fn put_best(out: &mut [u8], c: u64, n: u64, p: u64) -> usize
    requires { length (best_line c n p) ≤ length out.old }
    ensures { Step (best_line c n p) 0 result out.old out.new }
{
    put_line(out, 0, b"best ", &[c, n], p)
}

// How long the line `variants K P` is.
pub fn variants_length(k: u64, p: u64) -> u64
    ensures { result ≡ length (variants_line k p) }
{
    line_length(b"variants ", &[k], p)
}

// Writes the line `variants K P` at the start of `out`.
pub fn put_variants(out: &mut [u8], k: u64, p: u64) -> usize
    requires { length (variants_line k p) ≤ length out.old }
    ensures { Step (variants_line k p) 0 result out.old out.new }
{
    put_line(out, 0, b"variants ", &[k], p)
}

// How long the line `variant I C N` is.
pub fn variant_length(i: u64, c: u64, n: u64) -> u64
    ensures { result ≡ length (variant_line i c n) }
{
    line_length(b"variant ", &[i, c], n)
}

// Writes the line `variant I C N` from place `p` on.
pub fn put_variant(out: &mut [u8], p: usize, i: u64, c: u64, n: u64) -> usize
    requires { p + length (variant_line i c n) ≤ length out.old }
    ensures { Step (variant_line i c n) p result out.old out.new }
{
    put_line(out, p, b"variant ", &[i, c], n)
}

// Writes the line `refused K` at the start of `out`.
pub fn put_refused(out: &mut [u8], k: u64) -> usize
    requires { length (refused_line k) ≤ length out.old }
    ensures { Step (refused_line k) 0 result out.old out.new }
{
    put_line(out, 0, b"refused ", &[], k)
}
