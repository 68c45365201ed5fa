// Decimal text: digits and literals, their lengths, and their bytes at the start of a lent part.
#![tactic(auto)]

ghost use Rattle.std.specs.Prelude.{◌≡◌, ◌≤◌, length, nat_abs};
ghost use Rattle.decimal.specs.Decimal.{digits, literal_text};
ghost use Rattle.decimal.specs.Written.{Wrote};

// How many digits `x` has.
pub fn digits_length(x: u64) -> u64
    ensures { result ≡ length (digits x) }
{
    if x < 10 { 1 } else { digits_length(x / 10) + 1 }
}

// Writes the digits of `x`.
pub fn put_digits(out: &mut [u8], x: u64) -> usize
    requires { length (digits x) ≤ length out.old }
    ensures { Wrote (digits x) result out.old out.new }
{
    if x < 10 {
        out[0] = x as u8 + 48;
        1
    } else {
        let n = put_digits(out, x / 10);
        out[n] = (x % 10) as u8 + 48;
        n + 1
    }
}

// The magnitude of any number.
pub fn absolute(z: i64) -> u64
    ensures { result ≡ nat_abs z }
{
    z.unsigned_abs()
}

// How long the text of the literal `z` is.
pub fn literal_length(z: i64) -> u64
    ensures { result ≡ length (literal_text z) }
{
    let n = digits_length(z.unsigned_abs());
    if z < 0 { n + 1 } else { n }
}

// Writes the literal `z`.
pub fn put_literal(out: &mut [u8], z: i64) -> usize
    requires { length (literal_text z) ≤ length out.old }
    ensures { Wrote (literal_text z) result out.old out.new }
{
    let magnitude = z.unsigned_abs();
    if z < 0 {
        out[0] = 45;
        put_digits(&mut out[1..], magnitude) + 1
    } else {
        put_digits(out, magnitude)
    }
}
