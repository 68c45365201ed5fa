// Fields of a bit-packed file, most significant bit first, each read by one function for every width to 64.
#![tactic(auto)]

ghost use Rattle.std.specs.Prelude.{◌≡◌, ◌+◌, ◌-◌, ◌*◌, ◌/◌, ◌%◌, ◌^◌, ◌<◌, ◌≤◌, length, get_or};
ghost use Rattle.bits.specs.Bits.{number};
ghost use Rattle.bits.specs.Field.{field, holds, got_of};

use refusal::Refusal;

// 2 to the power `n`.
fn power(n: usize) -> u64
    requires { n ≤ 9 }
    ensures { result ≡ 2 ^ n }
{
    1 << n
}

// The `n` bits of a byte after its first `skip`.
fn part(b: u8, skip: usize, n: usize) -> u64
    requires { skip + n ≤ 8 }
    ensures { result ≡ b / 2 ^ (8 - (skip + n)) % 2 ^ n }
{
    (u64::from(b) >> (8 - (skip + n))) % power(n)
}

// Whether the input has the `width` bits from position `at`.
pub fn has(s: &[u8], at: usize, width: usize) -> bool
    requires { at + width < 2 ^ 63 }
    ensures { result ≡ holds s.now at width }
{
    (at + width + 7) / 8 <= s.len()
}

// At most nine bits from position `at`, out of the two bytes that they lie in.
fn few(s: &[u8], at: usize, width: usize) -> u64
    requires at_in_bounds { at / 8 + 1 < length s.now }
    requires width_bound { width ≤ 9 }
    ensures { result ≡ number s.now at width }
{
    let j = at / 8;
    let past = 16 - (at % 8 + width);
    ((u64::from(s[j]) * 256 + u64::from(s[j + 1])) >> past) % power(width)
}

// The `n` bits from position `at`, which lie in one byte; none of them make 0.
fn within(s: &[u8], at: usize, n: usize) -> u64
    requires n_bound { at + n ≤ 8 * length s.now }
    requires n_bound_2 { at % 8 + n ≤ 8 }
    ensures { result ≡ number s.now at n }
{
    if n == 0 {
        return 0;
    }
    part(s[at / 8], at % 8, n)
}

// The `width` bits from position `at` as a number: those up to the next byte, then whole bytes, then what is left.
fn by_bytes(s: &[u8], at: usize, width: usize) -> u64
    requires width_bound { at + width < 2 ^ 63 }
    requires width_bound_2 { at + width ≤ 8 * length s.now }
    requires width_bound_3 { width ≤ 64 }
    ensures { result ≡ number s.now at width }
{
    let head = width.min((8 - at % 8) % 8);
    let first = (at + head) / 8;
    let whole = (width - head) / 8;
    let mut v = within(s, at, head);
    for b in &s[first..first + whole] {
        v = v * 256 + u64::from(*b);
    }
    let i = head + 8 * whole;
    let n = width - i;
    let rest = within(s, at + i, n);
    v * power(n) + rest
}

// The `width` bits from position `at` as a number.
pub fn gather(s: &[u8], at: usize, width: usize) -> u64
    requires width_bound { at + width < 2 ^ 63 }
    requires width_bound_2 { at + width ≤ 8 * length s.now }
    requires width_bound_3 { width ≤ 64 }
    ensures { result ≡ number s.now at width }
{
    if width <= 9 {
        if at / 8 + 1 < s.len() {
            return few(s, at, width);
        }
    }
    by_bytes(s, at, width)
}

// The field of `width` bits at position `at`, and the position after it; Short where the input ends before it does.
pub fn read(s: &[u8], at: usize, width: usize) -> Result<(u64, usize), Refusal>
    requires width_bound { at + width < 2 ^ 63 }
    requires width_bound_2 { width ≤ 64 }
    ensures { got_of result ≡ field s.now at width }
{
    if !has(s, at, width) {
        return Err(Refusal::Short);
    }
    Ok((gather(s, at, width), at + width))
}
