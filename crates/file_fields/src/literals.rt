// The reader of a table file's literals.
ghost use Rattle.std.specs.Prelude.{◌≡◌, ◌^◌, ◌<◌, pos, replicate};
ghost use Rattle.file_rules.specs.Literals.{literals_at};
ghost use Rattle.file_rules.specs.Reading.{Reads};
ghost use Rattle.file_rules.specs.Arrays.{HoldsLiterals};

use refusal::Refusal;

// `n` literals from position `at`, into an array of zeros.
pub fn read_literals(
    s: &[u8],
    at: usize,
    n: usize,
    literals: &mut [i64; 512],
) -> Result<usize, Refusal>
    requires at_bound { at < 2 ^ 32 }
    requires n_bound { n < 512 }
    requires literals_value { literals.old ≡ replicate 512 (pos 0) }
    ensures { Reads (literals_at s.now n at) result (HoldsLiterals literals.new) }
{
    let mut p = at;
    for i in 0..n {
        let (v, q) = bits::read(s, p, 64)?;
        literals[i] = file_rules::signed_of(v);
        p = q;
    }
    Ok(p)
}
