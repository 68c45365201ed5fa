// The fields of a function after its name: cost, flags, output sort and argument sorts, each into place `i` of its
// array.
ghost use Rattle.std.specs.Prelude.{◌≡◌, ◌+◌, ◌*◌, ◌^◌, ◌<◌, ◌≤◌, [], take};
ghost use Rattle.bits.specs.Got.{many};
ghost use Rattle.file_rules.specs.Functions.{cost_at, flags_at, output_at, arguments_at};
ghost use Rattle.file_rules.specs.Reading.{Reads};
ghost use Rattle.file_fields.specs.Put.{PutCost, PutFlags, PutOne, PutList, PutArguments, argument_of};

use file_rules::Sorts;
use refusal::Refusal;

// "has-cost 1 bit, then if set cost 64 bits"
pub fn read_cost(
    s: &[u8],
    at: usize,
    i: usize,
    declared: &mut [u64; 128],
    costs: &mut [u64; 128],
) -> Result<usize, Refusal>
    requires at_bound { at < 2 ^ 40 }
    requires i_bound { i < 128 }
    ensures { Reads (cost_at s.now at) result
        (PutCost i declared.old costs.old declared.new costs.new) }
{
    let (has, p) = bits::read(s, at, 1)?;
    if has == 0 {
        declared[i] = 0;
        costs[i] = 0;
        return Ok(p);
    }
    let (cost, q) = bits::read(s, p, 64)?;
    declared[i] = 1;
    costs[i] = cost;
    Ok(q)
}

// "unextractable 1; hidden 1"
pub fn read_flags(
    s: &[u8],
    at: usize,
    i: usize,
    unextractable: &mut [u64; 128],
    hidden: &mut [u64; 128],
) -> Result<usize, Refusal>
    requires at_bound { at < 2 ^ 40 }
    requires i_bound { i < 128 }
    ensures { Reads (flags_at s.now at) result
        (PutFlags i unextractable.old hidden.old unextractable.new hidden.new) }
{
    let (u, p) = bits::read(s, at, 1)?;
    let (h, q) = bits::read(s, p, 1)?;
    unextractable[i] = u;
    hidden[i] = h;
    Ok(q)
}

// "output sort 5 bits, an eq sort": there are `n` sorts, the first of `sorts`.
pub fn read_output(
    s: &[u8],
    at: usize,
    n: usize,
    sorts: &Sorts,
    i: usize,
    outputs: &mut [u64; 128],
) -> Result<usize, Refusal>
    requires at_bound { at < 2 ^ 40 }
    requires i_bound { i < 128 }
    requires n_bound { n < 32 }
    ensures { Reads (output_at s.now (take n sorts.now.kinds) at) result
        (PutOne i outputs.old outputs.new) }
{
    let (v, p) = bits::read(s, at, 5)?;
    let k = v as usize;
    if n <= k {
        return Err(Refusal::BadSort);
    }
    if sorts.kinds[k] != 1 {
        return Err(Refusal::BadSort);
    }
    outputs[i] = v;
    Ok(p)
}

// `m` argument sorts from position `at`, into the 8 places from `from`; there are `n` sorts.
fn read_sorts(
    s: &[u8],
    at: usize,
    n: usize,
    m: usize,
    from: usize,
    arguments: &mut [u64; 1024],
) -> Result<usize, Refusal>
    requires at_bound { at < 2 ^ 41 }
    requires m_bound { (m ≤ 8) × (from + 8 ≤ 1024) }
    ensures { Reads (many (argument_of s.now n) m at []) result
        (PutList from arguments.old arguments.new) }
{
    let mut p = at;
    for j in 0..m {
        let (v, q) = bits::read(s, p, 5)?;
        if n as u64 <= v {
            return Err(Refusal::BadSort);
        }
        let k = from + j;
        arguments[k] = v;
        p = q;
    }
    Ok(p)
}

// "arity 4 bits, 0 to 8; argument sorts 5 bits each"
pub fn read_arguments(
    s: &[u8],
    at: usize,
    n: usize,
    i: usize,
    arities: &mut [u64; 128],
    arguments: &mut [u64; 1024],
) -> Result<usize, Refusal>
    requires at_bound { at < 2 ^ 40 }
    requires i_bound { i < 128 }
    ensures { Reads (arguments_at s.now n at) result
        (PutArguments i arities.old arguments.old arities.new arguments.new) }
{
    let (m, p) = bits::read(s, at, 4)?;
    if 8 < m {
        return Err(Refusal::BadSize);
    }
    arities[i] = m;
    read_sorts(s, p, n, m as usize, i * 8, arguments)
}
