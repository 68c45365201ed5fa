// The parts of a table file: version, sorts, literals, functions, rows, each with its count, and the end.
ghost use Rattle.std.specs.Prelude.{◌≡◌, ◌^◌, ◌<◌, length, take};
ghost use Rattle.file_rules.specs.File.{version_at, sorts_part, literals_part, functions_part, end_at};
ghost use Rattle.file_rules.specs.Reading.{Reads, Counts};
ghost use Rattle.file_rules.specs.Arrays.{HoldsLiterals};
ghost use Rattle.file_rules.specs.Held.{holds_sorts, holds_functions, holds_rows, empty};
ghost use Rattle.file_rows.specs.Held.{sound};
ghost use Rattle.file_reader.specs.Parts.{Any};
ghost use Rattle.file_reader.specs.Held.{rows_part_of};

use crate::functions;
use file_fields::{literals, sorts};
use file_rules::{Counted, Functions, Rows, Sorts};
use refusal::Refusal;

// "version 4 bits, must be 1"
pub fn read_version(s: &[u8]) -> Result<usize, Refusal>
    ensures { Reads (version_at s.now 0) result Any }
{
    let (v, p) = bits::read(s, 0, 4)?;
    if v != 1 {
        return Err(Refusal::BadVersion);
    }
    Ok(p)
}

// "sort count S, 5 bits", then the sorts, into arrays of zeros.
pub fn read_sorts(s: &[u8], at: usize, sorts: &mut Sorts) -> Result<Counted, Refusal>
    requires at_bound { at < 2 ^ 31 }
    requires sorts_value { sorts.old ≡ empty.sorts }
    ensures { Counts (sorts_part s.now at) result (holds_sorts sorts.new) }
{
    let (v, p) = bits::read(s, at, 5)?;
    let count = v as usize;
    let next = sorts::read_sorts(s, p, count, sorts)?;
    Ok(Counted { count, next })
}

// "literal count L, 9 bits", then the literals, into an array of zeros.
pub fn read_literals(s: &[u8], at: usize, literals: &mut [i64; 512]) -> Result<Counted, Refusal>
    requires at_bound { at < 2 ^ 31 }
    requires literals_value { literals.old ≡ empty.literals }
    ensures { Counts (literals_part s.now at) result (HoldsLiterals literals.new) }
{
    let (v, p) = bits::read(s, at, 9)?;
    let count = v as usize;
    let next = literals::read_literals(s, p, count, literals)?;
    Ok(Counted { count, next })
}

// "function count F, 7 bits", then the functions, into arrays of zeros; there are `n` sorts, the first of `sorts`.
pub fn read_functions(
    s: &[u8],
    at: usize,
    n: usize,
    sorts: &Sorts,
    functions: &mut Functions,
) -> Result<Counted, Refusal>
    requires at_bound { at < 2 ^ 31 }
    requires n_bound { (n < 32) × (length sorts.now.kinds ≡ 32) }
    requires functions_value { functions.old ≡ empty.functions }
    ensures { Counts (functions_part s.now (take n sorts.now.kinds) at) result
        (holds_functions functions.new) }
{
    let (v, p) = bits::read(s, at, 7)?;
    let count = v as usize;
    let next = functions::read_functions(s, p, count, n, sorts, functions)?;
    Ok(Counted { count, next })
}

// "row count 11 bits, 0 to 1,024", then the rows, into arrays of zeros, against the arrays of sorts and functions.
pub fn read_rows(
    s: &[u8],
    at: usize,
    sorts: &Sorts,
    literals: u64,
    count: u64,
    functions: &Functions,
    rows: &mut Rows,
) -> Result<Counted, Refusal>
    requires at_bound { at < 2 ^ 31 }
    requires sound { sound functions.now }
    requires rows_value { rows.old ≡ empty.rows }
    ensures { Counts (rows_part_of s.now sorts.now literals count functions.now at) result
        (holds_rows rows.new) }
{
    let (v, p) = bits::read(s, at, 11)?;
    if 1024 < v {
        return Err(Refusal::BadSize);
    }
    let n = v as usize;
    let next = file_rows::read_rows(s, p, n, sorts, literals, count, functions, rows)?;
    Ok(Counted { count: n, next })
}

// "zero bits to the byte's end; then the file ends"
pub fn read_end(s: &[u8], at: usize) -> Result<usize, Refusal>
    requires { at < 2 ^ 31 }
    ensures { Reads (end_at s.now at) result Any }
{
    let (v, p) = bits::read(s, at, (8 - at % 8) % 8)?;
    if v != 0 {
        return Err(Refusal::Trailing);
    }
    if p / 8 != s.len() {
        return Err(Refusal::Trailing);
    }
    Ok(p)
}
