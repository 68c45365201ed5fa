// The reader of a table file's rows: each into its place of the arrays, against the arrays of sorts and functions.
#![tactic(auto)]

ghost use Rattle.std.specs.Prelude.{◌≡◌, ◌+◌, ◌*◌, ◌^◌, ◌<◌, ◌≤◌, get_or};
ghost use Rattle.file_rules.specs.Reading.{Reads};
ghost use Rattle.file_rules.specs.Held.{holds_rows, empty};
ghost use Rattle.file_rows.specs.In.{PutCells};
ghost use Rattle.file_rows.specs.Held.{range_of, column_of, cells_of, row_of, rows_of, sound, put_row};

use file_rules::{Functions, Rows, Sorts};
use refusal::Refusal;

// The bound of a cell of the sort `k`: the sort's class count, or the literal count for a base sort.
fn bound_of(sorts: &Sorts, literals: u64, k: u64) -> u64
    requires { k < 32 }
    ensures { result ≡ range_of sorts.now literals k }
{
    let j = k as usize;
    if sorts.kinds[j] == 1 {
        return sorts.classes[j];
    }
    literals
}

// The sort of column `j` of the function `f`: an argument's, and after these the output's.
fn column_of(f: usize, j: usize, functions: &Functions) -> u64
    requires f_bound { f < 128 }
    requires f_bound_2 { get_or functions.now.arities f 0 ≤ 8 }
    ensures { result ≡ column_of functions.now f j }
{
    if (j as u64) < functions.arities[f] {
        let k = f * 8 + j;
        return functions.arguments[k];
    }
    functions.outputs[f]
}

// The cells of a row of the function `f` from position `at`, into the places from `from`.
fn read_cells(
    s: &[u8],
    at: usize,
    sorts: &Sorts,
    literals: u64,
    functions: &Functions,
    f: usize,
    from: usize,
    cells: &mut [u64; 9216],
) -> Result<usize, Refusal>
    requires at_bound { at < 2 ^ 40 }
    requires f_bound { f < 128 }
    requires from_bound { from + 9 ≤ 9216 }
    requires sound { sound functions.now }
    ensures { Reads (cells_of s.now sorts.now literals functions.now f at) result
        (PutCells from cells.old cells.new) }
{
    let n = functions.arities[f] as usize + 1;
    let mut p = at;
    for j in 0..n {
        let k = column_of(f, j, functions);
        let bound = bound_of(sorts, literals, k);
        let (v, q) = bits::read(s, p, 9)?;
        if bound <= v {
            return Err(Refusal::BadValue);
        }
        let place = from + j;
        cells[place] = v;
        p = q;
    }
    Ok(p)
}

// The row at position `at`, into place `i` of the arrays; there are `count` functions.
fn read_row(
    s: &[u8],
    at: usize,
    sorts: &Sorts,
    literals: u64,
    count: u64,
    functions: &Functions,
    i: usize,
    rows: &mut Rows,
) -> Result<usize, Refusal>
    requires at_bound { at < 2 ^ 39 }
    requires i_bound { i < 1024 }
    requires sound { sound functions.now }
    ensures { Reads (row_of s.now sorts.now literals count functions.now at) result
        (put_row i rows.old rows.new) }
{
    let (f, p) = bits::read(s, at, 7)?;
    if count <= f {
        return Err(Refusal::BadFunction);
    }
    let (bit, q) = bits::read(s, p, 1)?;
    rows.functions[i] = f;
    rows.subsumed[i] = bit;
    read_cells(
        s,
        q,
        sorts,
        literals,
        functions,
        f as usize,
        i * 9,
        &mut rows.cells,
    )
}

// `n` rows from position `at`, into arrays of zeros; there are `count` functions.
pub fn read_rows(
    s: &[u8],
    at: usize,
    n: usize,
    sorts: &Sorts,
    literals: u64,
    count: u64,
    functions: &Functions,
    rows: &mut Rows,
) -> Result<usize, Refusal>
    requires at_bound { at < 2 ^ 32 }
    requires n_bound { n ≤ 1024 }
    requires sound { sound functions.now }
    requires rows_value { rows.old ≡ empty.rows }
    ensures { Reads (rows_of s.now sorts.now literals count functions.now n at) result
        (holds_rows rows.new) }
{
    let mut p = at;
    for i in 0..n {
        p = read_row(s, p, sorts, literals, count, functions, i, rows)?;
    }
    Ok(p)
}
