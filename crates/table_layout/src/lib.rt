// How the rows that a root sort reaches lie in one slice of narrow numbers: their parts read, and the one place where
// a row is put. No crate above this one knows where in a row a part stands, or how many numbers a row has.
#![tactic(auto)]

ghost use Rattle.std.specs.Prelude.{◌≡◌, ◌≤◌, length};
ghost use Rattle.table_layout.specs.Rows.{
  HasRow,
  file_row_at,
  function_at,
  output_at,
  count_at,
  children_at,
  put_row,
};

pub mod pack; // pack.rt: rows packed out of flat lists

// A row's numbers: the row of the file, its function, the class of its output, the count of its children, eight child
// places.
pub const WIDTH: usize = 12;

// The numbers of 1,024 rows, the most that a table has.
pub const ROWS: usize = 12288;

// The number in the file of row `i`.
pub fn file_row_of(rows: &[u16], i: usize) -> usize
    requires { HasRow rows.now i }
    ensures { result ≡ file_row_at rows.now i }
{
    usize::from(rows[i * WIDTH])
}

// Its function.
pub fn function_of(rows: &[u16], i: usize) -> usize
    requires { HasRow rows.now i }
    ensures { result ≡ function_at rows.now i }
{
    usize::from(rows[i * WIDTH + 1])
}

// The class of its output.
pub fn output_of(rows: &[u16], i: usize) -> usize
    requires { HasRow rows.now i }
    ensures { result ≡ output_at rows.now i }
{
    usize::from(rows[i * WIDTH + 2])
}

// The count of its children.
pub fn count_of(rows: &[u16], i: usize) -> usize
    requires { HasRow rows.now i }
    ensures { result ≡ count_at rows.now i }
{
    usize::from(rows[i * WIDTH + 3])
}

// Its children: a number below 512 is a class, 512 + i the literal of index i.
pub fn children_of(rows: &[u16], i: usize) -> &[u16]
    requires has_row { HasRow rows.now i }
    requires i_bound { count_at rows.now i ≤ 8 }
    ensures { result.now ≡ children_at rows.now i }
{
    let a = i * WIDTH + 4;
    let n = usize::from(rows[i * WIDTH + 3]);
    let e = a + n;
    &rows[a..e]
}

// Puts row `i`: its number in the file, its function, the class of its output and its children. The places past its
// children stay as they are.
pub fn put_row(rows: &mut [u16], i: usize, row: u16, function: u16, output: u16, children: &[u16])
    requires has_row { HasRow rows.old i }
    requires children_len_bound { length children.now ≤ 8 }
    ensures { rows.new ≡ put_row rows.old i row function output children.now }
{
    let at = i * WIDTH;
    rows[at] = row;
    rows[at + 1] = function;
    rows[at + 2] = output;
    rows[at + 3] = children.len() as u16;
    let a = at + 4;
    let e = a + children.len();
    rows[a..e].copy_from_slice(children);
}
