// The reader of a table file into arrays of zeros, for the layers above.
#![tactic(auto)]

ghost use Rattle.std.specs.Prelude.{◌≡◌, ◌^◌, ◌<◌};
ghost use Rattle.file_rules.specs.File.{table_at};
ghost use Rattle.file_rules.specs.Held.{holds, holds_rows, empty};
ghost use Rattle.file_rules.specs.Reading.{Counts as ReadsSome};
ghost use Rattle.file_rows.specs.Held.{sound};
ghost use Rattle.file_reader.specs.Outcome.{Answers};
ghost use Rattle.file_reader.specs.Held.{tail_of, table_of};

use file_rules::{Counted, Counts, Functions, Rows, Sorts, Table};
use refusal::Refusal;

pub mod functions; // functions.rt: the reader of a table file's functions: each into its place of the arrays
pub mod parts; // parts.rt: version, sorts, literals, functions, rows, each with its count, and the end

// The rows from position `at`, and then the end of the file: into arrays of zeros, against those of sorts and
// functions.
fn read_tail(
    s: &[u8],
    at: usize,
    sorts: &Sorts,
    literals: u64,
    count: u64,
    functions: &Functions,
    rows: &mut Rows,
) -> Result<Counted, Refusal>
    requires at_bound { at < 2 ^ 30 }
    requires sound { sound functions.now }
    requires rows_value { rows.old ≡ empty.rows }
    ensures { ReadsSome (tail_of s.now sorts.now literals count functions.now at) result
        (holds_rows rows.new) }
{
    let read = parts::read_rows(s, at, sorts, literals, count, functions, rows)?;
    let next = parts::read_end(s, read.next)?;
    Ok(Counted {
        count: read.count,
        next,
    })
}

// The table file `s` into the parts of a table, which are arrays of zeros: how many sorts, literals, functions and rows
// it has. They are lent one by one, so that a caller who reads none of an array again need not have it.
pub fn read_parts(
    s: &[u8],
    sorts: &mut Sorts,
    literals: &mut [i64; 512],
    functions: &mut Functions,
    rows: &mut Rows,
) -> Result<Counts, Refusal>
    requires { table_of sorts.old literals.old functions.old rows.old ≡ empty }
    ensures { Answers (table_at s.now) result (holds (table_of sorts.new literals.new functions.new rows.new)) }
{
    let version = parts::read_version(s)?;
    let sorted = parts::read_sorts(s, version, sorts)?;
    let constants = parts::read_literals(s, sorted.next, literals)?;
    let symbols = parts::read_functions(s, constants.next, sorted.count, sorts, functions)?;
    let read = read_tail(
        s,
        symbols.next,
        sorts,
        constants.count as u64,
        symbols.count as u64,
        functions,
        rows,
    )?;
    Ok(Counts {
        sorts: sorted.count,
        literals: constants.count,
        functions: symbols.count,
        rows: read.count,
    })
}

// The same into a table of zeros.
pub fn read_into(s: &[u8], table: &mut Table) -> Result<Counts, Refusal>
    requires table_value { table.old ≡ empty }
    ensures { Answers (table_at s.now) result (holds table.new) }
{
    let Table {
        sorts,
        literals,
        functions,
        rows,
    } = table;
    read_parts(s, sorts, literals, functions, rows)
}
