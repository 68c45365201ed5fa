// The public reader of a table file: document 01, 'The table file'.
#![tactic(auto)]

ghost use Rattle.std.specs.Prelude.{◌≡◌};
ghost use Rattle.file_rules.specs.File.{table_at};
ghost use Rattle.file.specs.Lent.{arrays, seen, read_of};

use file_rules::{Counts, Table};
use refusal::Refusal;

// Reads the table file `file` into the lent arrays and tells how many sorts, literals, functions and rows it has, or
// tells its first fault and leaves the arrays as they are. It works on parts of its own, whose contents it hands over
// when the whole file has been read. They are locals one by one, so that a caller who reads none of the table need not
// have them all.
pub fn read(file: &[u8], table: &mut Table) -> Result<Counts, Refusal>
    ensures { seen result (arrays table.new) ≡ read_of (table_at file.now) (arrays table.old) }
{
    let Table {
        mut sorts,
        mut literals,
        mut functions,
        mut rows,
    } = Table::empty();
    let counts = file_reader::read_parts(
        file,
        &mut sorts,
        &mut literals,
        &mut functions,
        &mut rows,
    )?;
    *table = Table {
        sorts,
        literals,
        functions,
        rows,
    };
    Ok(counts)
}
