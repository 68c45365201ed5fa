// A table file and a root, as far as the extractor goes by them: a literal, or a class and flat rows, or the first
// fault.
#![tactic(auto)]

ghost use Rattle.std.specs.Prelude.{◌≡◌};
ghost use Rattle.file_rules.specs.File.{table_at};
ghost use Rattle.file_rules.specs.Held.{empty};
ghost use Rattle.table_rows.specs.Flattened.{Space};
ghost use Rattle.table_rows.specs.Given.{loads};
ghost use Rattle.table_rows.specs.Loading.{Blank};

use crate::prepare::Flat;
use file_rules::{Sorts, Table};
use refusal::Refusal;

pub mod prepare; // prepare.rt: what the extractor goes by, out of a table: its root, and the rows that root sorts reach

// What a root asks for: a literal's index, or a flat class with the rows that its sort reaches.
#[derive(Clone, Copy)]
pub enum Loaded {
    Literal(u64),
    Class { class: u64, flat: Flat },
}

// The nine arrays that a caller may leave as they are, cleared; the other five are zeros already.
fn clear_rest(table: &mut Table)
    requires { Blank table.old }
    ensures { table.new ≡ empty }
{
    table.sorts = Sorts {
        kinds: [0; 32],
        classes: [0; 32],
    };
    table.functions.declared = [0; 128];
    table.functions.costs = [0; 128];
    table.functions.unextractable = [0; 128];
    table.functions.hidden = [0; 128];
    table.functions.outputs = [0; 128];
    table.functions.arguments = [0; 1024];
    table.rows.subsumed = [0; 1024];
}

// The table file is read into `table`, the root looked up, and the rows that its sort reaches laid flat. A root out of
// the table's range is the fault of the call.
pub fn load(
    file: &[u8],
    sort: u64,
    value: u64,
    table: &mut Table,
    order: &mut [u64],
    flat: &mut [u64],
    heads: &mut [u64],
    starts: &mut [usize],
    children: &mut [u64],
) -> Result<Loaded, Refusal>
    requires blank { Blank table.old }
    requires space { Space order.old flat.old heads.old starts.old children.old }
    ensures { loads (table_at file.now) sort value result table.new order.new flat.new heads.new
        starts.new children.new }
{
    clear_rest(table);
    let counts = file_reader::read_into(file, table)?;
    prepare::open(
        counts, sort, value, table, order, flat, heads, starts, children,
    )
    .ok_or(Refusal::BadRoot)
}
