// What the extractor goes by, out of the arrays of a table: its root, and the rows that root sorts reach.
// From src/extract.rs: the maps by sort name and value (costs, topo_rnk) become flat class numbers.
ghost use Rattle.table_rules.specs.Order.{Within};
ghost use Rattle.table_rows.specs.Standing.{Some};
ghost use Rattle.table_rows.specs.Flattened.{Space};
ghost use Rattle.table_rows.specs.Given.{sorts_stand, stands, stands_whole, root_is, flattens, opens};

use crate::Loaded;
use file_rules::{Counts, Sorts, Table};

// A root: a flat class, or the index of a literal.
#[derive(Clone, Copy)]
pub enum Root {
    Class(u64),
    Literal(u64),
}

// The root of a sort and a value, from the sorts and the number of literals; none where they are out of the table's
// range.
pub fn root_of(counts: Counts, sorts: &Sorts, sort: u64, value: u64) -> Option<Root>
    requires { Some (sorts_stand counts sorts.now) }
    ensures { root_is counts sorts.now sort value result }
{
    if counts.sorts as u64 <= sort {
        return None;
    }
    let s = sort as usize;
    if sorts.kinds[s] == 0 {
        if counts.literals as u64 <= value {
            return None;
        }
        return Some(Root::Literal(value));
    }
    if sorts.classes[s] <= value {
        return None;
    }
    let mut bases: [u64; 32] = [0; 32];
    table_flat::classes::number_sorts(counts.sorts, &sorts.classes, &mut bases);
    Some(Root::Class(bases[s] + value))
}

// How many rows the root sorts reach, how many children they have in all, and how many classes the table has.
#[derive(Clone, Copy)]
pub struct Flat {
    pub rows: usize,
    pub children: usize,
    pub classes: usize,
}

// The rows that the root sorts reach, in scan order: their numbers in the file, and as flat rows.
pub fn flatten(
    counts: Counts,
    roots: &[u64],
    table: &Table,
    order: &mut [u64],
    flat: &mut [u64],
    heads: &mut [u64],
    starts: &mut [usize],
    children: &mut [u64],
) -> Flat
    requires some { Some (stands counts table.now) }
    requires within { Within counts.sorts roots.now }
    requires space { Space order.old flat.old heads.old starts.old children.old }
    ensures { flattens counts roots.now table.now result order.new flat.new heads.new starts.new
        children.new }
{
    let mut bases: [u64; 32] = [0; 32];
    let total = table_flat::classes::number_sorts(counts.sorts, &table.sorts.classes, &mut bases);
    let n = table_rules::scan_rows(
        counts.sorts,
        counts.functions,
        counts.rows,
        roots,
        &table.functions.outputs,
        &table.functions.arities,
        &table.functions.arguments,
        &table.functions.unextractable,
        &table.functions.hidden,
        &table.rows.functions,
        &table.rows.subsumed,
        order,
    );
    let m = table_flat::rows::lay(
        &order[..n],
        &table.sorts.kinds,
        &bases,
        &table.functions.declared,
        &table.functions.costs,
        &table.functions.outputs,
        &table.functions.arities,
        &table.functions.arguments,
        &table.rows.functions,
        &table.rows.cells,
        flat,
        heads,
        starts,
        children,
    );
    Flat {
        rows: n,
        children: m,
        classes: total as usize,
    }
}

// The root of a sort and a value, and if it is a class, the rows that its sort reaches.
pub fn open(
    counts: Counts,
    sort: u64,
    value: u64,
    table: &Table,
    order: &mut [u64],
    flat: &mut [u64],
    heads: &mut [u64],
    starts: &mut [usize],
    children: &mut [u64],
) -> Option<Loaded>
    requires some { Some (stands_whole counts table.now) }
    requires space { Space order.old flat.old heads.old starts.old children.old }
    ensures { opens counts sort value table.now result order.new flat.new heads.new starts.new
        children.new }
{
    let root = root_of(counts, &table.sorts, sort, value)?;
    match root {
        Root::Literal(i) => Some(Loaded::Literal(i)),
        Root::Class(class) => {
            let roots: [u64; 1] = [sort];
            let laid = flatten(counts, &roots, table, order, flat, heads, starts, children);
            Some(Loaded::Class { class, flat: laid })
        }
    }
}
