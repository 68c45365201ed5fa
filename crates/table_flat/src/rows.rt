// The rows in scan order as flat arrays: a child number below 512 is a flat class, 512 + i the literal of index i.
ghost use Rattle.std.specs.Prelude.{◌≡◌, ◌++◌, ◌+◌, ◌*◌, ◌≤◌, ◌<◌, length, get_or, take};
ghost use Rattle.table_rules.specs.Order.{in_turn};
ghost use Rattle.table_rules.specs.Arrays.{Filled};
ghost use Rattle.table_flat.specs.Rows.{output_in, head_in, child_number, child_numbers, children_in};
ghost use Rattle.table_flat.specs.Arrays.{
  OutputFits,
  HeadFits,
  CellsFit,
  ChildrenFit,
  ArityFits,
  arity_in,
  Each,
  Mapped,
  Sums,
  RowsFit,
  Room,
  Laid,
};

// The flat class of row `r`'s output cell.
fn output_of(
    bases: &[u64],
    arities: &[u64],
    outputs: &[u64],
    rowfunctions: &[u64],
    cells: &[u64],
    r: usize,
) -> u64
    requires { OutputFits bases.now arities.now outputs.now rowfunctions.now cells.now r }
    ensures { result ≡ output_in bases.now arities.now outputs.now
        rowfunctions.now cells.now r }
{
    let f = rowfunctions[r] as usize;
    let sort = outputs[f] as usize;
    let place = r * 9 + arities[f] as usize;
    bases[sort] + cells[place]
}

// The flat class of each row's output cell.
fn lay_outputs(
    order: &[u64],
    bases: &[u64],
    arities: &[u64],
    outputs: &[u64],
    rowfunctions: &[u64],
    cells: &[u64],
    list: &mut [u64],
)
    requires order_in_bounds { length order.now ≤ length list.old }
    requires each { Each (OutputFits bases.now arities.now outputs.now rowfunctions.now cells.now) order.now }
    ensures { Mapped (output_in bases.now arities.now outputs.now
        rowfunctions.now cells.now) order.now list.new }
{
    for (k, r) in order.iter().enumerate() {
        list[k] = output_of(bases, arities, outputs, rowfunctions, cells, *r as usize);
    }
}

// Row `r`'s head cost: src/extract.rs, TreeAdditiveCostModel::enode_cost.
fn head_of(declared: &[u64], costs: &[u64], rowfunctions: &[u64], r: usize) -> u64
    requires { HeadFits declared.now costs.now rowfunctions.now r }
    ensures { result ≡ head_in declared.now costs.now rowfunctions.now r }
{
    let f = rowfunctions[r] as usize;
    if declared[f] == 0 {
        return 1;
    }
    costs[f]
}

// Each row's head cost.
fn lay_heads(order: &[u64], declared: &[u64], costs: &[u64], rowfunctions: &[u64], list: &mut [u64])
    requires order_in_bounds { length order.now ≤ length list.old }
    requires each { Each (HeadFits declared.now costs.now rowfunctions.now) order.now }
    ensures { Mapped (head_in declared.now costs.now rowfunctions.now)
        order.now list.new }
{
    for (k, r) in order.iter().enumerate() {
        list[k] = head_of(declared, costs, rowfunctions, *r as usize);
    }
}

// A cell of sort `s` as a child number.
fn child_of(kinds: &[u64], bases: &[u64], s: usize, v: u64) -> u64
    requires s_in_bounds { (s < length kinds.now) × (s < length bases.now) }
    requires s_bound { (get_or bases.now s 0 ≤ 512) × (v < 512) }
    ensures { result ≡ child_number kinds.now bases.now s v }
{
    if kinds[s] == 1 {
        return bases[s] + v;
    }
    512 + v
}

// The child numbers of cells, each by its own sort, from place `at` on; where they end.
fn lay_cells(
    kinds: &[u64],
    bases: &[u64],
    sorts: &[u64],
    cells: &[u64],
    list: &mut [u64],
    at: usize,
) -> usize
    requires cells_len { length cells.now ≡ length sorts.now }
    requires sorts_in_bounds { at + length sorts.now ≤ length list.old }
    requires cells_fit { CellsFit kinds.now bases.now sorts.now cells.now }
    ensures { Filled list.new result (take at list.old
        ++ child_numbers kinds.now bases.now sorts.now cells.now) }
{
    for (j, s) in sorts.iter().enumerate() {
        list[at + j] = child_of(kinds, bases, *s as usize, cells[j]);
    }
    at + sorts.len()
}

// Row `r`'s child numbers, from place `at` on; where they end.
fn lay_row(
    kinds: &[u64],
    bases: &[u64],
    arities: &[u64],
    arguments: &[u64],
    rowfunctions: &[u64],
    cells: &[u64],
    r: usize,
    list: &mut [u64],
    at: usize,
) -> usize
    requires children_fit { ChildrenFit kinds.now bases.now arities.now arguments.now rowfunctions.now cells.now r }
    requires r_in_bounds { at + length (children_in kinds.now bases.now arities.now arguments.now rowfunctions.now
        cells.now r) ≤ length list.old }
    ensures { Filled list.new result (take at list.old ++ children_in kinds.now
        bases.now arities.now arguments.now rowfunctions.now
        cells.now r) }
{
    let f = rowfunctions[r] as usize;
    let n = arities[f] as usize;
    let a = f * 8;
    let e = a + n;
    let b = r * 9;
    let d = b + n;
    lay_cells(kinds, bases, &arguments[a..e], &cells[b..d], list, at)
}

// The child numbers of all rows, one row after the other; how many they are.
fn lay_children(
    order: &[u64],
    kinds: &[u64],
    bases: &[u64],
    arities: &[u64],
    arguments: &[u64],
    rowfunctions: &[u64],
    cells: &[u64],
    list: &mut [u64],
) -> usize
    requires each { Each (ChildrenFit kinds.now bases.now arities.now arguments.now rowfunctions.now cells.now)
        order.now }
    requires order_in_bounds { length (in_turn (children_in kinds.now bases.now arities.now arguments.now rowfunctions.now
        cells.now) order.now) ≤ length list.old }
    ensures { Filled list.new result (in_turn (children_in kinds.now bases.now
        arities.now arguments.now rowfunctions.now cells.now)
        order.now) }
{
    let mut m = 0;
    for r in order {
        m = lay_row(
            kinds,
            bases,
            arities,
            arguments,
            rowfunctions,
            cells,
            *r as usize,
            list,
            m,
        );
    }
    m
}

// Where each row's children start, and where the last ones end.
fn lay_starts(order: &[u64], arities: &[u64], rowfunctions: &[u64], starts: &mut [usize])
    requires order_len_bound { (length order.now ≤ 1024) × (length order.now < length starts.old) }
    requires each { Each (ArityFits arities.now rowfunctions.now) order.now }
    ensures { Sums (arity_in arities.now rowfunctions.now) order.now
        starts.new }
{
    starts[0] = 0;
    let mut at = 0;
    for (k, r) in order.iter().enumerate() {
        let f = rowfunctions[*r as usize] as usize;
        at += arities[f] as usize;
        starts[k + 1] = at;
    }
}

// The rows in scan order as flat arrays; how many children they have in all.
pub fn lay(
    order: &[u64],
    kinds: &[u64],
    bases: &[u64],
    declared: &[u64],
    costs: &[u64],
    outputs: &[u64],
    arities: &[u64],
    arguments: &[u64],
    rowfunctions: &[u64],
    cells: &[u64],
    classes: &mut [u64],
    heads: &mut [u64],
    starts: &mut [usize],
    children: &mut [u64],
) -> usize
    requires rows_fit { RowsFit kinds.now bases.now declared.now costs.now outputs.now arities.now arguments.now
        rowfunctions.now cells.now order.now }
    requires room { Room order.now classes.old heads.old starts.old children.old }
    ensures { Laid kinds.now bases.now declared.now costs.now
        outputs.now arities.now arguments.now rowfunctions.now
        cells.now order.now result classes.new heads.new starts.new
        children.new }
{
    lay_outputs(order, bases, arities, outputs, rowfunctions, cells, classes);
    lay_heads(order, declared, costs, rowfunctions, heads);
    lay_starts(order, arities, rowfunctions, starts);
    lay_children(
        order,
        kinds,
        bases,
        arities,
        arguments,
        rowfunctions,
        cells,
        children,
    )
}
