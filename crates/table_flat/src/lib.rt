// Flat class numbers and flat rows: the arrays that the relaxation goes by, out of a table's arrays and the scan order.
// From src/extract.rs: its maps by sort name and value (costs, topo_rnk) become flat class numbers.
#![tactic(auto)]

pub mod classes; // classes.rt: the first flat class number of each sort
pub mod rows; // rows.rt: the outputs, head costs and children of the rows in scan order
