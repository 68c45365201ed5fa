// What is to be built, as it lies in packed rows: for each class the row that its edge names. Assumes nothing.

// The rows that a root sort reaches; of each class the number of its row; the functions' names; the literals.
#[derive(Clone, Copy)]
pub struct Plan<'a> {
    pub rows: &'a [u16],
    pub edges: &'a [u16],
    pub labels: &'a [u8],
    pub values: &'a [i64],
}
