// The format of a table file: its definition is in specs/, and here are the arrays that a table stands in, and the
// answers of the readers of its parts.
#![tactic(auto)]

ghost use Rattle.std.specs.Prelude.{◌≡◌};
ghost use Rattle.file_rules.specs.Literals.{signed};
ghost use Rattle.file_rules.specs.Held.{empty};

// The sorts of a table, each at its place: its kind and its class count.
#[derive(Clone, Copy)]
pub struct Sorts {
    pub kinds: [u64; 32],
    pub classes: [u64; 32],
}

// The functions of a table, each at its place: an entry for a name, 8 places for the argument sorts.
#[derive(Clone, Copy)]
pub struct Functions {
    pub names: [u8; name::TABLE],
    pub declared: [u64; 128],
    pub costs: [u64; 128],
    pub unextractable: [u64; 128],
    pub hidden: [u64; 128],
    pub outputs: [u64; 128],
    pub arities: [u64; 128],
    pub arguments: [u64; 1024],
}

// The rows of a table, each at its place: 9 places for the cells.
#[derive(Clone, Copy)]
pub struct Rows {
    pub functions: [u64; 1024],
    pub subsumed: [u64; 1024],
    pub cells: [u64; 9216],
}

// A table in its arrays: each list from the front, zeros after it.
#[derive(Clone, Copy)]
pub struct Table {
    pub sorts: Sorts,
    pub literals: [i64; 512],
    pub functions: Functions,
    pub rows: Rows,
}

impl Table {
    // The arrays of no table: zeros.
    pub fn empty() -> Table
        ensures { result ≡ empty }
    {
        Table {
            sorts: Sorts {
                kinds: [0; 32],
                classes: [0; 32],
            },
            literals: [0; 512],
            functions: Functions {
                names: [0; name::TABLE],
                declared: [0; 128],
                costs: [0; 128],
                unextractable: [0; 128],
                hidden: [0; 128],
                outputs: [0; 128],
                arities: [0; 128],
                arguments: [0; 1024],
            },
            rows: Rows {
                functions: [0; 1024],
                subsumed: [0; 1024],
                cells: [0; 9216],
            },
        }
    }
}

// How many things were read, and the position after them.
#[derive(Clone, Copy)]
pub struct Counted {
    pub count: usize,
    pub next: usize,
}

// How many sorts, literals, functions and rows a table has.
#[derive(Clone, Copy)]
pub struct Counts {
    pub sorts: usize,
    pub literals: usize,
    pub functions: usize,
    pub rows: usize,
}

// The signed number that 64 bits are in two's complement.
pub fn signed_of(v: u64) -> i64
    ensures { result ≡ signed v }
{
    v.cast_signed()
}
