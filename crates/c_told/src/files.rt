// Whether a table file is accepted, and how much it holds: document 01, 'The table file'.
ghost use Rattle.std.specs.Prelude.{◌≡◌};
ghost use Rattle.file_rules.specs.File.{table_at};
ghost use Rattle.c_told.specs.Files.{shape_of, shape_told};

use crate::codes;
use file_rules::{Counts, Table};
use refusal::Refusal;

// 0, and how many sorts, literals, functions and rows the table has; or minus a refusal's number, and zeros.
#[repr(C)]
#[derive(Clone, Copy)]
pub struct Shape {
    pub status: i64,
    pub sorts: usize,
    pub literals: usize,
    pub functions: usize,
    pub rows: usize,
}

fn told_counts(r: Result<Counts, Refusal>) -> Shape
    ensures { result ≡ shape_told r }
{
    match r {
        Ok(counts) => Shape {
            status: 0,
            sorts: counts.sorts,
            literals: counts.literals,
            functions: counts.functions,
            rows: counts.rows,
        },
        Err(k) => Shape {
            status: codes::below_zero(k),
            sorts: 0,
            literals: 0,
            functions: 0,
            rows: 0,
        },
    }
}

// Reads the table file `file` into arrays of its own, and tells how much it holds, or its first fault.
pub fn told_file(file: &[u8]) -> Shape
    ensures { result ≡ shape_of (table_at file.now) }
{
    let Table {
        mut sorts,
        mut literals,
        mut functions,
        mut rows,
    } = Table::empty();
    told_counts(file_reader::read_parts(file, &mut sorts, &mut literals, &mut functions, &mut rows))
}
