// The reader of a table file's functions: each into its place of the arrays.
ghost use Rattle.std.specs.Prelude.{◌≡◌, List, ◌+◌, ◌*◌, ◌^◌, ◌<◌, ◌≤◌, length, take};
ghost use Rattle.name.specs.Entries.{Entries};
ghost use Rattle.file_rules.specs.Table.{Function};
ghost use Rattle.file_rules.specs.Functions.{function_at, functions_at};
ghost use Rattle.file_rules.specs.Reading.{Reads};
ghost use Rattle.file_rules.specs.Held.{holds_functions, empty};
ghost use Rattle.file_names.specs.Name.{HoldsNames};
ghost use Rattle.file_reader.specs.Held.{put_function};

use file_fields::function_fields;
use file_rules::{Functions, Sorts};
use refusal::Refusal;

// The function at position `at`, into place `i` of the arrays; there are `n` sorts, the first of `sorts`.
fn read_function(
    s: &[u8],
    at: usize,
    n: usize,
    sorts: &Sorts,
    i: usize,
    functions: &mut Functions,
) -> Result<usize, Refusal>
    requires at_bound { at < 2 ^ 39 }
    requires n_bound { (n < 32) × (length sorts.now.kinds ≡ 32) }
    requires i_bound { i < 128 }
    requires entries { Entries functions.old.names i }
    ensures { (fs : List Function) → HoldsNames functions.old.names i fs
        → Reads (function_at s.now (take n sorts.now.kinds) fs at) result
        (put_function i functions.old functions.new) }
{
    let p = file_names::read_name(s, at, i, &mut functions.names)?;
    let q = function_fields::read_cost(s, p, i, &mut functions.declared, &mut functions.costs)?;
    let t = function_fields::read_flags(
        s,
        q,
        i,
        &mut functions.unextractable,
        &mut functions.hidden,
    )?;
    let u = function_fields::read_output(s, t, n, sorts, i, &mut functions.outputs)?;
    function_fields::read_arguments(s, u, n, i, &mut functions.arities, &mut functions.arguments)
}

// `count` functions from position `at`, into arrays of zeros; there are `n` sorts, the first of `sorts`.
pub fn read_functions(
    s: &[u8],
    at: usize,
    count: usize,
    n: usize,
    sorts: &Sorts,
    functions: &mut Functions,
) -> Result<usize, Refusal>
    requires at_bound { at < 2 ^ 32 }
    requires count_bound { count < 128 }
    requires n_bound { (n < 32) × (length sorts.now.kinds ≡ 32) }
    requires functions_value { functions.old ≡ empty.functions }
    ensures { Reads (functions_at s.now (take n sorts.now.kinds) count at) result
        (holds_functions functions.new) }
{
    let mut p = at;
    for i in 0..count {
        p = read_function(s, p, n, sorts, i, functions)?;
    }
    Ok(p)
}
