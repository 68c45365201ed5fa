// Needlevale for programs in C and other languages, each function under its plain name: here the program's answer, the
// reader of a table file and one call on a term store in flat numbers; in the modules the calls on term structs. A
// refusal comes back as its number below zero, and then nothing lent is changed.
// Assumed of the caller, as include/needlevale.h says: each pointer stands for as many elements as its length says, and
// no two overlap.
#![tactic(auto)]

ghost use Rattle.std.specs.Prelude.{◌≡◌};
ghost use Rattle.term_rules.specs.Lent.{store};
ghost use Rattle.term.specs.Calls.{add_literal};
ghost use Rattle.program_rules.specs.Reply.{replied};
ghost use Rattle.file_rules.specs.File.{table_at};
ghost use Rattle.c_told.specs.Files.{shape_of};
ghost use Rattle.needlevale_c.specs.Coded.{Replies, Adds};

use c_told::files::Shape;
use c_told::{codes, files};

pub mod texts; // texts.rt: both texts on an array of term structs
pub mod choices; // choices.rt: best and variants on an array of term structs
pub mod terms; // terms.rt: the store's calls on an array of term structs

// The version as one number: the first * 1,000,000 + the second * 1,000 + the third. scripts/check-header holds it to
// the header's.
#[unsafe(no_mangle)]
pub extern "C" fn needlevale_version() -> u64
    ensures { result ≡ 2000 }
{
    2000
}

// The answer to a query and a table file: its text at the start of `output`, and its length.
#[unsafe(no_mangle)]
pub extern "C" fn needlevale_answer(input: &[u8], output: &mut [u8]) -> i64
    ensures { Replies (replied input.now output.old) result output.new }
{
    match program::answer(input, output) {
        Ok(n) => n as i64,
        Err(r) => codes::below_zero(r),
    }
}

// Whether a table file is accepted, and how many sorts, literals, functions and rows it has.
#[unsafe(no_mangle)]
pub extern "C" fn needlevale_read(file: &[u8]) -> Shape
    ensures { result ≡ shape_of (table_at file.now) }
{
    files::told_file(file)
}

// The number of a literal's term in a lent store, added if it is not there.
#[unsafe(no_mangle)]
pub extern "C" fn needlevale_add_literal_flat(
    records: &mut [u64],
    literals: &mut [i64],
    names: &[u8],
    terms: usize,
    symbols: usize,
    value: i64,
) -> i64
    ensures { Adds
        (add_literal (store records.old literals.old names.now terms symbols) value)
        result records.new literals.new }
{
    match term::add_literal(records, literals, names, terms, symbols, value) {
        Ok(added) => added.term as i64,
        Err(r) => codes::below_zero(r),
    }
}
