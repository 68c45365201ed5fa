// The query that stands before the table file.
ghost use Rattle.std.specs.Prelude.{◌≡◌};
ghost use Rattle.program_rules.specs.Query.{query_at};
ghost use Rattle.program_rules.specs.Asked.{got_query};

use refusal::Refusal;

// What is asked.
#[derive(Clone, Copy)]
pub struct Query {
    pub mode: u64,
    pub sort: u64,
    pub value: u64,
    pub most: u64,
}

// The query at the start of the input; or the first fault.
pub fn ask(input: &[u8]) -> Result<Query, Refusal>
    ensures { got_query result ≡ query_at input.now }
{
    let (mode, _) = bits::read(input, 0, 2)?;
    if mode == 3 {
        return Err(Refusal::BadMode);
    }
    let (sort, _) = bits::read(input, 2, 5)?;
    let (value, _) = bits::read(input, 7, 9)?;
    let (most, _) = bits::read(input, 16, 8)?;
    Ok(Query {
        mode,
        sort,
        value,
        most,
    })
}
