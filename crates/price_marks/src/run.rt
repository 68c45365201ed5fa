// The run: plain passes over few rows, marked ones over many.
ghost use Rattle.std.specs.Prelude.{◌≡◌, ◌≤◌, length};
ghost use Rattle.choice_rules.specs.Run.{run};
ghost use Rattle.price_passes.specs.Flat.{top, flat_of, FlatIn, Fresh, state_of, ran_to};
ghost use Rattle.price_marks.specs.Marks.{Off, Room, Covered};
ghost use Rattle.price_marks.specs.Passes.{Ready};

use super::links::link_all;
use super::marks::Marks;
use super::users::{Users, UsersMut};
use price_passes::flat::Rows;
use price_passes::passes::Run;

// From so many rows on marks are worth their making.
const MANY: usize = 100;

// Places for children: eight for each of 1,024 rows.
const PLACES: usize = 8192;

// Marked passes until one changes nothing; that one is counted.
fn repeat_marked(
    costs: &mut [u64],
    ranks: &mut [u64],
    marks: &mut Marks,
    rows: &Rows,
    users: &Users,
) -> Run
    requires fresh { Fresh costs.old ranks.old }
    requires ready { Ready (length ranks.old) rows.now users.now }
    requires room { Room marks.old.rows.now marks.old.blocks.now }
    requires covered { Covered top (flat_of rows.now)
        (state_of costs.old ranks.old 0) (Off marks.old.rows.now marks.old.blocks.now) }
    ensures { ran_to costs.new ranks.new result.last result.passes
        ≡ run top (flat_of rows.now)
        (length ranks.old) }
{
    let mut l = 0;
    let mut p = 0;
    loop {
        let m = super::passes::one_pass(costs, ranks, l, marks, rows, users);
        p += 1;
        if m == l {
            return Run { passes: p, last: m };
        }
        l = m;
    }
}

// The index is made, every row is marked, and marked passes follow.
pub fn with_marks(costs: &mut [u64], ranks: &mut [u64], rows: &Rows) -> Run
    requires children_len_bound { length rows.now.children.now ≤ 8192 }
    requires fresh { Fresh costs.old ranks.old }
    requires flat_ok { FlatIn (length ranks.old) rows.now }
    ensures { ran_to costs.new ranks.new result.last result.passes
        ≡ run top (flat_of rows.now)
        (length ranks.old) }
{
    let mut first: [u16; 512] = [0; 512];
    let mut next: [u16; 8192] = [0; 8192];
    let mut owner: [u16; 8192] = [0; 8192];
    let mut row_marks: [u8; 1024] = [1; 1024];
    let mut blocks: [u8; 32] = [1; 32];
    let mut made = UsersMut {
        first: &mut first,
        next: &mut next,
        owner: &mut owner,
    };
    link_all(&mut made, rows.starts, rows.children, rows.outputs.len());
    let users = Users {
        first: &first,
        next: &next,
        owner: &owner,
    };
    let mut marks = Marks {
        rows: &mut row_marks,
        blocks: &mut blocks,
    };
    repeat_marked(costs, ranks, &mut marks, rows, &users)
}

// Passes until one changes nothing; that one is counted. The contract is that of `price_passes::passes::repeat`, which
// serves where rows are few, or the children are more than there are places for.
pub fn repeat(costs: &mut [u64], ranks: &mut [u64], rows: &Rows) -> Run
    requires fresh { Fresh costs.old ranks.old }
    requires flat_ok { FlatIn (length ranks.old) rows.now }
    ensures { ran_to costs.new ranks.new result.last result.passes
        ≡ run top (flat_of rows.now)
        (length ranks.old) }
{
    if rows.outputs.len() >= MANY {
        if rows.children.len() <= PLACES {
            return with_marks(costs, ranks, rows);
        }
    }
    price_passes::passes::repeat(costs, ranks, rows)
}
