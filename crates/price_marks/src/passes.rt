// One pass over the marked rows.
ghost use Rattle.std.specs.Prelude.{◌≡◌, ◌+◌, ◌<◌, length};
ghost use Rattle.price_passes.specs.Flat.{top, flat_of, state_of};
ghost use Rattle.price_marks.specs.Marks.{Off, Room, Covered};
ghost use Rattle.price_marks.specs.Passes.{Ready, Passed, SameMarks};

use super::marks::{Marks, next_marked};
use super::rows::turn;
use super::users::Users;
use price_passes::flat::Rows;

// In order and in place; the last rank given comes back.
pub fn one_pass(
    costs: &mut [u64],
    ranks: &mut [u64],
    last: u64,
    marks: &mut Marks,
    rows: &Rows,
    users: &Users,
) -> u64
    requires outputs_bound { last + length rows.now.outputs.now < top }
    requires costs_len { length costs.old ≡ length ranks.old }
    requires ready { Ready (length ranks.old) rows.now users.now }
    requires room { Room marks.old.rows.now marks.old.blocks.now }
    requires covered { Covered top (flat_of rows.now)
        (state_of costs.old ranks.old last) (Off marks.old.rows.now marks.old.blocks.now) }
    ensures loans { SameMarks marks.old marks.new }
    ensures passed { Passed
        (flat_of rows.now)
        (state_of costs.old ranks.old last) (state_of costs.new ranks.new result)
        marks.new.rows.now marks.new.blocks.now }
{
    let mut l = last;
    let mut i = 0;
    loop {
        let row_marks = &mut *marks.rows;
        let blocks = &mut *marks.blocks;
        i = next_marked(row_marks, blocks, i);
        if i >= rows.outputs.len() {
            return l;
        }
        l = turn(costs, ranks, l, marks, i, rows, users);
        i += 1;
    }
}
