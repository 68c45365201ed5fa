// One marked row: its mark goes, it is relaxed, and where its class has a new cost the rows that use it are marked.
ghost use Rattle.std.specs.Prelude.{◌≡◌, ◌<◌, length};
ghost use Rattle.price_passes.specs.Flat.{top, flat_of, state_of};
ghost use Rattle.price_marks.specs.Marks.{Off, Room, Covered};
ghost use Rattle.price_marks.specs.Passes.{Ready, Turned, SameMarks};

use super::marks::{Marks, mark_from};
use super::users::Users;
use price_passes::flat::Rows;

pub fn turn(
    costs: &mut [u64],
    ranks: &mut [u64],
    last: u64,
    marks: &mut Marks,
    i: usize,
    rows: &Rows,
    users: &Users,
) -> u64
    requires last_lt_top { last < top }
    requires costs_len { length costs.old ≡ length ranks.old }
    requires i_in_bounds { i < length rows.now.outputs.now }
    requires ready { Ready (length ranks.old) rows.now users.now }
    requires room { Room marks.old.rows.now marks.old.blocks.now }
    requires covered { Covered top (flat_of rows.now)
        (state_of costs.old ranks.old last) (Off marks.old.rows.now marks.old.blocks.now) }
    ensures loans { SameMarks marks.old marks.new }
    ensures turned { Turned
        (flat_of rows.now) i
        (state_of costs.old ranks.old last) (state_of costs.new ranks.new result)
        marks.new.rows.now marks.new.blocks.now }
{
    marks.rows[i] = 0;
    let output = rows.outputs[i] as usize;
    let head = rows.heads[i];
    let a = rows.starts[i];
    let e = rows.starts[i + 1];
    let m = price_passes::rows::relax_row(costs, ranks, last, output, head, &rows.children[a..e]);
    if m == last {
        return m;
    }
    mark_from(
        marks,
        usize::from(users.first[output]),
        users.next,
        users.owner,
    );
    m
}
