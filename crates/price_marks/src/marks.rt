// Marks of rows: one for each row, and one for each block of 32 rows.
ghost use Rattle.std.specs.Prelude.{◌≡◌, ◌+◌, ◌*◌, ◌/◌, ◌<◌, ◌≤◌, length};
ghost use Rattle.price_marks.specs.Marks.{Room, Scanned, InBlock, Next};
ghost use Rattle.price_marks.specs.Links.{LinksOk, MarkedFrom};
ghost use Rattle.price_marks.specs.Passes.{SameMarks};

// The marks of 1,024 rows, 0 or not, and those of their blocks.
#[derive(Drop)]
pub struct Marks<'a> {
    pub rows: &'a mut [u8],
    pub blocks: &'a mut [u8],
}

// Marks the rows of the chain from link h on.
pub fn mark_from(marks: &mut Marks, h: usize, next: &[u16], owner: &[u16])
    requires room { Room marks.old.rows.now marks.old.blocks.now }
    requires links_ok { LinksOk next.now owner.now h }
    ensures loans { SameMarks marks.old marks.new }
    ensures marked { MarkedFrom next.now owner.now h marks.old.rows.now marks.old.blocks.now
        marks.new.rows.now marks.new.blocks.now }
    ensures room { Room marks.new.rows.now marks.new.blocks.now }
{
    let mut g = h;
    while g > 0 {
        let q = g - 1;
        let i = usize::from(owner[q]);
        marks.rows[i] = 1;
        marks.blocks[i / 32] = 1;
        g = usize::from(next[q]);
    }
}

// The first marked row from `from` on, up to `to`.
fn scan(marks: &[u8], from: usize, to: usize) -> usize
    requires from_le_to { from ≤ to }
    requires to_in_bounds { to ≤ length marks.now }
    ensures { Scanned marks.now from to result }
{
    for j in from..to {
        if marks[j] != 0 {
            return j;
        }
    }
    to
}

// The same within the block of `from`, which ends at `to`; a block without marks loses its own.
fn in_block(marks: &[u8], blocks: &mut [u8], from: usize, to: usize) -> usize
    requires room { Room marks.now blocks.old }
    requires from_bound { from < 1024 }
    requires to_value { to ≡ from / 32 * 32 + 32 }
    ensures { InBlock marks.now blocks.old blocks.new from to result }
{
    let b = from / 32;
    if blocks[b] == 0 {
        return to;
    }
    let j = scan(marks, from, to);
    if j < to {
        return j;
    }
    if b * 32 < from {
        return to;
    }
    blocks[b] = 0;
    to
}

// The next row from `from` on that is marked.
pub fn next_marked(marks: &[u8], blocks: &mut [u8], from: usize) -> usize
    requires room { Room marks.now blocks.old }
    requires from_bound { from ≤ 1024 }
    ensures { Next marks.now blocks.old blocks.new from result }
{
    let mut i = from;
    while i < 1024 {
        let to = i / 32 * 32 + 32;
        let j = in_block(marks, blocks, i, to);
        if j < to {
            return j;
        }
        i = to;
    }
    i
}
