// Rows packed out of flat lists, in scan order: `order` has each row's number in the file, `functions` the function of
// each row of the file, `outputs` each row's class, `starts` where its children begin in `children`.
ghost use Rattle.std.specs.Prelude.{◌≡◌, ◌*◌, ◌<◌, ◌≤◌, length, get_or, take};
ghost use Rattle.table_layout.specs.Rows.{width, HasRow, put_row};
ghost use Rattle.table_layout.specs.Packed.{Narrow, part_of, PackReady, Packed};

// Numbers that fit as narrow ones, to the front of `to`.
fn narrow(to: &mut [u16], from: &[u64])
    requires { (length from.now ≤ length to.old) × Narrow from.now }
    ensures { take (length from.now) to.new ≡ from.now }
{
    for (j, x) in from.iter().enumerate() {
        to[j] = *x as u16;
    }
}

// Packs row `i`.
fn put_one(
    rows: &mut [u16],
    order: &[u64],
    functions: &[u64],
    outputs: &[u64],
    starts: &[usize],
    children: &[u64],
    i: usize,
)
    requires pack_ready { PackReady order.now functions.now outputs.now starts.now children.now }
    requires i_in_bounds { (i < length outputs.now) × HasRow rows.old i }
    ensures { rows.new
        ≡ put_row rows.old i (get_or order.now i 0)
        (get_or functions.now (get_or order.now i 0) 0) (get_or outputs.now i 0)
        (part_of starts.now children.now i) }
{
    let r = order[i];
    let f = functions[r as usize];
    let a = starts[i];
    let e = starts[i + 1];
    let n = e - a;
    let mut kids = [0u16; 8];
    narrow(&mut kids, &children[a..e]);
    crate::put_row(rows, i, r as u16, f as u16, outputs[i] as u16, &kids[..n]);
}

// Packs them all.
pub fn fill(
    rows: &mut [u16],
    order: &[u64],
    functions: &[u64],
    outputs: &[u64],
    starts: &[usize],
    children: &[u64],
)
    requires pack_ready { PackReady order.now functions.now outputs.now starts.now children.now }
    requires width_in_bounds { length outputs.now * width ≤ length rows.old }
    ensures { Packed order.now functions.now outputs.now starts.now
        children.now rows.new (length outputs.now) }
{
    for i in 0..outputs.len() {
        put_one(rows, order, functions, outputs, starts, children, i);
    }
}
