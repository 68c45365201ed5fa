// Of each class the children that are it, as chains, and of each child its row.
ghost use Rattle.std.specs.Prelude.{◌≡◌, ◌<◌, ◌≤◌, length};
ghost use Rattle.price_passes.specs.Flat.{ChildIn};
ghost use Rattle.price_marks.specs.Links.{Joined, LinkRoom, RowLinked, PartsOk, NoLinks, Index};
ghost use Rattle.price_marks.specs.Passes.{SameLoans, SameSizes};

use super::users::UsersMut;

// The child at place p goes in front of the chain of its class; a literal has none.
fn link(users: &mut UsersMut, child: u64, p: usize)
    requires p_bound { p < 8192 }
    requires p_in_bounds { p < length users.old.next.now }
    requires child_in { ChildIn (length users.old.first.now) child }
    ensures loans { SameLoans users.old users.new }
    ensures joined { Joined child p users.old.first.now users.old.next.now users.new.first.now users.new.next.now }
    ensures owner_kept { users.new.owner.now ≡ users.old.owner.now }
{
    if child >= 512 {
        return;
    }
    let c = child as usize;
    users.next[p] = users.first[c];
    users.first[c] = (p + 1) as u16;
}

// The children of row i, from place a to place e.
fn link_row(users: &mut UsersMut, children: &[u64], i: usize, a: usize, e: usize)
    requires i_bound { i < 1024 }
    requires a_le_e { a ≤ e }
    requires e_in_bounds { e ≤ length children.now }
    requires link_room { LinkRoom children.now users.old.first.now users.old.next.now users.old.owner.now }
    ensures loans { SameLoans users.old users.new }
    ensures linked { RowLinked children.now i a e users.old.first.now users.old.next.now
        users.old.owner.now users.new.first.now users.new.next.now users.new.owner.now }
    ensures sizes { SameSizes users.old users.new }
{
    for p in a..e {
        users.owner[p] = i as u16;
        link(users, children[p], p);
    }
}

// The children of all rows.
pub fn link_all(users: &mut UsersMut, starts: &[usize], children: &[u64], rows: usize)
    requires parts_ok { PartsOk rows starts.now children.now }
    requires link_room { LinkRoom children.now users.old.first.now users.old.next.now users.old.owner.now }
    requires no_links { NoLinks users.old.first.now users.old.next.now users.old.owner.now }
    ensures loans { SameLoans users.old users.new }
    ensures index { Index starts.now children.now users.new.first.now users.new.next.now
        users.new.owner.now rows }
    ensures sizes { SameSizes users.old users.new }
{
    for i in 0..rows {
        let a = starts[i];
        let e = starts[i + 1];
        link_row(users, children, i, a, e);
    }
}
