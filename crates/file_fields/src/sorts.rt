// The reader of a table file's sorts.
ghost use Rattle.std.specs.Prelude.{◌≡◌, ◌+◌, ◌*◌, ◌^◌, ◌<◌, ◌≤◌};
ghost use Rattle.file_rules.specs.Sorts.{sort_at, sorts_at};
ghost use Rattle.file_rules.specs.Reading.{Reads};
ghost use Rattle.file_rules.specs.Held.{holds_sorts, empty};
ghost use Rattle.file_fields.specs.Answers.{got_sort};

use file_rules::Sorts;
use refusal::Refusal;

// A sort that was read, its class count, and the position after it.
#[derive(Clone, Copy)]
struct Sort {
    kind: u64,
    classes: u64,
    next: usize,
}

// The sort at position `at`, where the sorts before it have `total` classes.
fn read_sort(s: &[u8], at: usize, total: u64) -> Result<Sort, Refusal>
    requires at_bound { at < 2 ^ 40 }
    requires total_bound { total ≤ 512 }
    ensures { got_sort result ≡ sort_at s.now at total }
{
    let (kind, p) = bits::read(s, at, 1)?;
    if kind == 0 {
        return Ok(Sort {
            kind: 0,
            classes: 0,
            next: p,
        });
    }
    let (n, q) = bits::read(s, p, 10)?;
    if 512 < total + n {
        return Err(Refusal::BadSize);
    }
    Ok(Sort {
        kind: 1,
        classes: n,
        next: q,
    })
}

// `n` sorts from position `at`, into arrays of zeros.
pub fn read_sorts(s: &[u8], at: usize, n: usize, sorts: &mut Sorts) -> Result<usize, Refusal>
    requires at_bound { at < 2 ^ 32 }
    requires n_bound { n < 32 }
    requires sorts_value { sorts.old ≡ empty.sorts }
    ensures { Reads (sorts_at s.now n at) result (holds_sorts sorts.new) }
{
    let mut p = at;
    let mut total = 0;
    for i in 0..n {
        let x = read_sort(s, p, total)?;
        sorts.kinds[i] = x.kind;
        sorts.classes[i] = x.classes;
        total += x.classes;
        p = x.next;
    }
    Ok(p)
}
