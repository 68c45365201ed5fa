// Flat class numbers: class v of eq sort s has the number bases[s] + v.
ghost use Rattle.std.specs.Prelude.{◌≡◌, ◌≤◌, length};
ghost use Rattle.table_flat.specs.Classes.{first_class, Bases};

// The first number of each sort, from the sorts' class counts; how many classes there are in all.
pub fn number_sorts(sorts: usize, classes: &[u64], bases: &mut [u64]) -> u64
    requires sorts_in_bounds { (sorts ≤ length classes.now) × (sorts ≤ length bases.old) }
    requires sorts_bound { first_class classes.now sorts ≤ 512 }
    ensures value { result ≡ first_class classes.now sorts }
    ensures bases { Bases sorts classes.now bases.new }
{
    let mut total = 0;
    for s in 0..sorts {
        bases[s] = total;
        total += classes[s];
    }
    total
}
