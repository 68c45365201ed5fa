// Many terms added to a lent store by one call: a list of adds, the store checked once, all or nothing. It equals the
// adds of `term` made one by one (`lit`, `var`, `app` of src/termdag.rs).
#![tactic(auto)]

ghost use Rattle.std.specs.Prelude.{◌≡◌, true, ◌≤◌, length};
ghost use Rattle.term_rules.specs.WellFormed.{well_formed};
ghost use Rattle.term_add.specs.Held.{held, SameLoans};
ghost use Rattle.term_one.specs.Wanted.{wanted_of};
ghost use Rattle.term_many.specs.Many.{add_many, seen_many};
ghost use Rattle.term_many.specs.Made.{Made};

use refusal::Refusal;
use term_add::store_mut::StoreMut;
use term_one::adds::Adds;

// The adds in order, their numbers into the front of `got`; the number of add `room` has no place.
fn add_all(store: &mut StoreMut, list: &Adds, got: &mut [u64], room: usize) -> Result<(), Refusal>
    requires sound { well_formed (held store.old) ≡ true }
    requires room_in_bounds { room ≤ length got.old }
    ensures loans { SameLoans store.old store.new }
    ensures made { Made (wanted_of list.now) room (held store.old) result got.new (held store.new) }
{
    let count = term_layout::record_room(list.adds.len());
    for e in 0..count {
        let term = term_one::add_one(store, list, got, e)?;
        if room <= e {
            return Err(Refusal::NoRoom);
        }
        got[e] = term as u64;
    }
    Ok(())
}

// Adds the terms of a list, all or nothing, with their numbers at the front of `numbers`: R-term-18. An add lies as a
// record of the store does: its kind; the number of its name's entry in `labels`; the count of its children; its
// children. The literal of add `e` is `values[e]`. A child below 1,024 is a term of the store, 1,024 + d the term of
// add `d`, an earlier one.
pub fn add_many(store: &mut StoreMut, list: &Adds, numbers: &mut [u64]) -> Result<(), Refusal>
    ensures loans { SameLoans store.old store.new }
    ensures added { seen_many result (held store.new) numbers.new
        ≡ add_many (wanted_of list.now) (held store.old) numbers.old }
{
    let terms = store.terms;
    let symbols = store.symbols;
    let old = store.lent();
    if !term_record::check(&old) {
        return Err(Refusal::BadStore);
    }
    let mut old_records = [0u64; term_layout::RECORDS];
    let mut old_literals = [0i64; 1024];
    let mut old_names = [0u8; name::TABLE];
    let mut got = [0u64; 1024];
    copies::over(&mut old_records, old.records);
    copies::over(&mut old_literals, old.literals);
    copies::over(&mut old_names, old.names);
    let room = numbers.len().min(1024);
    let r = add_all(store, list, &mut got, room);
    match r {
        Err(why) => {
            copies::over(store.records, &old_records);
            copies::over(store.literals, &old_literals);
            copies::over(store.names, &old_names);
            store.terms = terms;
            store.symbols = symbols;
            Err(why)
        }
        Ok(()) => {
            let count = term_layout::record_room(list.adds.len());
            copies::over(numbers, &got[..count]);
            Ok(())
        }
    }
}
