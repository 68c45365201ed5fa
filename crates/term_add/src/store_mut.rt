// A lent store that terms are added to: what is lent of it, and how many terms and names it has, which goes up with
// each that is new. `lit`, `var`, `app` and `add_node` of src/termdag.rs. Assumes nothing.
ghost use Rattle.std.specs.Prelude.{◌≡◌, true, ◌≤◌, length};
ghost use Rattle.name.specs.Name.{valid};
ghost use Rattle.term_rules.specs.WellFormed.{well_formed};
ghost use Rattle.term_rules.specs.Nodes.{literal, variable, application};
ghost use Rattle.term_rules.specs.Adding.{add, with_record};
ghost use Rattle.term_record.specs.Flat.{filled};
ghost use Rattle.term_layout.specs.Sound.{lent_of, store_of};
ghost use Rattle.term_add.specs.Interning.{room_in, append_named};
ghost use Rattle.term_add.specs.Held.{held, SameLoans, Names, Gains};

use crate::{find_application, find_literal, find_symbol, find_variable, has_name_room, has_room};
use term_layout::lent::Lent;
use term_layout::store::Store;

#[derive(Drop)]
pub struct StoreMut<'a> {
    pub records: &'a mut [u64],
    pub literals: &'a mut [i64],
    pub names: &'a mut [u8],
    pub terms: usize,
    pub symbols: usize,
}

impl<'a> StoreMut<'a> {
    // The store as it is, to be read.
    pub fn read(&self) -> Store<'_>
        requires { well_formed (held self.now) ≡ true }
        ensures { store_of result ≡ held self.now }
    {
        Store {
            records: self.records,
            literals: self.literals,
            names: self.names,
            terms: self.terms,
            symbols: self.symbols,
        }
    }

    // The store as it is, to be checked.
    pub fn lent(&self) -> Lent<'_>
        ensures { lent_of result ≡ held self.now }
    {
        Lent {
            records: self.records,
            literals: self.literals,
            names: self.names,
            terms: self.terms,
            symbols: self.symbols,
        }
    }

    // The number of the name, which is put if it is new.
    fn symbol_for(&mut self, name: &[u8]) -> Option<usize>
        requires sound { well_formed (held self.old) ≡ true }
        requires name_len_bound { length name.now ≤ 31 }
        ensures loans { SameLoans self.old self.new }
        ensures named { Names (held self.old) name.now result (held self.new) }
    {
        let symbols = self.symbols;
        let Some(symbol) = find_symbol(&self.read(), name) else {
            if !has_name_room(self.names.len(), symbols) {
                return None;
            }
            name::put(self.names, symbols, name);
            self.symbols += 1;
            return Some(symbols);
        };
        Some(symbol)
    }

    // Whether one more record fits.
    fn has_room(&self) -> bool
        ensures { result ≡ room_in (length self.now.records.now) (length self.now.literals.now) self.now.terms }
    {
        has_room(self.records.len(), self.literals.len(), self.terms)
    }

    // Appends a record, for which there is room; its number.
    fn push(&mut self, kind: u64, symbol: u64, literal: i64, children: &[u64]) -> usize
        requires room { room_in (length self.old.records.now) (length self.old.literals.now) self.old.terms ≡ true }
        requires children_len_bound { length children.now ≤ 8 }
        ensures loans { SameLoans self.old self.new }
        ensures number { result ≡ self.old.terms }
        ensures pushed { held self.new ≡ with_record (held self.old) (filled kind symbol literal children.now) }
    {
        let term = self.terms;
        let count = children.len() as u64;
        term_layout::put_record(
            self.records,
            self.literals,
            term,
            kind,
            symbol,
            count,
            literal,
            children,
        );
        self.terms += 1;
        term
    }

    // Appends the record of a variable or an application, with its name if that is new.
    fn append_named(&mut self, kind: u64, name: &[u8], children: &[u64]) -> Option<usize>
        requires sound { well_formed (held self.old) ≡ true }
        requires name_len_bound { length name.now ≤ 31 }
        requires children_len_bound { length children.now ≤ 8 }
        ensures loans { SameLoans self.old self.new }
        ensures gains { Gains (held self.old) (append_named (held self.old) kind name.now children.now) result
            (held self.new) }
    {
        if !self.has_room() {
            return None;
        }
        let symbol = self.symbol_for(name)?;
        Some(self.push(kind, symbol as u64, 0, children))
    }

    // Gives the number of the literal, and adds it if it is not there.
    pub fn intern_literal(&mut self, literal: i64) -> Option<usize>
        requires { well_formed (held self.old) ≡ true }
        ensures loans { SameLoans self.old self.new }
        ensures gains { Gains (held self.old)
            (add (held self.old) (Rattle.term_rules.specs.Nodes.literal literal)) result
            (held self.new) }
    {
        let Some(term) = find_literal(&self.read(), literal) else {
            if !self.has_room() {
                return None;
            }
            return Some(self.push(0, 0, literal, &[]));
        };
        Some(term)
    }

    // Gives the number of the variable, and adds it if it is not there.
    pub fn intern_variable(&mut self, name: &[u8]) -> Option<usize>
        requires sound { well_formed (held self.old) ≡ true }
        requires named { valid name.now ≡ true }
        ensures loans { SameLoans self.old self.new }
        ensures gains { Gains (held self.old) (add (held self.old) (variable name.now)) result (held self.new) }
    {
        let Some(term) = find_variable(&self.read(), name) else {
            return self.append_named(1, name, &[]);
        };
        Some(term)
    }

    // Gives the number of the application, and adds it if it is not there.
    pub fn intern_application(&mut self, name: &[u8], children: &[u64]) -> Option<usize>
        requires sound { well_formed (held self.old) ≡ true }
        requires named { valid name.now ≡ true }
        requires children_len_bound { length children.now ≤ 8 }
        ensures loans { SameLoans self.old self.new }
        ensures gains { Gains (held self.old) (add (held self.old) (application name.now children.now)) result
            (held self.new) }
    {
        let Some(term) = find_application(&self.read(), name, children) else {
            return self.append_named(2, name, children);
        };
        Some(term)
    }
}
