// The answers of the store's calls, each in one number or in one struct, with the store's counts after a call that
// adds.
ghost use Rattle.std.specs.Prelude.{◌≡◌};
ghost use Rattle.term.specs.Answers.{seen, seen_got};
ghost use Rattle.c_told.specs.Terms.{number_of, order_of, status_of, got_of, added_told_of};

use crate::codes;
use refusal::Refusal;
use std::cmp::Ordering;
use term::Added;
use term_rules::Term;

// 0 and a count or a term's number; or minus a refusal's number, and 0.
#[repr(C)]
#[derive(Clone, Copy)]
pub struct Number {
    pub status: i64,
    pub number: usize,
}

// 0 and a term's number; or minus a refusal's number, and 0. Then the store's counts.
#[repr(C)]
#[derive(Clone, Copy)]
pub struct Adding {
    pub status: i64,
    pub term: usize,
    pub terms: usize,
    pub symbols: usize,
}

// 0, and below, at or above 0 as the first term stands to the second; or minus a refusal's number, and 0.
#[repr(C)]
#[derive(Clone, Copy)]
pub struct Standing {
    pub status: i64,
    pub order: i64,
}

// 0 and a record; or minus a refusal's number, and a record of zeros.
#[repr(C)]
#[derive(Clone, Copy)]
pub struct Got {
    pub status: i64,
    pub term: Term,
}

// The answer of size and of a lookup.
pub fn told_number(r: Result<usize, Refusal>) -> Number
    ensures { result ≡ number_of (seen r) }
{
    match r {
        Ok(number) => Number { status: 0, number },
        Err(k) => Number {
            status: codes::below_zero(k),
            number: 0,
        },
    }
}

// A refusal leaves a store of `n` terms and `m` symbols as it was lent.
pub fn told_added(r: Result<Added, Refusal>, n: usize, m: usize) -> Adding
    ensures { result ≡ added_told_of r n m }
{
    match r {
        Ok(added) => Adding {
            status: 0,
            term: added.term,
            terms: added.terms,
            symbols: added.symbols,
        },
        Err(k) => Adding {
            status: codes::below_zero(k),
            term: 0,
            terms: n,
            symbols: m,
        },
    }
}

pub fn told_order(r: Result<Ordering, Refusal>) -> Standing
    ensures { result ≡ order_of (seen r) }
{
    match r {
        Ok(order) => Standing {
            status: 0,
            order: order as i64,
        },
        Err(k) => Standing {
            status: codes::below_zero(k),
            order: 0,
        },
    }
}

pub fn told_verdict(r: Result<(), Refusal>) -> i64
    ensures { result ≡ status_of (seen r) }
{
    match r {
        Ok(()) => 0,
        Err(k) => codes::below_zero(k),
    }
}

pub fn told_got(r: Result<Term, Refusal>) -> Got
    ensures { result ≡ got_of (seen_got r) }
{
    match r {
        Ok(term) => Got { status: 0, term },
        Err(k) => {
            let term = Term {
                kind: 0,
                symbol: 0,
                count: 0,
                literal: 0,
                children: [0; 8],
            };
            let status = codes::below_zero(k);
            Got { status, term }
        }
    }
}
