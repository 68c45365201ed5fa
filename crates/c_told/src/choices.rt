// The answers of best and variants, each in one struct, with the store's counts as they are then.
ghost use Rattle.std.specs.Prelude.{◌≡◌};
ghost use Rattle.c_told.specs.Choices.{best_told_of, variants_told_of};

use crate::codes;
use lent_extract::counted::{Chosen, Varied};
use refusal::Refusal;

// 0, the cost, the term and the passes; or minus a refusal's number, and zeros. Then the store's counts.
#[repr(C)]
#[derive(Clone, Copy)]
pub struct Best {
    pub status: i64,
    pub cost: u64,
    pub term: usize,
    pub passes: u64,
    pub terms: usize,
    pub symbols: usize,
}

// 0, how many variants are kept and the passes; or minus a refusal's number, and zeros. Then the store's counts.
#[repr(C)]
#[derive(Clone, Copy)]
pub struct Variants {
    pub status: i64,
    pub count: usize,
    pub passes: u64,
    pub terms: usize,
    pub symbols: usize,
}

// A refusal leaves a store of `n` terms and `m` symbols as it was lent.
pub fn told_best(r: Result<Chosen, Refusal>, n: usize, m: usize) -> Best
    ensures { result ≡ best_told_of r n m }
{
    match r {
        Ok(best) => Best {
            status: 0,
            cost: best.cost,
            term: best.term,
            passes: best.passes,
            terms: best.terms,
            symbols: best.symbols,
        },
        Err(k) => Best {
            status: codes::below_zero(k),
            cost: 0,
            term: 0,
            passes: 0,
            terms: n,
            symbols: m,
        },
    }
}

pub fn told_variants(r: Result<Varied, Refusal>, n: usize, m: usize) -> Variants
    ensures { result ≡ variants_told_of r n m }
{
    match r {
        Ok(kept) => Variants {
            status: 0,
            count: kept.count,
            passes: kept.passes,
            terms: kept.terms,
            symbols: kept.symbols,
        },
        Err(k) => Variants {
            status: codes::below_zero(k),
            count: 0,
            passes: 0,
            terms: n,
            symbols: m,
        },
    }
}
