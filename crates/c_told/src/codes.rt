// A refusal as one number below zero, for callers that get one number back.
ghost use Rattle.std.specs.Prelude.{◌≡◌};
ghost use Rattle.c_told.specs.Below.{below_zero};

use refusal::Refusal;

// Document 01's number of a refusal, below zero.
pub fn below_zero(r: Refusal) -> i64
    ensures { result ≡ below_zero r }
{
    -i64::from(refusal::number(r))
}
