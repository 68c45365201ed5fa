// The answers of both texts: a length, or a refusal's number below zero.
ghost use Rattle.std.specs.Prelude.{◌≡◌};
ghost use Rattle.text_whole.specs.Placed.{answer_of};
ghost use Rattle.text_whole.specs.LetPlaced.{let_answer_of};
ghost use Rattle.c_told.specs.Texts.{coded_text, let_coded, TextFits, LetFits};

use crate::codes;
use refusal::Refusal;
use text_whole::LetText;

// The length of a let text and the next unused count; or minus a refusal's number, and 0.
#[repr(C)]
#[derive(Clone, Copy)]
pub struct LetLength {
    pub length: i64,
    pub next: u64,
}

pub fn told_text(r: Result<usize, Refusal>) -> i64
    requires { TextFits r }
    ensures { result ≡ coded_text (answer_of r) }
{
    match r {
        Ok(n) => n as i64,
        Err(k) => codes::below_zero(k),
    }
}

pub fn told_lets(r: Result<LetText, Refusal>) -> LetLength
    requires { LetFits r }
    ensures { result ≡ let_coded (let_answer_of r) }
{
    match r {
        Ok(text) => LetLength {
            length: text.length as i64,
            next: text.next,
        },
        Err(k) => LetLength {
            length: codes::below_zero(k),
            next: 0,
        },
    }
}
