// Copying what is lent, and putting it back: "Nothing lent is changed" on a refusal.
#![tactic(auto)]

ghost use Rattle.std.specs.Prelude.{◌≡◌};
ghost use Rattle.copies.specs.Copied.{copied};

// Copies the first places of `from` over those of `to`, as many as both have.
pub fn over<T: Copy>(to: &mut [T], from: &[T])
    ensures { to.new ≡ copied to.old from.now }
{
    let n = to.len().min(from.len());
    to[..n].copy_from_slice(&from[..n]);
}
