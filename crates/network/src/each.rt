//! Checks: of a test that should hold, and of many places in turn.
ghost use Rattle.std.specs.Prelude.{◌≡◌, ℕ, ◌<◌, Option, Result};
ghost use Rattle.std.specs.Result.{result_err};
ghost use Rattle.network.specs.First.{unless, first_of};

/// Refuses with a fault unless a test holds.
pub fn unless<E: Drop>(holds: bool, fault: E) -> Result<(), E>
    ensures { result_err result ≡ unless holds fault }
{
    if holds { Ok(()) } else { Err(fault) }
}

/// Checks the places 0, 1, .. n - 1 in turn, and refuses as the first that refuses.
pub fn check_each<E, F: Fn(usize) -> Result<(), E>>(n: usize, check: F) -> Result<(), E>
    requires { (i : ℕ) → i < n → F.pre check i }
    ensures { (f : ℕ → Option E) → ((i : ℕ) (r : _) → i < n → F.post check i r → result_err r ≡ f i) → result_err result ≡ first_of f n }
{
    // a `for`: `try_for_each` would ask that a check may be called at any number
    for i in 0..n {
        check(i)?;
    }
    Ok(())
}
