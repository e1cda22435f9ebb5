//! What holds of the data in every page. The law is a function that does nothing, so that callers'
//! proofs can cite it.

ghost use Rattle.plan_page.specs.Pages.{escaped, is_markup};
ghost use Rattle.std.specs.Prelude.{◌≡◌, ℕ, All, List, false};

/// What is escaped has no `<`, no `>` and no `&`, whatever it is. So no name in the data ends the
/// element that they stand in, or begins another.
pub fn no_markup_in_data()
    ensures { (bytes : List ℕ) → All (λ byte. is_markup byte ≡ false) (escaped bytes) }
{}
