//! A number's text is the one that is printed for it.

ghost use Rattle.std.specs.Prelude.{◌≡◌, ℕ, ◌^◌, ◌<◌, ◌≤◌, List};
ghost use Rattle.std.specs.Fmt.{decimal};
ghost use Rattle.mqsc_values.specs.Numbers.{number_of};
ghost use Rattle.mqsc_values.specs.declared.numbers.Number.TheVariants.{Value, TooLarge};

/// A text says a number only where it is the one that is printed for it.
pub fn numbers_have_one_text()
    ensures { (text : List ℕ) (most n : ℕ) → n < 2 ^ 64 → number_of text most ≡ Value n → (decimal n ≡ text) × (n ≤ most) }
{}

/// What is printed for a number says that number, or that it is too large.
pub fn texts_say_their_numbers()
    ensures fitting { (n most : ℕ) → n < 2 ^ 64 → n ≤ most → number_of (decimal n) most ≡ Value n }
    ensures larger { (n most : ℕ) → n < 2 ^ 64 → most < n → number_of (decimal n) most ≡ TooLarge }
{}
