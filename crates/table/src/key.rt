ghost use Rattle.std.specs.Prelude.{◌≡◌, ℕ, Bool, Decides, nat_eq, refl};
ghost use Rattle.std.proofs.lemmas.Bool.Decides.{Decides-eqb};

// What rows are looked up by.
pub trait Key: Copy + Eq {
    // What a key stands for.
    ghost Meaning: { Type 0 };

    ghost meaning: { Self → Meaning };

    ghost tells: { Meaning → Meaning → Bool };

    // Two meanings are told apart exactly if they differ.
    ghost exact: { (a b : Meaning) → Decides (tells a b) (a ≡ b) };

    // Two keys are equal exactly if they stand for the same.
    ghost equal: { (a b : Self) → Self.eq a b ≡ tells (meaning a) (meaning b) };
}

// A number of 16 bits, as a place's code is.
impl Key for u16 {
    ghost Meaning = { ℕ };

    ghost meaning = { λ n. n };

    ghost tells = { nat_eq };

    ghost exact = { λ a b. Decides-eqb a b };

    ghost equal = { λ a b. refl };
}
