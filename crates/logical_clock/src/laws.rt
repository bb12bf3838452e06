ghost use Rattle.std.specs.Prelude.{◌≡◌, ℕ, ◌≤◌, List};
ghost use Rattle.world_types.specs.Rounds.{Round, opened, closed, cut, Ordered};

/// Logical time doesn't fall as real time rises, and an opening or a closing changes it at no earlier stamp.
pub fn cut_laws()
    ensures rises { (rounds : List Round) (s t u : ℕ) → Ordered rounds s → t ≤ u → cut rounds t ≤ cut rounds u }
    ensures opens_later { (rounds : List Round) (a t : ℕ) → t ≤ a → cut (opened a rounds) t ≡ cut rounds t }
    ensures closes_later { (rounds : List Round) (b t : ℕ) → t ≤ b → cut (closed b rounds) t ≡ cut rounds t }
{}
