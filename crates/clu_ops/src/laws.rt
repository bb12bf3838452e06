//! What holds of the operations, whatever does them.

ghost use Rattle.std.specs.Prelude.{◌≡◌, ◌≢◌, ℤ, pos, true, List, ℕ};
ghost use Rattle.std.specs.Int.{int_div_euclid, int_rem_euclid};
ghost use Rattle.std.specs.Fmt.{signed_decimal};
ghost use Rattle.clu_ops.specs.Ends.{number};
ghost use Rattle.clu_ops.specs.Ints.{is_int, parsed, IsDivision};

/// The quotient and the remainder solve `x = q*y + r` with `0 <= r < |y|`, and nothing else does.
pub fn division()
    ensures solves { (x y : ℤ) → y ≢ pos 0 → IsDivision x y (int_div_euclid x y) (int_rem_euclid x y) }
    ensures alone { (x y q r : ℤ) → IsDivision x y q r → (q ≡ int_div_euclid x y) × (r ≡ int_rem_euclid x y) }
{}

/// What `unparse` writes is read by `parse` as the same int.
pub fn parse_after_unparse()
    ensures { (z : ℤ) → is_int z ≡ true → parsed (signed_decimal z) ≡ number z }
{}
