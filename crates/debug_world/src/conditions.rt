//! Conditions that are tested in their order.

ghost use Rattle.std.specs.Prelude.{◌≡◌, ◌&&◌, nat_le};
ghost use Rattle.world_rules.specs.Conditions.{first_of};

use world_rules::Condition;

/// The number of the first condition that doesn't hold.
pub fn first_failing_of(tests: &[(Condition, bool)]) -> Option<u8>
    ensures { result ≡ first_of tests.now }
{
    for &(condition, holds) in tests {
        if !holds {
            return Some(condition.number());
        }
    }
    None
}

/// Whether a reading is at or after the first time, and not after the last.
pub fn is_between(first: u64, reading: u64, last: u64) -> bool
    ensures { result ≡ (nat_le first reading && nat_le reading last) }
{
    first <= reading && reading <= last
}
