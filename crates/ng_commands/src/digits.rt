//! Whole numbers in commands.
ghost use Rattle.std.specs.Prelude.{◌≡◌, ◌≤◌, ◌*◌, ◌+◌, ◌^◌, ◌<◌, ℕ, MatchOption};
ghost use Rattle.ng_commands.specs.Commands.{AreDigitsOf};

/// The number that digits stand for, with any leading zeros. `None` if it is above the greatest.
pub(crate) fn whole(digits: &[u8], greatest: u32) -> Option<u32>
    requires { greatest ≤ 10_000_000 }
    ensures { MatchOption result ((n : ℕ) → n ≤ greatest → AreDigitsOf digits.now n → ⊥) (λ n. AreDigitsOf digits.now n × (n ≤ greatest)) }
{
    if digits.is_empty() {
        return None;
    }
    let mut value: u32 = 0;
    let mut rest = digits;
    while let Some((first, others)) = rest.split_first() {
        let digit = *first;
        if digit < b'0' || b'9' < digit {
            return None;
        }
        value = value * 10 + (digit - b'0') as u32;
        if value > greatest {
            return None;
        }
        rest = others;
    }
    Some(value)
}
