ghost use Rattle.std.specs.Prelude.{◌≡◌, ℕ, ℤ, ◌<◌, ◌^◌, MatchOption};
ghost use Rattle.std.specs.Fmt.{decimal, signed_decimal};
ghost use Rattle.run_report.specs.Shown.{IsWord};

use byte_cuts::behind;

/// The number that decimal digits without leading zeros write.
pub fn natural(digits: &[u8]) -> Option<u64>
    ensures { MatchOption result
        ((n : ℕ) → n < 2 ^ 64 → ¬ (digits.now ≡ decimal n))
        (λ n. (digits.now ≡ decimal n) × (n < 2 ^ 64)) }
{
    let Ok(text) = str::from_utf8(digits) else {
        return None;
    };
    let Some(&first) = digits.first() else {
        return None;
    };
    if first == b'+' {
        return None;
    }
    if first == b'0' && digits.len() > 1 {
        return None;
    }
    text.parse::<u64>().ok()
}

/// The number that decimal digits without leading zeros write, with `-` before them where it is negative.
pub fn signed(digits: &[u8]) -> Option<i64>
    ensures { MatchOption result
        ((n : ℤ) → IsWord n → ¬ (digits.now ≡ signed_decimal n))
        (λ n. (digits.now ≡ signed_decimal n) × IsWord n) }
{
    if let Some(size) = behind(digits, b"-") {
        let size = natural(size)?;
        if size == 0 {
            return None;
        }
        return 0i64.checked_sub_unsigned(size);
    }
    let size = natural(digits)?;
    if size > i64::MAX as u64 {
        return None;
    }
    Some(size as i64)
}
