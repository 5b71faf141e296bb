//! Numbers in decimal.

ghost use Rattle.std.specs.Prelude.{◌≡◌, ℕ, List, ◌<◌, ◌≤◌, ◌^◌, IfSome, IfNone};
ghost use Rattle.std.specs.Char.{is_ascii_digit};
ghost use Rattle.std.specs.List.{prefix_len};
ghost use Rattle.vf_base.specs.Decimal.{decimal, IsDecimalFront};

/// The number of at most `limit` that stands in decimal in front of a text, and what follows its
/// last digit.
pub fn decimal_front(text: &[u8], limit: u32) -> Option<(u32, &[u8])>
    ensures within { IfSome result (λ x. x.0 ≤ limit) }
    ensures found { IfSome result (λ x. IsDecimalFront text.now x.0 x.1.now) }
    ensures none { IfNone result
        ((n : ℕ) (rest : List ℕ) → n ≤ limit → IsDecimalFront text.now n rest → ⊥) }
{
    let (digits, rest) = text.split_at(digits_len(text));
    let number = number_of(digits, limit)?;
    Some((number, rest))
}

/// A text begins with the digits of one number at most.
pub fn one_decimal_front()
    ensures { (text : List ℕ) (m n : ℕ) (r s : List ℕ) → m < 2 ^ 64 → n < 2 ^ 64
        → IsDecimalFront text m r → IsDecimalFront text n s → (m ≡ n) × (r ≡ s) }
{}

fn digits_len(text: &[u8]) -> usize
    ensures { result ≡ prefix_len is_ascii_digit text.now }
{
    let mut len = 0;
    while len < text.len() && text[len].is_ascii_digit() {
        len += 1;
    }
    len
}

fn number_of(digits: &[u8], limit: u32) -> Option<u32>
    ensures found { IfSome result (λ n. (n ≤ limit) × (digits.now ≡ decimal n)) }
    ensures none { IfNone result ((n : ℕ) → n ≤ limit → digits.now ≡ decimal n → ⊥) }
{
    let limit = u64::from(limit);
    if digits.is_empty() {
        return None;
    }
    if digits[0] == b'0' && digits.len() > 1 {
        return None;
    }
    let mut number: u64 = 0;
    for digit in digits {
        if !digit.is_ascii_digit() {
            return None;
        }
        number = number * 10 + u64::from(*digit - b'0');
        if number > limit {
            return None;
        }
    }
    Some(number as u32)
}
