//! Numbers: a 0 alone, or digits of which the first isn't 0.

ghost use Rattle.std.specs.Prelude.{IfOk, IfSome, ◌+◌, ◌++◌, slice_index, false, ◌≡◌, ◌≤◌, ◌<◌, ◌^◌, ◌-◌, List, ℕ, length, take, drop, if◌then◌else◌, nat_le, Some, None};
ghost use Rattle.std.specs.Fmt.{decimal};
ghost use Rattle.std.specs.List.{prefix_len};
ghost use Rattle.cn_text.specs.Number.{is_digit, digit_count, value, number_at, number_in};

/// A refusal: the place of the first octet that can't stand there, or the end of the text.
#[derive(Clone, Copy, Debug, PartialEq, Eq)]
pub struct Bad {
    pub at: usize,
}

/// Holds for a digit.
pub fn is_digit(byte: u8) -> bool
    ensures { result ≡ is_digit byte }
{
    byte.is_ascii_digit()
}

fn digits_at_front(bytes: &[u8]) -> usize
    ensures value { result ≡ prefix_len is_digit bytes.now }
    ensures within { result ≤ length bytes.now }
{
    let mut count = 0;
    for byte in bytes {
        if !is_digit(*byte) {
            break;
        }
        count += 1;
    }
    count
}

fn digit_count(bytes: &[u8]) -> usize
    ensures value { result ≡ digit_count bytes.now }
    ensures within { result ≤ length bytes.now }
{
    match bytes {
        [] => 0,
        [b'0', ..] => 1,
        [_, ..] => digits_at_front(bytes),
    }
}

fn value_within(digits: &[u8], max: u64) -> Option<u64>
    ensures value { result
        ≡ (if nat_le (value digits.now) max then Some (value digits.now) else None) }
    ensures within { IfSome result (λ n. n ≤ max) }
{
    let mut value: u64 = 0;
    for digit in digits {
        let next = u128::from(value) * 10 + u128::from(digit.saturating_sub(b'0'));
        if next > u128::from(max) {
            return None;
        }
        value = next as u64;
    }
    Some(value)
}

/// The number at a place, at most `max`, and the place after it: a 0 alone, or a digit from 1 to 9
/// and all the digits that follow. What isn't one, or spells more than `max`, is refused at its
/// first octet.
pub fn read_number(bytes: &[u8], at: usize, max: u64) -> Result<(u64, usize), Bad>
    requires { at ≤ length bytes.now }
    ensures value { result ≡ number_at bytes.now at max }
    ensures within { IfOk result (λ x. (x.0 ≤ max) × (x.1 ≤ length bytes.now)) }
{
    let rest = &bytes[at..];
    let count = digit_count(rest);
    if count == 0 {
        return Err(Bad { at });
    }
    match value_within(&rest[..count], max) {
        Some(number) => Ok((number, at + count)),
        None => Err(Bad { at }),
    }
}

/// Each number has one spelling, the printed one: what is read is what would be printed, and what
/// is printed is read, whatever follows it that is no digit.
pub fn number_has_one_spelling()
    ensures read_is_printed { (bytes : List ℕ) (at max n after : ℕ) → max < 2 ^ 64
        → number_at bytes at max ≡ Ok (n, after)
        → (n ≤ max) × (take (after - at) (drop at bytes) ≡ decimal n) }
    ensures printed_is_read { (n max at : ℕ) (tail : List ℕ) → n ≤ max → n < 2 ^ 64
        → is_digit (slice_index tail 0) ≡ false
        → number_in max at (decimal n ++ tail) ≡ Ok (n, at + length (decimal n)) }
{}
