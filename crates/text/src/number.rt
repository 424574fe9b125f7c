//! Numbers as a text writes them.
ghost use Rattle.std.specs.Prelude.{◌≡◌, ◌≤◌, IfSome};
ghost use Rattle.text.specs.Numbers.{number_of, signed_of, max_number};

const MAX_DIGITS: usize = 6;

// The number that the bytes are, if they are the shortest way to write it, in at most six digits.
#[tactic(auto, using(crate::proofs::Digits::value_small, crate::proofs::Digits::digits_more, crate::proofs::Digits::value_more, crate::proofs::Digits::value_below), unfolding(crate::specs::Numbers::number_of))]
pub(crate) fn number(bytes: &[u8]) -> Option<u32>
    ensures value { result ≡ number_of bytes.now }
    ensures small { IfSome result (λ n. n ≤ max_number) }
{
    let zero_in_front = bytes.len() > 1 && bytes[0] == b'0';
    if bytes.is_empty() || bytes.len() > MAX_DIGITS || zero_in_front {
        return None;
    }
    let mut value: u32 = 0;
    for byte in bytes {
        if !byte.is_ascii_digit() {
            return None;
        }
        value = value * 10 + u32::from(*byte - b'0');
    }
    Some(value)
}

// The same with an optional leading minus, which may not precede `0`.
#[tactic(auto, unfolding(crate::specs::Numbers::signed_of, crate::specs::Numbers::number_of))]
pub(crate) fn signed(bytes: &[u8]) -> Option<i32>
    ensures { result ≡ signed_of bytes.now }
{
    if bytes.is_empty() || bytes[0] != b'-' {
        return Some(number(bytes)? as i32);
    }
    let value = number(&bytes[1..])? as i32;
    if value == 0 {
        return None;
    }
    Some(-value)
}
