//! Hexadecimal digits.
ghost use Rattle.std.specs.Prelude.{◌≡◌, ◌≤◌, ◌<◌, ◌^◌, IfSome, None, length};
ghost use Rattle.vte_types.specs.Hex.{hex_number};

/// The number that at most 4 hexadecimal digits write, in either case; 0 for no digits. `None` for more digits, or for
/// another byte.
pub fn number(digits: &[u8]) -> Option<u16>
    ensures value { length digits.now ≤ 4 → result ≡ hex_number digits.now }
    ensures long { 4 < length digits.now → result ≡ None }
    ensures small { IfSome result (λ n. n < 16 ^ length digits.now) }
{
    if digits.len() > 4 {
        return None;
    }
    let mut number = 0u16;
    for digit in digits {
        number = number * 16 + (*digit as char).to_digit(16)? as u16;
    }
    Some(number)
}
