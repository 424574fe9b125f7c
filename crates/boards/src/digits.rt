//! Cells as hexadecimal digits, two digits each.
ghost use Rattle.std.specs.Prelude.{◌≡◌, ◌*◌, length, IsTrue};
ghost use Rattle.std.specs.Char.{digit_value};
ghost use Rattle.std.specs.List.{list_all};
ghost use Rattle.boards.specs.Reading.{is_hex, cells_of};

// The value of a hexadecimal digit.
fn digit(byte: u8) -> u8
    requires { IsTrue (is_hex byte) }
    ensures { result ≡ digit_value byte }
{
    if byte.is_ascii_digit() {
        byte - b'0'
    } else {
        byte - b'a' + 10
    }
}

// Whether all bytes are hexadecimal digits in lower case.
pub(crate) fn are_hex(bytes: &[u8]) -> bool
    ensures { result ≡ list_all is_hex bytes.now }
{
    for byte in bytes {
        if !matches!(byte, b'0'..=b'9' | b'a'..=b'f') {
            return false;
        }
    }
    true
}

// Fills in each cell from two digits, the high one first.
#[tactic(auto, using(crate::proofs::Hex::row_more, crate::proofs::Hex::row_all))]
pub(crate) fn fill_row(digits: &[u8], row: &mut [u8])
    requires count { length digits.now ≡ 2 * length row.old }
    requires hex { IsTrue (list_all is_hex digits.now) }
    ensures { row.new ≡ cells_of digits.now }
{
    for col in 0..row.len() {
        row[col] = 16 * digit(digits[2 * col]) + digit(digits[2 * col + 1]);
    }
}
