//! Writing bytes into memory, one piece after another.
ghost use Rattle.std.specs.Prelude.{◌≡◌, ◌+◌, ◌*◌, ◌≤◌, false, length, flat_map};
ghost use Rattle.std.specs.Fmt.{decimal, digit_glyph};
ghost use Rattle.boards.specs.Boards.{hex};
ghost use Rattle.text.specs.Puts.{put_at};

// Writes the bytes at this place, and returns the place after them.
pub(crate) fn put(bytes: &[u8], memory: &mut [u8], at: usize) -> usize
    requires { at + length bytes.now ≤ length memory.old }
    ensures memory { memory.new ≡ put_at memory.old at bytes.now }
    ensures after { result ≡ at + length bytes.now }
{
    let end = at + bytes.len();
    memory[at..end].copy_from_slice(bytes);
    end
}

// The same for a number of at most three digits.
#[tactic(auto, using(crate::proofs::Puts::one_digit, crate::proofs::Puts::two_digits, crate::proofs::Puts::three_digits, crate::proofs::Puts::one_long, crate::proofs::Puts::two_long, crate::proofs::Puts::three_long))]
pub(crate) fn put_number(n: usize, memory: &mut [u8], at: usize) -> usize
    requires small { n ≤ 999 }
    requires room { at + 3 ≤ length memory.old }
    ensures memory { memory.new ≡ put_at memory.old at (decimal n) }
    ensures after { result ≡ at + length (decimal n) }
    ensures short { length (decimal n) ≤ 3 }
{
    let ones = b'0' + (n % 10) as u8;
    if n < 10 {
        return put(&[ones], memory, at);
    }
    let tens = b'0' + (n / 10 % 10) as u8;
    if n < 100 {
        return put(&[tens, ones], memory, at);
    }
    put(&[b'0' + (n / 100) as u8, tens, ones], memory, at)
}

// The digit of this value, in lower case.
fn glyph(value: u8) -> u8
    requires { value ≤ 15 }
    ensures { result ≡ digit_glyph false value }
{
    if value < 10 {
        b'0' + value
    } else {
        b'a' + (value - 10)
    }
}

// The same for cells, two digits each.
pub(crate) fn put_cells(cells: &[u8], memory: &mut [u8], at: usize) -> usize
    requires { at + 2 * length cells.now ≤ length memory.old }
    ensures memory { memory.new ≡ put_at memory.old at (flat_map hex cells.now) }
    ensures after { result ≡ at + 2 * length cells.now }
{
    let mut end = at;
    for cell in cells {
        end = put(&[glyph(*cell / 16), glyph(*cell % 16)], memory, end);
    }
    end
}
