//! The cells of a sample, and a digest of cells.
ghost use Rattle.std.specs.Prelude.{◌≡◌, map, fold, IfOk};
ghost use Rattle.std.specs.List.{range_with_len};
ghost use Rattle.samples.specs.Cells.{mixed_in, sample, seven};

use std::alloc::{AllocError, Allocator};

/// Four by four cells with presents, pasts and higher bits of all kinds.
pub const ALL_KINDS: [[u8; 4]; 4] = [
    [0xf1, 0x02, 0x04, 0x09],
    [0x10, 0x21, 0x40, 0x80],
    [0x03, 0x07, 0x0e, 0xff],
    [0x55, 0xaa, 0x5a, 0xa4],
];

/// The first `count` cells of the sample. A sample has fewer cells than 65,536; the remainder only keeps the square within its type.
pub fn sown<A: Allocator>(count: usize, heap: A) -> Result<Vec<u8, A>, AllocError>
    ensures { IfOk result (λ v. v.items ≡ map sample (range_with_len 0 count)) }
{
    (0..count)
        .map(|k| {
            let k = k % 65_536;
            ((k * k / 3 + 5 * k + k / 7 + 7) % 256) as u8
        })
        .collect(heap)
}

/// `count` cells as a memory holds them before a board is read into it.
pub fn sevens<A: Allocator>(count: usize, heap: A) -> Result<Vec<u8, A>, AllocError>
    ensures { IfOk result (λ v. v.items ≡ map seven (range_with_len 0 count)) }
{
    (0..count)
        .map(|k| (7 * (k % 256) % 256) as u8)
        .collect(heap)
}

/// A number below 65,521 that depends on every cell and on their order.
pub fn digest(cells: &[u8]) -> u32
    ensures { result ≡ fold mixed_in 0 cells.now }
{
    cells
        .iter()
        .fold(0, |sum, &cell| (31 * sum + u32::from(cell) + 1) % 65_521)
}
