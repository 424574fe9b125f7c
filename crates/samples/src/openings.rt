//! The openings of the sample lattices.

/// Where the sample lattices begin: columns, rows and phase.
pub const OPENINGS: [(u32, u32, u32); 18] = [
    (2, 2, 0),
    (2, 2, 1),
    (2, 4, 0),
    (2, 4, 1),
    (4, 2, 0),
    (4, 2, 1),
    (6, 4, 0),
    (6, 4, 1),
    (2, 256, 0),
    (2, 256, 1),
    (256, 2, 0),
    (256, 2, 1),
    (16, 10, 0),
    (16, 10, 1),
    (128, 128, 0),
    (128, 128, 1),
    (256, 64, 0),
    (256, 64, 1),
];
