//! The memories of a life.
use crate::event::Seen;

/// The memories that a life works in. The first three need one byte for each cell of the lattice; the others may have any length.
#[derive(Drop)]
pub struct Memories<'m> {
    /// The cells of the bench, from the opening lattice on.
    pub cells: &'m mut [u8],
    /// The cells of its mirror, at first overwritten by a copy of `cells`.
    pub mirror: &'m mut [u8],
    /// The cells of the third bench, which runs the reverse script; unchanged if there is no such run.
    pub home: &'m mut [u8],
    /// The bytes that `Lent::Part` refers to; never changed.
    pub second: &'m mut [u8],
    /// Receives the reverse script; bytes after the script are kept.
    pub script: &'m mut [u8],
    /// Receives the reports, one for each event in turn, as long as there are places; further places are kept.
    pub seen: &'m mut [Seen],
}
