//! A field of a line.
ghost use Rattle.std.specs.Prelude.{◌≡◌, ℕ, ℤ, IfOk, Ok};
ghost use Rattle.std.specs.Option.{ok_or};
ghost use Rattle.text.specs.Fields.{slice_of, bytes_of, place_of, ends_line_of};
ghost use Rattle.text.specs.Numbers.{number_of, signed_of, WritesNumber, WritesSigned};
ghost use Rattle.faults.specs.declared.field.FieldFault.TheVariants.{NotANumber};

use crate::number::{number, signed};
use faults::field::FieldFault;
use faults::place::Place;

/// The bytes between two separators, borrowed from the text, and their place. The variant says what ends the field.
#[derive(Clone, Copy, Debug)]
pub enum Field<'t> {
    /// A tab: another field follows on the line.
    Inner { bytes: &'t [u8], place: Place },
    /// A newline.
    Last { bytes: &'t [u8], place: Place },
    /// The end of the text.
    Unfinished { bytes: &'t [u8], place: Place },
}

impl<'t> Field<'t> {
    /// The bytes without the separator that ends them.
    pub fn bytes(&self) -> &'t [u8]
        ensures { result ≡ slice_of self.now }
    {
        match *self {
            Field::Inner { bytes, .. }
            | Field::Last { bytes, .. }
            | Field::Unfinished { bytes, .. } => bytes,
        }
    }

    /// Its line, and its number on that line.
    pub fn place(&self) -> Place
        ensures { result ≡ place_of self.now }
    {
        match *self {
            Field::Inner { place, .. }
            | Field::Last { place, .. }
            | Field::Unfinished { place, .. } => place,
        }
    }

    /// Whether this is the last field of its line.
    pub fn ends_line(&self) -> bool
        ensures { result ≡ ends_line_of self.now }
    {
        !matches!(self, Field::Inner { .. })
    }

    /// The number that the field is, without a sign, written as briefly as possible in at most six digits; `NotANumber` with its place if it is none.
    #[tactic(auto, using(crate::proofs::Written::number_read, crate::proofs::Written::number_written))]
    pub fn number(&self) -> Result<u32, FieldFault>
        ensures value { result ≡ ok_or (number_of (bytes_of self.now)) (NotANumber (place_of self.now)) }
        ensures only { IfOk result (λ n. WritesNumber n (bytes_of self.now)) }
        ensures written { (n : ℕ) → WritesNumber n (bytes_of self.now) → result ≡ Ok n }
    {
        number(self.bytes()).ok_or(FieldFault::NotANumber(self.place()))
    }

    /// The same with an optional leading minus, which is none of the six digits and may not precede `0`.
    #[tactic(auto, using(crate::proofs::Written::signed_read))]
    pub fn signed(&self) -> Result<i32, FieldFault>
        ensures value { result ≡ ok_or (signed_of (bytes_of self.now)) (NotANumber (place_of self.now)) }
        ensures only { IfOk result (λ z. WritesSigned z (bytes_of self.now)) }
        ensures written { (z : ℤ) → WritesSigned z (bytes_of self.now) → result ≡ Ok z }
    {
        signed(self.bytes()).ok_or(FieldFault::NotANumber(self.place()))
    }
}
