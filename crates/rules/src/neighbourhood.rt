//! A cell and its Moore neighbourhood as a number: nine presents in reading order, a bit each (docs/MAPS.md).
ghost use Rattle.std.specs.Prelude.{◌≡◌, ◌%◌, ◌<◌};
ghost use Rattle.rules.specs.Limits.{neighbourhoods};

const NEIGHBOURHOODS: u16 = 512;

/// The presents of a cell and its eight neighbours, as a number below 512. Bit 0 is the neighbour to the north-west, and bit 4 the cell itself.
#[derive(Clone, Copy)]
pub struct Neighbourhood {
    number: u16,
    ghost nine: { number < neighbourhoods },
}

impl Neighbourhood {
    ghost use Rattle.rules.specs.Neighbourhoods.{number_of, centre, neighbours};

    /// The neighbourhood that the lowest nine bits say. The other bits are ignored.
    pub fn from_bits(bits: u16) -> Neighbourhood
        ensures { number_of result ≡ bits % neighbourhoods }
    {
        Neighbourhood {
            number: bits % NEIGHBOURHOODS,
        }
    }

    /// The number of the neighbourhood.
    pub fn number(&self) -> u16
        ensures { result ≡ number_of self.now }
    {
        self.number
    }

    /// The present of the cell itself, as the number 0 or 1.
    pub fn centre(&self) -> u8
        ensures { result ≡ centre (number_of self.now) }
    {
        (self.number / 16 % 2) as u8
    }

    /// How many of the eight neighbours are present.
    pub fn neighbours(&self) -> u8
        ensures { result ≡ neighbours (number_of self.now) }
    {
        let n = self.number;
        let above = n % 2 + n / 2 % 2 + n / 4 % 2;
        let beside = n / 8 % 2 + n / 32 % 2;
        let below = n / 64 % 2 + n / 128 % 2 + n / 256 % 2;
        (above + beside + below) as u8
    }
}
