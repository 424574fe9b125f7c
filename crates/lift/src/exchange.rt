//! The pass that turns presents into pasts and pasts into presents, in place.
ghost use Rattle.std.specs.Prelude.{◌≡◌, map};
ghost use Rattle.lift.specs.Moments.{exchanged};

fn exchange(cell: u8) -> u8
    ensures { result ≡ exchanged cell }
{
    cell / 4 * 4 + cell % 2 * 2 + cell / 2 % 2
}

pub(crate) fn exchange_cells(cells: &mut [u8])
    ensures { cells.new ≡ map exchanged cells.old }
{
    for cell in cells.iter_mut() {
        *cell = exchange(*cell);
    }
}
