//! The way back from where a life has led.
ghost use Rattle.std.specs.Prelude.{◌≡◌, length};
ghost use Rattle.any_bench.specs.AnyBenches.{any_map, any_ledger, any_handed};
ghost use Rattle.lattice.specs.Lattice.{Lattice, Whole, Within};
ghost use Rattle.ledger.proofs.Sound.{Sound};
ghost use Rattle.ledger.specs.Effects.{standing_for};
ghost use Rattle.lives.specs.WaysBack.{GoesBack};

use crate::outcome::{Journey, WayBack};
use any_bench::call::AnyBench;
use bench::bench::Bench;
use faults::line_number::LineNumber;
use lattice::map::Map;
use runs::run::run;

// Unless a session is open, writes the reverse script, opens a third bench on a copy of `cells`, and runs the script there.
pub(crate) fn go_back<M: Map>(
    map: &M,
    bench: AnyBench<'_, M>,
    cells: &[u8],
    home: &mut [u8],
    script: &mut [u8],
) -> WayBack
    requires same { any_map bench ≡ map.now }
    requires count { length home.old ≡ length cells.now }
    requires life { (l : Lattice) × Within l × Whole l × Sound l.width l.height (any_ledger bench) × (any_handed bench cells.now ≡ standing_for (M.forward map.now) (M.backward map.now) (any_ledger bench) l) }
    ensures { (l : Lattice) → Within l → Whole l → Sound l.width l.height (any_ledger bench.entry) → any_handed bench.entry cells.now ≡ standing_for (M.forward map.now) (M.backward map.now) (any_ledger bench.entry) l → GoesBack (M.forward map.now) (M.backward map.now) l (any_ledger bench.entry) script.old script.new home.old home.new result }
{
    let AnyBench::Rest(bench) = bench else {
        return WayBack::InSession;
    };
    let len = match bench.reverse_script(script) {
        Ok(len) => len,
        Err(cause) => return WayBack::Refused(cause),
    };
    home.copy_from_slice(cells);
    let (third, answer) = run(
        Bench::new(map, bench.start()),
        home,
        &script[..len],
        LineNumber::first(),
    );
    WayBack::Gone(Journey {
        script_len: len,
        answer,
        start: third.start(),
        counts: third.counts(),
    })
}
