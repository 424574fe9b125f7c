//! The inverse of a list of entries, or the first reason why they are not a permutation.
ghost use Rattle.std.specs.Prelude.{◌≤◌};
ghost use Rattle.tables.specs.Refusals.{Below, Inverted, PlacesOf};

use crate::entries::all_below;
use crate::refusal::TableRefusal;

// Writes at place e where the entry e stands, and refuses the first entry that comes a second time.
// A place that is not written yet holds N.
fn places_of<const N: usize>(entries: &[u8; N]) -> Result<[u8; N], TableRefusal>
    requires few { N ≤ 255 }
    requires below { Below N entries.now }
    ensures { PlacesOf entries.now result }
{
    let mut places = [N as u8; N];
    for (i, e) in entries.iter().enumerate() {
        let place = &mut places[usize::from(*e)];
        if usize::from(*place) < N {
            return Err(TableRefusal::Repeated);
        }
        *place = i as u8;
    }
    Ok(places)
}

pub(crate) fn inverted<const N: usize>(entries: &[u8; N]) -> Result<[u8; N], TableRefusal>
    requires { N ≤ 255 }
    ensures { Inverted N entries.now result }
{
    if !all_below(entries, N) {
        return Err(TableRefusal::TooLarge);
    }
    places_of(entries)
}
