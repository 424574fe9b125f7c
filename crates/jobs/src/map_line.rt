//! The first line of a job, which names its map.
ghost use Rattle.std.specs.Prelude.{◌≡◌, ℕ, List, ok_or};
ghost use Rattle.text.specs.FieldsOfLines.{HasFields, StandsFrom};
ghost use Rattle.jobs.specs.Jobs.{map_at};
ghost use Rattle.jobs.specs.Steps.{MapFound};

use faults::line_number::LineNumber;
use faults::record::RecordFault;
use named_maps::named::NamedMap;
use text::line::Line;
use text::reader::Reader;

const MAP: &[u8] = b"map";

// The map that the line names, or the first fault of the line.
fn map_of(line: Line<'_>) -> Result<NamedMap, RecordFault>
    ensures { (n : ℕ) (fs : List (List ℕ)) → HasFields line.entry fs → StandsFrom line.entry n 1 → result ≡ map_at n fs }
{
    let at = line.word().place().line;
    if line.word().bytes() != MAP {
        return Err(RecordFault::UnknownWord { line: at });
    }
    let Line::Two(_, name) = line else {
        return Err(RecordFault::FieldCount { line: at });
    };
    NamedMap::of(name.bytes()).ok_or(RecordFault::UnknownMap { line: at })
}

// The map of a job, and the place where its board begins.
#[tactic(auto, using(crate::proofs::MapLines::no_map, crate::proofs::MapLines::a_map))]
pub(crate) fn find_map(text: &[u8]) -> Result<(NamedMap, usize), RecordFault>
    ensures { MapFound text.now result }
{
    let mut reader = Reader::new(text, LineNumber::first());
    let Some(line) = reader.next_line() else {
        return Err(RecordFault::MissingLine {
            line: LineNumber::first().number(),
        });
    };
    let map = map_of(line)?;
    Ok((map, reader.position()))
}
