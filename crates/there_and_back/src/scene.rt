//! The cells that a journey begins with.
ghost use Rattle.std.specs.Prelude.{◌≡◌, ◌<◌, IfOk};
ghost use Rattle.lattice.specs.Cells.{by_place};
ghost use Rattle.lattice.specs.Starts.{width_of, height_of};
ghost use Rattle.there_and_back.specs.Scenes.{scene_cell};

use lattice::start::Start;
use std::alloc::{AllocError, Allocator};

#[derive(Clone, Copy)]
pub(crate) enum Scene {
    // A square of disorder in the middle.
    Soup,
    // Single cells all over the left half.
    Gas,
}

impl Scene {
    // The cell of column x and row y.
    fn cell(self, x: usize, y: usize) -> u8
        requires column { x < 256 }
        requires row { y < 256 }
        ensures { result ≡ scene_cell self x y }
    {
        let sown = match self {
            Scene::Soup => (16..32).contains(&x)
                && (4..20).contains(&y)
                && (x * x + 3 * y * y + x * y) % 7 < 3,
            Scene::Gas => x < 24 && (5 * x + 3 * y * y + x * y) % 7 == 0,
        };
        u8::from(sown)
    }

    pub(crate) fn cells<A: Allocator>(
        self,
        heap: A,
        start: &Start,
    ) -> Result<Vec<u8, A>, AllocError>
        ensures { IfOk result (λ v. v.items ≡ by_place (width_of start.now) (height_of start.now) (scene_cell self)) }
    {
        let width = start.width();
        (0..start.cell_count())
            .map(|k| self.cell(k % width, k / width))
            .collect(heap)
    }
}
