// A refused call in between.
ghost use Rattle.std.specs.Prelude.{◌≡◌, ◌≤◌};
ghost use Rattle.cases.specs.Outside.{RefusedPut, SameHistory};

use filter::Draft;
use tile::Cell;

// A row that the tile does not have.
fn row_outside(draft: &Draft) -> usize
    ensures { draft.now.shape.rows ≤ result }
{
    draft.rows()
}

/// Tries to put a reading outside of the tile. The call is refused and changes nothing: the draft and the tile are as they
/// were, and every run goes on with the same history.
pub fn try_outside(draft: Draft, tile: &mut [Cell]) -> Draft
    ensures refused { RefusedPut draft tile.old result tile.new }
    ensures same_draft { result ≡ draft }
    ensures same_tile { tile.new ≡ tile.old }
    ensures same_history { SameHistory draft tile.old result tile.new }
{
    let row = row_outside(&draft);
    // Tried `unwrap_or_else`: that every run goes on with the same history stayed open.
    match draft.put(tile, row, 0, 0, 0) {
        Ok(draft) => draft,
        Err(refused) => refused.state,
    }
}
