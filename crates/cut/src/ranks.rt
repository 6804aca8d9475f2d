// Ranks, written one by one and all at once, and the marks that they come to.
ghost use Rattle.std.specs.Prelude.{◌≡◌, ℕ, ◌<◌, length};
ghost use Rattle.flow.specs.Sides.{SameFlows};
ghost use Rattle.flow.specs.Lent.{SameRows};
ghost use Rattle.cut.specs.Ranks.{rank_of, ranked_at, Marked};

use flow::Flows;
use tile::Cell;

// Writes one rank.
pub(crate) fn put_rank(flows: &mut Flows, v: usize, rank: u16)
    requires { v < length flows.old.tile.now }
    ensures rows { SameRows flows.old flows.new }
    ensures ranked { flows.new.tile.now ≡ ranked_at flows.old.tile.now v rank }
{
    let tile = &mut *flows.tile;
    tile[v].rank = rank;
}

// Takes every rank away.
pub(crate) fn clear_ranks(tile: &mut [Cell])
    ensures level { SameFlows tile.old tile.new }
    ensures none { (b : ℕ) → rank_of tile.new b ≡ 0 }
{
    for cell in tile.iter_mut() {
        cell.rank = 0;
    }
}

// Marks the cells that have a rank, and no other.
pub(crate) fn mark_all(tile: &mut [Cell])
    ensures { Marked tile.old tile.new }
{
    for cell in tile.iter_mut() {
        cell.mark = u8::from(cell.rank > 0);
    }
}
