// One tile, cut by both makers.
ghost use Rattle.std.specs.Prelude.{◌≡◌, ◌⊎◌, ℕ, ◌<◌, ◌↔◌, length, IsOk, OnOk, OnErr, IfErr};
ghost use Rattle.theory.specs.Sets.{SmallestCheapestSet};
ghost use Rattle.tile.specs.Shapes.{cells};
ghost use Rattle.flow.specs.Networks.{network, charges, marks};
ghost use Rattle.flow.specs.Points.{FourPoints};
ghost use Rattle.trial.specs.Cuts.{MayBeCut, LeftUncut};

use crate::uncut::Uncut;
use cut::{AugmentingPaths, PushRelabel, Step};
use flow::{is_cuttable, run_cut};
use tile::{Cell, Shape};

// May the tile be cut with so many entries of workspace?
fn check(shape: Shape, tile: &[Cell], entries: usize) -> Result<(), Uncut>
    ensures may { IsOk result ↔ MayBeCut shape tile.now entries }
    ensures why { IfErr result (LeftUncut shape tile.now entries) }
{
    if !is_cuttable(shape, tile) {
        return Err(Uncut::Unfit);
    }
    if entries < shape.cells() {
        return Err(Uncut::FewEntries);
    }
    Ok(())
}

/// Cuts two copies of a tile, one by each maker. Checks the first copy before the second, and cuts none unless both may be cut. Both
/// copies keep the four points, and on equal copies the two makers mark the same cells.
pub fn cut_both(
    shape: Shape,
    first: &mut [Cell],
    steps: &mut [Step],
    second: &mut [Cell],
    numbers: &mut [u16],
) -> Result<(), Uncut>
    ensures accepted { MayBeCut shape first.old (length steps.old) → MayBeCut shape second.old (length numbers.old) → IsOk result }
    ensures why { IfErr result (λ why. LeftUncut shape first.old (length steps.old) why ⊎ (MayBeCut shape first.old (length steps.old) × LeftUncut shape second.old (length numbers.old) why)) }
    ensures uncut { OnErr result ((first.new ≡ first.old) × (second.new ≡ second.old)) }
    ensures points { OnOk result (FourPoints shape first.old first.new × FourPoints shape second.old second.new) }
    ensures alike { OnOk result (first.old ≡ second.old → (u : ℕ) → u < cells shape → marks first.new u ≡ marks second.new u) }
    ensures by_paths { OnOk result (SmallestCheapestSet (network shape first.old) (charges first.old) (marks first.new)) }
    ensures by_ranks { OnOk result (SmallestCheapestSet (network shape second.old) (charges second.old) (marks second.new)) }
{
    check(shape, first, steps.len())?;
    check(shape, second, numbers.len())?;
    run_cut(&AugmentingPaths, shape, first, steps);
    run_cut(&PushRelabel, shape, second, numbers);
    Ok(())
}
