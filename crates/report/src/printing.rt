// The text of a solution.
ghost use Rattle.std.specs.Prelude.{◌≡◌, ◌*◌, ◌++◌, ◌≤◌, length, map, OnOk, IfOk, string_bytes};
ghost use Rattle.tile.specs.declared.cell.Cell.{Cell as Record};
ghost use Rattle.report.specs.Printing.{line, heading, grid_text, solution_text};

use crate::solving::Solution;
use std::alloc::{AllocError, Global};
use tile::Cell;

// Rows, columns, top, rounds and energy.
fn push_heading(text: &mut String, solution: &Solution) -> Result<(), AllocError>
    ensures { OnOk result (string_bytes text.new ≡ string_bytes text.old ++ heading solution.now) }
{
    let Solution {
        rows,
        columns,
        top,
        rounds,
        energy,
    } = *solution;
    writeln!(text, "{rows} {columns} {top} {rounds} {energy}")
}

// The heights of one row.
fn push_row(text: &mut String, row: &[Cell]) -> Result<(), AllocError>
    ensures { OnOk result (string_bytes text.new ≡ string_bytes text.old ++ line (map (λ (c : Record). c.low) row.now)) }
{
    for (column, cell) in row.iter().enumerate() {
        if column > 0 {
            text.push(' ')?;
        }
        write!(text, "{}", cell.low)?;
    }
    text.push('\n')
}

// The heights of every row.
fn push_rows(
    text: &mut String,
    tile: &[Cell],
    rows: usize,
    columns: usize,
) -> Result<(), AllocError>
    requires { rows * columns ≤ length tile.now }
    ensures { OnOk result (string_bytes text.new ≡ string_bytes text.old ++ grid_text rows columns tile.now) }
{
    for row in 0..rows {
        push_row(text, &tile[row * columns..(row + 1) * columns])?;
    }
    Ok(())
}

// A line with rows, columns, top, rounds and energy, and then a line of heights for each row.
pub(crate) fn text_of(
    alloc: Global,
    solution: &Solution,
    tile: &[Cell],
) -> Result<String, AllocError>
    requires { solution.now.rows * solution.now.columns ≤ length tile.now }
    ensures { IfOk result (λ text. string_bytes text ≡ solution_text solution.now tile.now) }
{
    let mut text = String::new(alloc);
    push_heading(&mut text, solution)?;
    push_rows(&mut text, tile, solution.rows, solution.columns)?;
    Ok(text)
}
