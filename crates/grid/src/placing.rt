// The grid is held as rows of cells: 48 rows of 144, NO_BOX where there is no box.
ghost use Rattle.std.specs.Prelude.{◌≡◌, ◌≤◌, ◌<◌, length};
ghost use Rattle.laws.specs.Each.{each};
ghost use Rattle.grid.specs.Cells.{put, no_cells, placed, cells_answer, cells_left};

use crate::record::sound;
use crate::{BoxRecord, NO_BOX, SheetRecord};
use refusals::Refusal;

// The grid with box k in the cell at row r and column c.
fn place(mut grid: [[u8; 144]; 48], r: usize, c: usize, k: u8) -> [[u8; 144]; 48]
    requires r_bound { r < 48 }
    requires c_bound { c < 144 }
    ensures { result ≡ put grid r c k }
{
    grid[r][c] = k;
    grid
}

// The rows of cells with these boxes in them. A box outside of them is not placed.
fn rows_of(boxes: &[BoxRecord]) -> [[u8; 144]; 48]
    requires { length boxes.now ≤ 48 }
    ensures { result ≡ each no_cells (placed boxes.now) (length boxes.now) }
{
    let mut grid = [[NO_BOX; 144]; 48];
    for (k, b) in boxes.iter().enumerate() {
        if b.row < 48 && b.column < 144 {
            let next = place(grid, b.row as usize, b.column as usize, k as u8);
            grid = next;
        }
    }
    grid
}

// The rows of cells of a sheet, written to the lent grid: 14, and then nothing is written.
pub fn cells(s: &SheetRecord, grid: &mut [[u8; 144]; 48]) -> Result<(), Refusal>
    ensures value { result ≡ cells_answer s.now }
    ensures grid_after { grid.new ≡ cells_left s.now grid.old }
{
    if !sound(s) {
        return Err(Refusal::TooFar);
    }
    let boxes = &s.boxes[..s.count as usize];
    *grid = rows_of(boxes);
    Ok(())
}
