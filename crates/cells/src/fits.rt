ghost use Rattle.std.specs.Prelude.{◌≡◌, ◌<◌, length, IfSome};
ghost use Rattle.cells.specs.Fits.{first_row};

use crate::cell::Cell;

// The lowest place at which enough dead cells stand in a row.
pub fn first_fit(cells: &[Cell], size: usize) -> Option<usize>
    ensures value { result ≡ first_row cells.now size }
    ensures within { IfSome result (λ i. i < length cells.now) }
{
    'starts: for start in 0..cells.len() {
        'row: for i in 0..size {
            if i >= cells.len() - start || cells[start + i] != Cell::Dead {
                continue 'starts;
            }
        }
        return Some(start);
    }
    None
}
