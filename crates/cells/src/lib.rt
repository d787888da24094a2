// The cells that a file holds: its whole four-byte numbers, low byte first.
#![tactic(auto)]

ghost use Rattle.std.specs.Prelude.{◌≡◌, ◌++◌, ◌≤◌, length, take, drop};
ghost use Rattle.cells.specs.Cells.{cells_in};

// Puts the cells of a file to the front of `cells`, as many as fit; returns how many.
pub fn read_cells(bytes: &[u8], cells: &mut [u32]) -> usize
    ensures within { result ≤ length cells.old }
    ensures counts { result ≡ length (take (length cells.old) (cells_in bytes.now)) }
    ensures stores { cells.new ≡ take (length cells.old) (cells_in bytes.now) ++ drop result cells.old }
{
    let (numbers, _) = bytes.as_chunks::<4>();
    let count = cells.len().min(numbers.len());
    for (i, number) in numbers[..count].iter().enumerate() {
        cells[i] = u32::from_le_bytes(*number);
    }
    count
}
