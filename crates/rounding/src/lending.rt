// What is lent for rounding: a cell and a figure for each token.
ghost use Rattle.std.specs.Prelude.{◌≡◌, [], ◌∷◌, eqb, length};
ghost use Rattle.rules.specs.Lists.{all};
ghost use Rattle.rules.specs.Rounding.{cells_fit};

// The largest cell.
pub const CELL_MOST: u32 = 1000000;

// Whether no cell is too large. It is asked at every choice: so the walk has no way out, and becomes vector code.
pub(crate) fn cells_fit(cells: &[u32]) -> bool
    ensures { result ≡ cells_fit cells.now }
{
    let mut ok = true;
    for cell in cells {
        ok = (*cell <= CELL_MOST) & ok;
    }
    ok
}

// Whether there are so many cells, as many figures, and no cell is too large.
#[tactic(auto, using(rules::proofs::lists::Tests::tests, rules::proofs::lists::Tests::if_eta))]
pub fn lent_fits(n: usize, cells: &[u32], figures: usize) -> bool
    ensures { result ≡ all (eqb (length cells.now) n ∷ eqb figures n ∷ cells_fit cells.now ∷ []) }
{
    cells.len() == n && figures == n && cells_fit(cells)
}
