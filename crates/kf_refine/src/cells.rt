//! The size of a tableau.

ghost use Rattle.std.specs.Prelude.{◌≡◌, ◌*◌, ◌<◌, ◌+◌, ◌-◌, ◌^◌, min};
ghost use Rattle.kf_frac.specs.Fractions.{limit};
ghost use Rattle.kf_refine.specs.Equations.{cells_of};

// The greatest number of 127 bits.
const LIMIT: u128 = (1 << 127) - 1;

/// How many cells the tableau has for so many kept values and inners, or 2^127 - 1 where there are more than that.
pub(crate) fn count_cells(kept: usize, a_inners: usize, b_inners: usize) -> u128
    ensures { result ≡ min limit (cells_of kept a_inners b_inners) }
{
    let rows = product(kept, b_inners) + a_inners as u128 + 1;
    let Some(columns) = product(a_inners, b_inners).checked_add(rows) else {
        return LIMIT;
    };
    match rows.checked_mul(columns) {
        Some(cells) => cells.min(LIMIT),
        None => LIMIT,
    }
}

// The product of two sizes, which fits.
fn product(m: usize, n: usize) -> u128
    ensures is { result ≡ m * n }
    ensures fits { result < 2 ^ 128 - 2 ^ 65 + 2 }
{
    m as u128 * n as u128
}
