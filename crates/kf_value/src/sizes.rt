ghost use Rattle.std.specs.Prelude.{◌≡◌, ◌≤◌, ◌<◌, ◌-ℤ◌, map, nat_le, IfOk, if◌then◌else◌};
ghost use Rattle.kf_value.specs.Types.{in_bounds, counted, count, product, type_parts, TupleOf};
ghost use Rattle.kf_value.specs.Sizes.{size_of, size_within, capped_product, HasSize};
ghost use Rattle.kf_value.specs.TypeViews.{type_tree};

use crate::{Ty, TyFault};

/// The most values that a type may have.
const MOST_VALUES: u32 = 65_536;

/// The most values that the base of a set may have.
const MOST_ELEMENTS: u32 = 16;

/// How far from 0 the bounds of a range may lie.
const FARTHEST_BOUND: i64 = 1_000_000;

/// The number of values of a type, or the fault of its first faulty part: the inner parts of a part come before it, and
/// parts go from left to right.
pub fn size(ty: &Ty) -> Result<u32, TyFault>
    ensures { result ≡ size_of (type_tree ty.now) }
{
    size_within(ty, MOST_VALUES)
}

/// The same where the type may have at most `limit` values.
#[cycle(size)]
fn size_within(ty: &Ty, limit: u32) -> Result<u32, TyFault>
    requires { limit ≤ 65536 }
    ensures exact { result ≡ size_within limit (type_tree ty.now) }
    ensures few { IfOk result (λ n. n ≤ limit) }
{
    match ty {
        Ty::Bool => at_most(limit, 2),
        Ty::Int { lo, hi } => at_most(limit, range_size(*lo, *hi)?),
        Ty::Tuple(parts) => at_most(limit, product_of_sizes(parts.as_slice())?),
        Ty::Set(base) => at_most(limit, 1 << size_within(base, MOST_ELEMENTS)?),
    }
}

fn at_most(limit: u32, size: u32) -> Result<u32, TyFault>
    ensures { result ≡ (if nat_le size limit then Ok size else Err TyFault.TooManyValues) }
{
    if size <= limit {
        Ok(size)
    } else {
        Err(TyFault::TooManyValues)
    }
}

fn range_size(lo: i64, hi: i64) -> Result<u32, TyFault>
    ensures { result ≡ (if in_bounds lo hi then Ok (counted (hi -ℤ lo)) else Err TyFault.BadRange) }
{
    if -FARTHEST_BOUND <= lo && lo <= hi && hi <= FARTHEST_BOUND {
        Ok((hi - lo + 1) as u32)
    } else {
        Err(TyFault::BadRange)
    }
}

/// The product of the sizes, or as much of it as 32 bits hold.
#[cycle(size)]
fn product_of_sizes(types: &[Ty]) -> Result<u32, TyFault>
    ensures { result ≡ capped_product (map type_tree types.now) }
{
    let mut product: u32 = 1;
    for ty in types {
        product = product.saturating_mul(size_within(ty, MOST_VALUES)?);
    }
    Ok(product)
}

/// The number of values of a type that has a size.
pub(crate) fn known_size(ty: &Ty) -> u32
    requires { HasSize (type_tree ty.now) }
    ensures exact { result ≡ count (type_tree ty.now) }
    ensures some { 0 < result }
    ensures few { result ≤ 65536 }
{
    match size(ty) {
        Ok(size) => size,
        Err(_) => unreachable!(),
    }
}

/// The product of the sizes of types whose tuples have a size.
pub(crate) fn known_product(types: &[Ty]) -> u32
    requires { HasSize (TupleOf (type_parts (map type_tree types.now))) }
    ensures { result ≡ product (map count (map type_tree types.now)) }
{
    match product_of_sizes(types) {
        Ok(product) => product,
        Err(_) => unreachable!(),
    }
}
