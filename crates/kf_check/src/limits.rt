ghost use Rattle.kf_value.specs.Types.{count};
ghost use Rattle.kf_value.specs.Sizes.{HasSize};
ghost use Rattle.kf_value.specs.TypeViews.{type_tree};
ghost use Rattle.kf_check.specs.SourceAnswers.{AnswersGrowth};

use crate::TypeError;
use kf_value::{Ty, size};

/// The most variables, carried copies among them.
const MOST_VARIABLES: usize = 32;

/// The most stores.
const MOST_STORES: u64 = 1 << 63;

/// How many stores there are with one variable more of this type, where so many are allowed.
pub fn grow(variables: usize, stores: u64, ty: &Ty, at: u32) -> Result<u64, TypeError>
    requires { HasSize (type_tree ty.now) }
    ensures { AnswersGrowth variables stores (count (type_tree ty.now)) at result }
{
    if variables >= MOST_VARIABLES {
        return Err(TypeError::TooManyVariables { at });
    }
    let size = match size(ty) {
        Ok(size) => size,
        Err(_) => unreachable!(),
    };
    let grown = stores.saturating_mul(u64::from(size));
    if grown > MOST_STORES {
        Err(TypeError::StoreTooWide { at })
    } else {
        Ok(grown)
    }
}
