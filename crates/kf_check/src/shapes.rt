ghost use Rattle.std.specs.Prelude.{◌≡◌, ◌+◌, ◌<◌, ◌≤◌, ◌^◌, ◌++◌, List, length, map, IfOk, IfErr};
ghost use Rattle.std.specs.List.{All};
ghost use Rattle.kf_value.specs.Types.{TypeTree, count, product};
ghost use Rattle.kf_value.specs.TypeViews.{type_tree};
ghost use Rattle.kf_value.specs.Shapes.{shape_types};
ghost use Rattle.kf_check.specs.Sources.{types_of};
ghost use Rattle.kf_check.specs.Variables.{variable_of, AreDeclared, AreCopied};

use crate::TypeError;
use crate::variables::Variable;
use kf_value::{Shape, Ty, TyList};
use std::alloc::Global;

/// The shape of declared variables and, behind them, of carried copies of these ones.
pub fn shape_of(alloc: Global, variables: &[Variable], copies: &[u8]) -> Result<Shape, TypeError>
    requires some { 1 ≤ length variables.now }
    requires declared { AreDeclared (map variable_of variables.now) }
    requires within { All (λ c. c < length variables.now) copies.now }
    requires few { length variables.now + length copies.now ≤ 32 }
    requires narrow { (types : List TypeTree) → AreCopied (map variable_of variables.now) copies.now types → product (map count (types_of (map variable_of variables.now) ++ types)) ≤ 2 ^ 63 }
    ensures shape { IfOk result (λ s. (types : List TypeTree) × (shape_types s ≡ types_of (map variable_of variables.now) ++ types) × AreCopied (map variable_of variables.now) copies.now types) }
    ensures memory { IfErr result (λ e. e ≡ TypeError.Mem) }
{
    let types = declared_types(alloc, variables)?;
    let types = with_copies(alloc, types, variables, copies)?;
    match Shape::new(alloc, TyList::new(types)) {
        Ok(shape) => Ok(shape),
        Err(_) => Err(TypeError::Mem),
    }
}

/// The types of declared variables.
fn declared_types(alloc: Global, variables: &[Variable]) -> Result<Vec<Ty>, TypeError>
    ensures types { IfOk result (λ v. map type_tree v.items ≡ types_of (map variable_of variables.now)) }
    ensures memory { IfErr result (λ e. e ≡ TypeError.Mem) }
{
    let mut types = Vec::new(alloc);
    for variable in variables {
        types.push(variable.ty.copy(alloc)?)?;
    }
    Ok(types)
}

/// These types, and behind them those of the carried copies.
fn with_copies(
    alloc: Global,
    mut types: Vec<Ty>,
    variables: &[Variable],
    copies: &[u8],
) -> Result<Vec<Ty>, TypeError>
    requires { All (λ c. c < length variables.now) copies.now }
    ensures types { IfOk result (λ v. (added : List TypeTree) × (map type_tree v.items ≡ map type_tree types.items ++ added) × AreCopied (map variable_of variables.now) copies.now added) }
    ensures memory { IfErr result (λ e. e ≡ TypeError.Mem) }
{
    for copy in copies {
        let variable = &variables[usize::from(*copy)];
        types.push(variable.ty.copy(alloc)?)?;
    }
    Ok(types)
}
