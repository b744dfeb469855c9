use crate::names::Names;
use kf_core::Dx;
use kf_value::{Kind, Name, Ty};

/// A declared variable.
#[derive(Drop)]
pub struct Variable {
    pub name: Name,
    pub ty: Ty,
}

/// A declaration that breaks no rule.
#[derive(Drop)]
pub struct Declaration {
    pub variable: Variable,
    pub kind: Kind,
    /// The distribution of the variable's first value.
    pub dist: Dx,
    /// How many stores there are with this variable.
    pub stores: u64,
}

/// The declarations of a source, which break no rule.
#[derive(Drop)]
pub struct Declared {
    pub names: Names,
    pub variables: Vec<Variable>,
    pub dists: Vec<Dx>,
    /// How many stores these variables have.
    pub stores: u64,
}
