ghost use Rattle.std.specs.Prelude.{◌≡◌, IfOk, IfErr};
ghost use Rattle.kf_value.specs.Views.{kind_tree};

use crate::TypeError;
use crate::kinds::same_kind;
use kf_core::{Dx, DxNode, Ex};
use kf_value::Kind;

/// An expression whose names are known, and the kind of its values.
#[derive(Drop)]
pub struct TypedEx {
    pub ex: Ex,
    pub kind: Kind,
}

impl TypedEx {
    /// The expression, whose value is to be of this kind, else Clash at `at`.
    pub fn asked(self, kind: &Kind, at: u32) -> Result<Ex, TypeError>
        ensures ok { IfOk result (λ x. (x ≡ self.ex) × (kind_tree self.kind ≡ kind_tree kind.now)) }
        ensures err { IfErr result (λ e. (e ≡ TypeError.Clash at) × (kind_tree self.kind ≡ kind_tree kind.now → ⊥)) }
    {
        if same_kind(&self.kind, kind) {
            Ok(self.ex)
        } else {
            drop(self);
            Err(TypeError::Clash { at })
        }
    }
}

/// A distribution whose names are known, and the kind of its values.
#[derive(Drop)]
pub struct TypedDx {
    pub dx: Dx,
    pub kind: Kind,
}

impl TypedDx {
    /// The distribution at the byte `at`.
    pub fn new(at: u32, node: DxNode, kind: Kind) -> TypedDx
        ensures dx { result.dx ≡ record { at = at; node = node } }
        ensures kind { result.kind ≡ kind }
    {
        TypedDx {
            dx: Dx { at, node },
            kind,
        }
    }

    /// The distribution alone.
    pub fn into_dx(self) -> Dx
        ensures { result ≡ self.dx }
    {
        self.dx
    }

    /// The distribution, whose values are to be of this kind, else Clash at `at`.
    pub fn asked(self, kind: &Kind, at: u32) -> Result<Dx, TypeError>
        ensures ok { IfOk result (λ x. (x ≡ self.dx) × (kind_tree self.kind ≡ kind_tree kind.now)) }
        ensures err { IfErr result (λ e. (e ≡ TypeError.Clash at) × (kind_tree self.kind ≡ kind_tree kind.now → ⊥)) }
    {
        if same_kind(&self.kind, kind) {
            Ok(self.dx)
        } else {
            drop(self);
            Err(TypeError::Clash { at })
        }
    }
}
