ghost use Rattle.std.specs.Prelude.{◌≡◌, ◌≢◌, ◌≤◌, ◌++◌, List, length, map, Ok, IfOk, IfErr};
ghost use Rattle.kf_value.specs.Types.{TypeTree};
ghost use Rattle.kf_value.specs.Shapes.{shape_types};
ghost use Rattle.kf_ast.specs.Views.{decl_tree, decl_items, item_tree, target_items, source_tree};
ghost use Rattle.kf_core.specs.Views.{program_tree};
ghost use Rattle.kf_core.specs.Checked.{IsChecked};
ghost use Rattle.kf_check.specs.Laws.{IsWellBuilt};
ghost use Rattle.kf_check.specs.Sources.{known_of, types_of};
ghost use Rattle.kf_check.specs.SourceAnswers.{AnswersDecls, AnswersTarget};
ghost use Rattle.kf_check.specs.Translation.{Typed};
ghost use Rattle.kf_check.specs.Variables.{variables_in, AreCopied, IsBroken};
ghost use Rattle.kf_check.specs.Views.{known_in};

use crate::TypeError;
use crate::decls::check_decls;
use crate::errors::beside;
use crate::shapes::shape_of;
use crate::stmts::check_stmts;
use crate::targets::{Targeted, check_target};
use crate::variables::Declared;
use kf_ast::Source;
use kf_core::{DxList, Program};
use kf_value::Shape;
use std::alloc::Global;

/// All of a source but its statements, with the shape of its stores.
#[derive(Drop)]
struct Head {
    declared: Declared,
    targeted: Targeted,
    shape: Shape,
}

/// The program of a source, or its first broken type rule: whether it declares a variable, then its declarations, its
/// target and its statements, each from left to right.
pub fn check(alloc: Global, src: &Source) -> Result<Program, TypeError>
    requires { IsWellBuilt (source_tree src.now) }
    ensures typed { IfOk result (λ p. Typed (source_tree src.now) (program_tree p)) }
    ensures checked { IfOk result (λ p. IsChecked (program_tree p)) }
    ensures broken { IfErr result (λ e. e ≢ TypeError.Mem → IsBroken (source_tree src.now) e) }
{
    let head = check_head(alloc, src)?;
    let body = check_stmts(alloc, &head.declared.names, src.body.as_slice());
    let (body, head) = beside(body, head)?;
    let Head {
        declared,
        targeted,
        shape,
    } = head;
    Ok(Program {
        shape,
        decls: DxList::new(declared.dists),
        copies: targeted.copies,
        body,
        target: targeted.target,
        target_slots: targeted.slots,
    })
}

/// All of a source but its statements, or the first broken rule there.
fn check_head(alloc: Global, src: &Source) -> Result<Head, TypeError>
    requires { IsWellBuilt (source_tree src.now) }
    ensures some { IfOk result (λ h. 1 ≤ length (map decl_tree (decl_items src.now.decls))) }
    ensures declared { IfOk result (λ h. AnswersDecls (map decl_tree (decl_items src.now.decls)) (Ok h.declared)) }
    ensures known { IfOk result (λ h. known_in h.declared.names ≡ known_of (variables_in h.declared)) }
    ensures targeted { IfOk result (λ h. AnswersTarget (variables_in h.declared) (map item_tree (target_items src.now.target)) (Ok h.targeted)) }
    ensures shape { IfOk result (λ h. (types : List TypeTree) × (shape_types h.shape ≡ types_of (variables_in h.declared) ++ types) × AreCopied (variables_in h.declared) h.targeted.copies types) }
    ensures broken { IfErr result (λ e. e ≢ TypeError.Mem → IsBroken (source_tree src.now) e) }
{
    let decls = src.decls.as_slice();
    if decls.is_empty() {
        return Err(TypeError::NoVariable { at: 0 });
    }
    let declared = check_decls(alloc, decls)?;
    let targeted = check_target(alloc, &declared, src.target.as_slice());
    let (targeted, declared) = beside(targeted, declared)?;
    let shape = shape_of(alloc, &declared.variables, targeted.copies.as_slice());
    let (shape, (declared, targeted)) = beside(shape, (declared, targeted))?;
    Ok(Head {
        declared,
        targeted,
        shape,
    })
}
