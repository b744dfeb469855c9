ghost use Rattle.std.specs.Prelude.{◌≡◌, ◌*◌, ◌<◌, ◌++◌, ◌∷◌, [], length, map, IfOk, IfErr, OnOk};
ghost use Rattle.kf_value.specs.Types.{count, product};
ghost use Rattle.kf_value.specs.Views.{kind_tree};
ghost use Rattle.kf_ast.specs.Views.{decl_tree, dist_tree};
ghost use Rattle.kf_ast.specs.Built.{IsDistBuilt, AreDeclsBuilt};
ghost use Rattle.kf_ops.specs.Fitting.{Takes};
ghost use Rattle.kf_value.specs.Kinds.{kind_of as kind_of_type};
ghost use Rattle.kf_check.specs.Sources.{known_of, types_of};
ghost use Rattle.kf_check.specs.Views.{known_in, flags_in};
ghost use Rattle.kf_check.specs.Variables.{variable_of, variables_in, IsUnknown};
ghost use Rattle.kf_check.specs.SourceAnswers.{AnswersDecl, AnswersDecls};

use crate::TypeError;
use crate::dists::asks_dist;
use crate::errors::beside;
use crate::kinds::kind_of;
use crate::limits::grow;
use crate::names::Names;
use crate::types::ty;
use crate::variables::{Declaration, Declared, Variable};
use kf_ast::Decl;
use std::alloc::Global;

/// A declaration behind those of the variables, which have so many stores, or its first broken rule.
fn check_decl(
    alloc: Global,
    names: &Names,
    variables: &[Variable],
    stores: u64,
    decl: &Decl,
) -> Result<Declaration, TypeError>
    requires built { IsDistBuilt Takes (dist_tree decl.now.dist) }
    requires known { known_in names.now ≡ known_of (map variable_of variables.now) }
    requires counted { stores ≡ product (map count (types_of (map variable_of variables.now))) }
    ensures answer { AnswersDecl (map variable_of variables.now) (decl_tree decl.now) result }
    ensures kind { IfOk result (λ x. kind_tree x.kind ≡ kind_of_type (variable_of x.variable).type) }
    ensures counted { IfOk result (λ x. x.stores ≡ stores * count (variable_of x.variable).type) }
{
    let at = decl.name.at;
    if let Some(_) = names.find(decl.name.text.as_str()) {
        return Err(TypeError::Twice { at });
    }
    let ty = ty(alloc, &decl.ty)?;
    let (stores, ty) = beside(grow(variables.len(), stores, &ty, at), ty)?;
    let (kind, ty) = beside(kind_of(alloc, &ty), ty)?;
    let (name, (ty, kind)) = beside(decl.name.text.copy(alloc), (ty, kind))?;
    let variable = Variable { name, ty };
    let dist = asks_dist(alloc, names, &kind, &decl.dist);
    let (dist, (variable, kind)) = beside(dist, (variable, kind))?;
    Ok(Declaration {
        variable,
        kind,
        dist,
        stores,
    })
}

/// All declarations of a source, or their first broken rule.
pub fn check_decls(alloc: Global, decls: &[Decl]) -> Result<Declared, TypeError>
    requires { AreDeclsBuilt Takes (map decl_tree decls.now) }
    ensures answer { AnswersDecls (map decl_tree decls.now) result }
    ensures known { IfOk result (λ x. known_in x.names ≡ known_of (variables_in x)) }
    ensures counted { IfOk result (λ x. x.stores ≡ product (map count (types_of (variables_in x)))) }
{
    let mut declared = Declared {
        names: Names::new(alloc),
        variables: Vec::new(alloc),
        dists: Vec::new(alloc),
        stores: 1,
    };
    for decl in decls {
        let declaration = check_decl(
            alloc,
            &declared.names,
            &declared.variables,
            declared.stores,
            decl,
        )?;
        declare(alloc, &mut declared, declaration, decl.visible)?;
    }
    Ok(declared)
}

/// One more declaration, behind the others.
fn declare(
    alloc: Global,
    declared: &mut Declared,
    declaration: Declaration,
    visible: bool,
) -> Result<(), TypeError>
    requires room { length (known_in declared.old.names) < 32 }
    requires fresh { IsUnknown (known_in declared.old.names) declaration.variable.name }
    ensures known { OnOk result (known_in declared.new.names ≡ known_in declared.old.names ++ record { name = declaration.variable.name; kind = kind_tree declaration.kind } ∷ []) }
    ensures flags { OnOk result (flags_in declared.new.names ≡ flags_in declared.old.names ++ visible ∷ []) }
    ensures variables { OnOk result (declared.new.variables.items ≡ declared.old.variables.items ++ declaration.variable ∷ []) }
    ensures dists { OnOk result (declared.new.dists.items ≡ declared.old.dists.items ++ declaration.dist ∷ []) }
    ensures stores { OnOk result (declared.new.stores ≡ declaration.stores) }
    ensures memory { IfErr result (λ e. e ≡ TypeError.Mem) }
{
    let Declaration {
        variable,
        kind,
        dist,
        stores,
    } = declaration;
    let (_, (variable, kind)) = beside(declared.dists.push(dist), (variable, kind))?;
    let named = declared.names.push(alloc, &variable.name, kind, visible);
    let (_, variable) = beside(named, variable)?;
    declared.variables.push(variable)?;
    declared.stores = stores;
    Ok(())
}
