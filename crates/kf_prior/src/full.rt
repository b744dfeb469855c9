//! The full source of a source.

ghost use Rattle.std.specs.Prelude.{◌≡◌, ◌≤◌, ◌<◌, ℕ, Err, IfOk};
ghost use Rattle.kf_ast.specs.Views.{source_tree};
ghost use Rattle.kf_check.specs.Laws.{IsWellBuilt};
ghost use Rattle.kf_check.specs.Translation.{Typed};
ghost use Rattle.kf_core.specs.Checked.{IsChecked};
ghost use Rattle.kf_core.specs.Views.{program_tree};
ghost use Rattle.kf_prior.specs.FullSources.{full_source as full, initial_stores as stores_of};
ghost use Rattle.kf_prior.specs.Priors.{initial_count};
ghost use Rattle.kf_prior.specs.declared.error.FullError.TheVariants as error;

use crate::FullError;
use crate::declarations::{full_decls, full_target};
use crate::literals::both;
use kf_ast::Source;
use kf_check::type_laws;
use kf_core::Program;
use std::alloc::Global;

/// The most initial stores that a full source may have.
const MOST_STORES: u64 = 4_096;

/// The source with the same variables and statements, in which each initial store is equally likely and the target is what each variable is
/// before the statements and behind them. Its program is that of the source.
pub fn full_source(alloc: Global, src: &Source, program: &Program) -> Result<Source, FullError>
    requires built { IsWellBuilt (source_tree src.now) }
    requires typed { Typed (source_tree src.now) (program_tree program.now) }
    ensures full { IfOk result (λ s. source_tree s ≡ full (program_tree program.now).types (source_tree src.now)) }
    ensures built { IfOk result (λ s. IsWellBuilt (source_tree s)) }
    ensures few { IfOk result (λ s. stores_of (program_tree program.now).types (source_tree src.now) ≤ 4096) }
    ensures stores { (count : ℕ) → result ≡ Err (error.Stores count)
        → (count ≡ stores_of (program_tree program.now).types (source_tree src.now)) × (4096 < count) }
    ensures refused { 4096 < stores_of (program_tree program.now).types (source_tree src.now)
        → result ≡ Err (error.Stores (stores_of (program_tree program.now).types (source_tree src.now))) }
{
    type_laws();
    let count = initial_stores(program);
    if count > MOST_STORES {
        return Err(FullError::Stores {
            count: u128::from(count),
        });
    }
    let decls = src.decls.as_slice();
    let rest = both(full_target(alloc, decls), src.body.copy(alloc));
    let (decls, (target, body)) = both(full_decls(alloc, decls, &program.shape), rest)?;
    Ok(Source {
        decls,
        target,
        body,
    })
}

/// How many initial stores there are: the product of the declared variables' sizes.
pub fn initial_stores(program: &Program) -> u64
    requires { IsChecked (program_tree program.now) }
    ensures { result ≡ initial_count (program_tree program.now) }
{
    let mut stores: u64 = 1;
    for i in 0..program.decls.as_slice().len() {
        stores *= u64::from(program.shape.size(i));
    }
    stores
}
