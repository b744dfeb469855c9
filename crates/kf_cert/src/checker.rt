//! The check of certificates.

ghost use Rattle.std.specs.Prelude.{◌≡◌, ◌≢◌, Ok, Err, IfOk, IfErr};
ghost use Rattle.kf_hyper.specs.Views.{target_of};
ghost use Rattle.kf_cert.specs.declared.mark.CheckError.TheVariants as error;
ghost use Rattle.kf_cert.specs.Marks.{IsMarked};
ghost use Rattle.kf_cert.specs.Views.{cert_tree, IsSound};
ghost use Rattle.kf_refine.specs.Views.{hyper_tree};

use crate::gain_rules::check_gain;
use crate::matrix_rules::{check_matrix, check_named};
use crate::{Cert, CheckError, Mark};
use kf_hyper::Hyper;
use std::alloc::Global;

/// Whether a certificate proves its verdict on two hypers of one target, or the first rule that it breaks: for a matrix `Shape`, `Range`,
/// `Sum`, `Cell`, for a gain table `Value`, `Order`. It is accepted exactly where its matrix carries the first hyper to the second, or its
/// table separates them (`cert_laws`), and the check isn't too wide.
pub fn check_cert(alloc: Global, a: &Hyper, b: &Hyper, c: &Cert) -> Result<Mark, CheckError>
    requires targets { target_of a.now ≡ target_of b.now }
    requires sound { IsSound (cert_tree c.now) }
    ensures is { IfOk result (λ mark. IsMarked (hyper_tree a.now) (hyper_tree b.now) (cert_tree c.now) (Ok mark)) }
    ensures err { IfErr result (λ e. e ≢ error.Mem → IsMarked (hyper_tree a.now) (hyper_tree b.now) (cert_tree c.now) (Err e)) }
{
    match c {
        Cert::Yes(matrix) => check_matrix(alloc, a, b, matrix),
        Cert::Named(matrix) => check_named(alloc, a, b, matrix),
        Cert::No(gain) => check_gain(alloc, a, b, gain),
    }
}
