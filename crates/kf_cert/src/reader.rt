//! The reading of certificates.

ghost use Rattle.std.specs.Prelude.{◌≡◌, ◌≢◌, Ok, Err, IfOk, IfErr};
ghost use Rattle.kf_cert.specs.declared.cert.CertError.TheVariants as broken;
ghost use Rattle.serde_json.specs.View.{view};
ghost use Rattle.kf_cert.specs.Certificates.{cert_of};
ghost use Rattle.kf_cert.specs.Parts.{cert_in};
ghost use Rattle.kf_cert.specs.Views.{cert_tree, IsSound};

mod content;

use crate::forms::broken_form;
use crate::places::names_in_order;
use crate::{Cert, CertError};
use content::cert;
use kf_json::parse;
use serde_json::Value;
use std::alloc::Global;

/// The certificate that the bytes are.
///
/// Numbers are texts, of any length until they are found to be too wide. The error is that of the first broken rule, each rule being
/// tested over the whole value before the next: `Json`, `Form` from 1 to 6, `Wide`, `Form` 7; or `Mem`, want of memory.
pub fn read_cert(alloc: Global, bytes: &[u8]) -> Result<Cert, CertError>
    ensures is { IfOk result (λ c. cert_of bytes.now ≡ Ok (cert_tree c)) }
    ensures sound { IfOk result (λ c. IsSound (cert_tree c)) }
    ensures err { IfErr result (λ e. e ≢ broken.Mem → cert_of bytes.now ≡ Err e) }
{
    let value = parse(alloc, bytes)?;
    cert_said(alloc, &value)
}

/// The certificate that a JSON value says, or the first rule that it breaks.
fn cert_said(alloc: Global, value: &Value) -> Result<Cert, CertError>
    ensures is { IfOk result (λ c. cert_in (view value.now) ≡ Ok (cert_tree c)) }
    ensures err { IfErr result (λ e. e ≢ broken.Mem → cert_in (view value.now) ≡ Err e) }
{
    if let Some(fault) = broken_form(value) {
        return Err(fault);
    }
    let cert = cert(alloc, value)?;
    if !names_in_order(&cert) {
        return Err(CertError::Form { rule: 7 });
    }
    Ok(cert)
}
