//! Verdicts on two programs, and the check of certificates.

ghost use Rattle.std.specs.Prelude.{◌≡◌, ◌≢◌, ◌∷◌, [], ℕ, Bool, if◌then◌else◌, Err, IfErr, IfOk};
ghost use Rattle.kf_value.specs.Views.{items_of};
ghost use Rattle.kf_cert.specs.CertTexts.{cert_text};
ghost use Rattle.kf_cert.specs.Certificates.{cert_of};
ghost use Rattle.kf_cert.specs.Views.{cert_tree, IsSound};
ghost use Rattle.kf_core.specs.Programs.{ProgramTree};
ghost use Rattle.kf_load.specs.Steps.{After, Gives};
ghost use Rattle.kf_load.specs.Views.{program_in};
ghost use Rattle.kf_refine.specs.Refinements.{HyperTree};
ghost use Rattle.kf_cert.specs.Shapes.{IsWritable};
ghost use Rattle.kf_refine.specs.Verdicts.{IsVerdict};
ghost use Rattle.kf_refine.specs.Views.{hyper_tree, verdict_tree};
ghost use Rattle.kf_refine.specs.declared.verdict.RefineError.TheVariants as errors;
ghost use Rattle.kf_support.specs.Cleared.{turns_of};
ghost use Rattle.kf_text.specs.Texts.{line};
ghost use Rattle.kf_text.specs.VerdictTexts.{mark_text as text_of_mark, verdict_text as text_of_verdict};
ghost use Rattle.kf_top.specs.Answer.{CertIn, MarkOn, RefineOutcome};
ghost use Rattle.kf_top.specs.Stops.{Answers, IsOwn, IsVerdictOn, Stopped};
ghost use Rattle.kf_top.specs.TaskAnswers.{Counts, FileAnswer};
ghost use Rattle.kf_top.specs.Views.{shown};
ghost use Rattle.kf_top.specs.Steps.{cert_read, most_pivots, is_accepted as accepts, AreHypers, is_yes as says_yes, VerdictOn};

use crate::refusal::{Done, Refusal, Stop, lift};
use kf_cert::{Cert, CertError, CheckError, Mark, check_cert, read_cert, write_cert};
use kf_hyper::Hyper;
use kf_io::Files;
use kf_load::{Pair, read_source};
use kf_refine::{RefineError, Verdict, refine as decide};
use kf_run::hyper_of;
use kf_text::{mark_text, verdict_text};
use kf_value::{Mem, Target, same_target};
use std::alloc::Global;

/// How many pivots a run may have.
pub(crate) const MOST_PIVOTS: u32 = 20_000;

/// The hypers of two programs.
#[derive(Drop)]
pub(crate) struct Hypers {
    pub(crate) a: Hyper,
    pub(crate) b: Hyper,
}

/// The hypers of two cleared programs.
pub(crate) fn hypers_of(alloc: Global, pair: &Pair) -> Result<Hypers, Mem>
    requires { turns_of pair.now.first ≡ turns_of pair.now.second }
    ensures { IfOk result (λ hypers. AreHypers (turns_of pair.now.first) (program_in pair.now.first)
        (program_in pair.now.second) (hyper_tree hypers.a) (hyper_tree hypers.b)) }
{
    let a = hyper_of(alloc, &pair.first)?;
    let b = hyper_of(alloc, &pair.second)?;
    Ok(Hypers { a, b })
}

// The certificate or the printed text of a verdict on hypers of this target.
fn bytes_of(alloc: Global, verdict: &Verdict, target: &Target, json: bool) -> Result<Vec<u8>, Mem>
    requires { IsWritable (items_of target.now) (verdict_tree verdict.now) }
    ensures { IfOk result (λ bytes. bytes.items ≡ (if json
        then cert_text (items_of target.now) (verdict_tree verdict.now)
        else text_of_verdict (items_of target.now) (verdict_tree verdict.now))) }
{
    if json {
        write_cert(alloc, verdict, target)
    } else {
        verdict_text(alloc, verdict, target)
    }
}

// Whether a verdict is a yes.
fn is_yes(verdict: &Verdict) -> bool
    ensures { result ≡ says_yes (verdict_tree verdict.now) }
{
    matches!(verdict, Verdict::Yes(_))
}

// Why there is no verdict on two hypers.
fn verdict_stop<'a>(error: RefineError) -> Stop<'a>
    ensures answer { (json : Bool) (a b : HyperTree) → (error ≢ errors.Mem → IsVerdict a b most_pivots (Err error))
        → Stopped result (VerdictOn json a b) }
    ensures read { IsOwn result }
{
    match error {
        RefineError::Targets => Stop::Refused(Refusal::OtherTarget),
        RefineError::Cells { count } => Stop::Refused(Refusal::ManyCells(count)),
        RefineError::Wide { pivots } => Stop::Refused(Refusal::WideTableau(pivots)),
        RefineError::Budget => Stop::Refused(Refusal::ManyPivots),
        RefineError::Mem => Stop::Mem,
    }
}

/// The printed verdict on two hypers, or why there is none.
pub(crate) fn printed_verdict<'a>(
    alloc: Global,
    hypers: &Hypers,
    verdict: Result<Verdict, RefineError>,
    json: bool,
) -> Result<Done, Stop<'a>>
    requires ok { IfOk verdict (IsVerdictOn hypers.now) }
    requires err { IfErr verdict (λ e. e ≢ errors.Mem → IsVerdict (hyper_tree hypers.now.a) (hyper_tree hypers.now.b) most_pivots (Err e)) }
    ensures answer { Answers shown result (VerdictOn json (hyper_tree hypers.now.a) (hyper_tree hypers.now.b)) }
    ensures read { IfErr result IsOwn }
{
    let verdict = match verdict {
        Ok(verdict) => verdict,
        Err(error) => return Err(verdict_stop(error)),
    };
    let yes = is_yes(&verdict);
    let bytes = bytes_of(alloc, &verdict, hypers.a.target(), json)?;
    Ok(Done { yes, bytes })
}

/// Whether the second of two cleared programs leaks no more than the first.
pub(crate) fn refine<'a>(alloc: Global, pair: &Pair, json: bool) -> Result<Done, Stop<'a>>
    requires { turns_of pair.now.first ≡ turns_of pair.now.second }
    ensures answer { Answers shown result (RefineOutcome json (turns_of pair.now.first)
        (program_in pair.now.first) (program_in pair.now.second)) }
    ensures read { IfErr result IsOwn }
{
    let hypers = hypers_of(alloc, pair)?;
    let verdict = decide(alloc, &hypers.a, &hypers.b, MOST_PIVOTS);
    printed_verdict(alloc, &hypers, verdict, json)
}

// The certificate that these bytes of a file are.
fn cert_of_bytes<'a>(alloc: Global, bytes: &[u8], name: &'a str) -> Result<Cert, Stop<'a>>
    ensures answer { Answers cert_tree result (Gives (cert_read name.now (cert_of bytes.now))) }
    ensures sound { IfOk result (λ c. IsSound (cert_tree c)) }
    ensures read { IfErr result IsOwn }
{
    match read_cert(alloc, bytes) {
        Ok(cert) => Ok(cert),
        Err(error) => match error {
            CertError::Mem => Err(Stop::Mem),
            _ => Err(Stop::Refused(Refusal::BadCert(name, error))),
        },
    }
}

// The certificate in a file.
fn cert_in<'a, F: Files>(alloc: Global, files: &mut F, name: &'a str) -> Result<Cert, Stop<'a>>
    ensures answer { FileAnswer (F.contents files.old) (F.faults files.old) (F.faults files.new) name.now cert_tree result CertIn }
    ensures sound { IfOk result (λ c. IsSound (cert_tree c)) }
    ensures counts { Counts (name.now ∷ []) (F.faults files.old) (F.faults files.new) result }
{
    match read_source(alloc, files, name) {
        Ok(bytes) => cert_of_bytes(alloc, &bytes, name),
        Err(stop) => Err(lift(stop)),
    }
}

// The printed mark of a certificate, as a line.
fn mark_line(alloc: Global, mark: &Mark) -> Result<Vec<u8>, Mem>
    ensures { IfOk result (λ bytes. bytes.items ≡ line (text_of_mark mark.now)) }
{
    let mut bytes = Vec::new(alloc);
    bytes.extend_from_slice(mark_text(mark).as_bytes())?;
    bytes.extend_from_slice(b"\n")?;
    Ok(bytes)
}

// Whether a mark accepts its certificate.
fn is_accepted(mark: &Mark) -> bool
    ensures { result ≡ accepts mark.now }
{
    matches!(mark, Mark::Accepted)
}

// The mark of a certificate on two hypers.
fn marked_on<'a>(alloc: Global, hypers: &Hypers, cert: &Cert) -> Result<Done, Stop<'a>>
    requires { IsSound (cert_tree cert.now) }
    ensures answer { (turns : ℕ) (p q : ProgramTree) → AreHypers turns p q (hyper_tree hypers.now.a) (hyper_tree hypers.now.b)
        → Answers shown result (MarkOn turns p q (cert_tree cert.now)) }
    ensures read { IfErr result IsOwn }
{
    if !same_target(hypers.a.target(), hypers.b.target()) {
        return Err(Stop::Refused(Refusal::OtherTarget));
    }
    let mark = match check_cert(alloc, &hypers.a, &hypers.b, cert) {
        Ok(mark) => mark,
        Err(CheckError::Wide) => return Err(Stop::Refused(Refusal::WideCert)),
        Err(CheckError::Mem) => return Err(Stop::Mem),
    };
    let yes = is_accepted(&mark);
    let bytes = mark_line(alloc, &mark)?;
    Ok(Done { yes, bytes })
}

// The mark of a certificate on the hypers of two programs.
fn marked<'a>(alloc: Global, pair: &Pair, cert: &Cert) -> Result<Done, Stop<'a>>
    requires turns { turns_of pair.now.first ≡ turns_of pair.now.second }
    requires sound { IsSound (cert_tree cert.now) }
    ensures answer { Answers shown result (MarkOn (turns_of pair.now.first) (program_in pair.now.first)
        (program_in pair.now.second) (cert_tree cert.now)) }
    ensures read { IfErr result IsOwn }
{
    let hypers = hypers_of(alloc, pair)?;
    let done = marked_on(alloc, &hypers, cert);
    drop(hypers);
    done
}

/// Whether the certificate in a file proves its verdict on two cleared programs. It is read now.
pub(crate) fn check<'a, F: Files>(
    alloc: Global,
    files: &mut F,
    pair: &Pair,
    name: &'a str,
) -> Result<Done, Stop<'a>>
    requires { turns_of pair.now.first ≡ turns_of pair.now.second }
    ensures answer { FileAnswer (F.contents files.old) (F.faults files.old) (F.faults files.new) name.now shown result
        (λ file. After (CertIn file) (MarkOn (turns_of pair.now.first) (program_in pair.now.first) (program_in pair.now.second))) }
    ensures counts { Counts (name.now ∷ []) (F.faults files.old) (F.faults files.new) result }
{
    let cert = cert_in(alloc, files, name)?;
    marked(alloc, pair, &cert)
}
