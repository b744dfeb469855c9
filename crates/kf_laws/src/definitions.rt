ghost use Rattle.kf_laws.specs.EndsOver.{CausesEndOver};
ghost use Rattle.kf_laws.specs.Laws.{CapacityBoundsLeaks, CertificatesAccepted, CoversAllPriors, ExactlyOneAnswer, NoIsSeparated, QuietIsNoBetter};
ghost use Rattle.kf_laws.specs.Refusals.{RefusalsAreReasoned, RunsAreRefusedAs};
ghost use Rattle.kf_laws.specs.Structure.{ChannelIsPrinted, VerdictsAreStructural};

use kf_attack::{attack_laws, reach_laws};
use kf_cert::{cert_laws, mark_laws};
use kf_channel::some_secrets;
use kf_check::type_laws;
use kf_core::{joint_laws, run_laws};
use kf_gain::{average_laws, gain_laws, table_laws};
use kf_lex::one_reading;
use kf_make::made_laws;
use kf_order::{leakage_laws, structural_laws};
use kf_parse::{grammar, refusals};
use kf_prior::{full_laws, prior_laws};
use kf_quiet::{blame_laws, quiet_laws};
use kf_refine::{one_verdict, verdict_laws};
use kf_run::trail_laws;
use kf_silent::silent_hypers;
use kf_words::tasks_in_range;

/// A law of the definitions: whatever the words and whatever files there are, read or not, there is exactly one defined answer. It does
/// nothing when it runs.
pub fn exactly_one_answer()
    ensures { ExactlyOneAnswer }
{
    tasks_in_range();
    one_reading();
    grammar();
    refusals();
    type_laws();
    joint_laws();
    run_laws();
    some_secrets();
    average_laws();
    gain_laws();
    table_laws();
    trail_laws();
    attack_laws();
    reach_laws();
    full_laws();
    blame_laws();
    silent_hypers();
    one_verdict();
    verdict_laws();
    cert_laws();
    mark_laws();
}

/// A law of `run`'s clauses: where files tell what they hold, a run ends with the defined answer over the files that the words name, or
/// its status is that of a failed read or write or of want of memory; it does so for certain where nothing failed. It does nothing when it
/// runs.
pub fn told_answers()
    ensures { CausesEndOver }
{}

/// Laws of the definitions and of `run`'s clauses: the table of which refusals each command can have, with their status and line, over any
/// files and for any run. They do nothing when they run.
pub fn reasoned_refusals()
    ensures tasks { RefusalsAreReasoned }
    ensures runs { RunsAreRefusedAs }
{
    tasks_in_range();
    one_reading();
    grammar();
    refusals();
    type_laws();
    made_laws();
}

/// A law of the definitions: a certificate that `refine --json` wrote is accepted by `check` for the same two texts and turns, or that check
/// is too wide. It does nothing when it runs.
pub fn certificates_accepted()
    ensures { CertificatesAccepted }
{
    reasoned_refusals();
    one_reading();
    grammar();
    refusals();
    type_laws();
    joint_laws();
    run_laws();
    full_laws();
    verdict_laws();
    cert_laws();
}

/// Laws of the definitions: where `covers` answers yes, the second program leaks no more than the first at any prior on their initial
/// stores and under any gain table; where it answers no, it prints a table under which the second leaks more at the uniform prior. It does
/// nothing when it runs.
pub fn covers_all_priors()
    ensures all { CoversAllPriors }
    ensures separated { NoIsSeparated }
{
    reasoned_refusals();
    one_reading();
    grammar();
    refusals();
    type_laws();
    prior_laws();
}

/// A law of the definitions: whatever the adversary wants, the hyper that `quiet` shows is worth no more than the one that `hyper` shows
/// of the same text. It does nothing when it runs.
pub fn quiet_leaks_no_more()
    ensures { QuietIsNoBetter }
{
    reasoned_refusals();
    one_reading();
    grammar();
    refusals();
    type_laws();
    quiet_laws();
}

/// A law of the definitions: where no gain is below 0, the posterior vulnerability that `leak` prints is at most its prior one times what
/// `capacity` prints of the same text; for one guess, where all secrets weigh the same, it is exactly that (Alvim et al. 2020, miracle). It
/// does nothing when it runs.
pub fn capacity_bounds_leaks()
    ensures { CapacityBoundsLeaks }
{
    reasoned_refusals();
    one_reading();
    grammar();
    refusals();
    type_laws();
    leakage_laws();
}

/// Laws of the definitions: what `channel` prints of a text is its program's channel; and where two pairs of texts, each with one prior, have
/// the same channel matrices, `refine` gives both pairs the same verdict, whatever these priors are (Alvim et al. 2020, refinement of
/// channels). They do nothing when they run.
pub fn structural_verdicts()
    ensures printed { ChannelIsPrinted }
    ensures structural { VerdictsAreStructural }
{
    reasoned_refusals();
    one_reading();
    grammar();
    refusals();
    type_laws();
    joint_laws();
    run_laws();
    full_laws();
    structural_laws();
}
