ghost use Rattle.kf_top.specs.TaskAnswers.{Counts, TaskAnswer};
ghost use Rattle.kf_words.specs.Jobs.{task_of_job, HasTurns, IsInRange};
ghost use Rattle.kf_words.specs.OfWords.{named};

use crate::about::{AboutOne, AboutTwo, about_one, about_two};
use crate::capacity::Composition;
use crate::covers::covers;
use crate::hyper::made_hyper;
use crate::lines::lines;
use crate::refusal::{Done, Stop};
use kf_io::Files;
use kf_words::Job;
use std::alloc::Global;

/// Does the job: what is to be written, or why there is no answer.
pub(crate) fn work<'a, F: Files>(
    alloc: Global,
    files: &mut F,
    job: &'a Job,
) -> Result<Done, Stop<'a>>
    requires turns { HasTurns (task_of_job job.now) }
    requires range { IsInRange (task_of_job job.now).command }
    ensures answer { TaskAnswer (F.contents files.old) (F.faults files.old) (F.faults files.new) (task_of_job job.now) result }
    ensures counts { Counts (named (task_of_job job.now)) (F.faults files.old) (F.faults files.new) result }
{
    match job {
        Job::Hyper { file, turns } => about_one(alloc, files, file, AboutOne::Hyper, *turns),
        Job::Traces { file, turns } => about_one(alloc, files, file, AboutOne::Traces, *turns),
        Job::Channel { file, turns } => about_one(alloc, files, file, AboutOne::Channel, *turns),
        Job::Trail { file, turns } => about_one(alloc, files, file, AboutOne::Trail, *turns),
        Job::Leak { file, gain, turns } => about_one(
            alloc,
            files,
            file,
            AboutOne::Leak(gain),
            *turns,
        ),
        Job::Attack { file, gain, turns } => about_one(
            alloc,
            files,
            file,
            AboutOne::Attack(gain),
            *turns,
        ),
        Job::Reach {
            file,
            num,
            den,
            turns,
        } => about_one(
            alloc,
            files,
            file,
            AboutOne::Reach {
                num: *num,
                den: *den,
            },
            *turns,
        ),
        Job::Capacity { file, turns } => about_one(alloc, files, file, AboutOne::Capacity, *turns),
        Job::Quiet {
            file,
            from,
            to,
            turns,
        } => about_one(
            alloc,
            files,
            file,
            AboutOne::Quiet {
                from: *from,
                to: *to,
            },
            *turns,
        ),
        Job::Blame { file, turns } => about_one(alloc, files, file, AboutOne::Blame, *turns),
        Job::Make { n, turns } => made_hyper(alloc, *n, *turns),
        Job::Refine { a, b, json, turns } => about_two(
            alloc,
            files,
            a,
            b,
            AboutTwo::Refine { json: *json },
            *turns,
        ),
        Job::Check { cert, a, b, turns } => about_two(
            alloc,
            files,
            a,
            b,
            AboutTwo::Check(cert),
            *turns,
        ),
        Job::Cascade { a, b, turns } => about_two(
            alloc,
            files,
            a,
            b,
            AboutTwo::Compose(Composition::Cascade),
            *turns,
        ),
        Job::Parallel { a, b, turns } => about_two(
            alloc,
            files,
            a,
            b,
            AboutTwo::Compose(Composition::Parallel),
            *turns,
        ),
        Job::Choice {
            a,
            b,
            num,
            den,
            turns,
        } => {
            let way = Composition::Choice {
                num: *num,
                den: *den,
            };
            about_two(alloc, files, a, b, AboutTwo::Compose(way), *turns)
        }
        Job::Covers { a, b, turns } => covers(alloc, files, a, b, *turns),
        Job::Lines { file, gain, turns } => lines(alloc, files, file, gain, *turns),
    }
}
