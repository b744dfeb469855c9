ghost use Rattle.kf_meaning.specs.Tasks.{EachTaskCanBeAsked, WordsAskForTheirTask, DifferentWords};

use kf_words::tasks_in_range;

/// Laws of the definitions: each task that words can ask for is asked for by words of its own, so that different tasks have different
/// words. It does nothing when it runs.
pub fn task_words()
    ensures read { WordsAskForTheirTask }
    ensures apart { DifferentWords }
    ensures each { EachTaskCanBeAsked }
{
    tasks_in_range();
}
