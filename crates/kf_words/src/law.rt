ghost use Rattle.kf_words.specs.Laws.{TasksInRange};

/// A law of the definitions: whatever the words, the numbers of their task are in range. It does nothing when it runs.
pub fn tasks_in_range()
    ensures { TasksInRange }
{}
