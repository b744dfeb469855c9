use crate::gain_words::GainWord;
use kf_value::Name;

/// What the words of a command line ask for.
///
/// `turns` bounds how often a loop may turn, for each entry that reaches it; it is from 1 to 65,535.
#[derive(Drop)]
pub enum Job {
    /// The hyper-distribution of the program in `file`.
    Hyper {
        file: Name,
        turns: u32,
    },
    /// The same program's traces.
    Traces {
        file: Name,
        turns: u32,
    },
    /// The channel from its target's values to its traces.
    Channel {
        file: Name,
        turns: u32,
    },
    /// How many posteriors there are after each of its statements.
    Trail {
        file: Name,
        turns: u32,
    },
    /// Its leakage under a gain: how much more the best action is worth after what is shown.
    Leak {
        file: Name,
        gain: GainWord,
        turns: u32,
    },
    /// The hyper-distribution of `n` noisy observations of the parity of one of 64 values, summed up; `n` is from 1 to 60.
    Make {
        n: u32,
        turns: u32,
    },
    /// Whether the program in `b` leaks no more than the one in `a`, as a certificate where `json` is set.
    Refine {
        a: Name,
        b: Name,
        json: bool,
        turns: u32,
    },
    /// Whether the certificate in `cert` proves its verdict on them.
    Check {
        cert: Name,
        a: Name,
        b: Name,
        turns: u32,
    },
    /// The Bayes capacity of the channel of the program in `file`.
    Capacity {
        file: Name,
        turns: u32,
    },
    /// The capacities of the channels of two programs, and of the first followed by the second.
    Cascade {
        a: Name,
        b: Name,
        turns: u32,
    },
    /// The capacities of both, and of both side by side.
    Parallel {
        a: Name,
        b: Name,
        turns: u32,
    },
    /// The capacities of both, and of the first with probability `num / den`, which is above 0 and below 1, else the second.
    Choice {
        a: Name,
        b: Name,
        num: u32,
        den: u32,
        turns: u32,
    },
    /// The best actions at each inner under a gain.
    Attack {
        file: Name,
        gain: GainWord,
        turns: u32,
    },
    /// The least number of tries with which the posterior vulnerability is at least `num / den`, which is above 0 and at most 1.
    Reach {
        file: Name,
        num: u32,
        den: u32,
        turns: u32,
    },
    /// Whether the program in `b` leaks no more than the one in `a`, whatever the prior on their initial stores.
    Covers {
        a: Name,
        b: Name,
        turns: u32,
    },
    /// The hyper-distribution where the outermost statements from the one at `from` on, counted from 0, up to but not with the one at `to`,
    /// which is above it, show nothing.
    Quiet {
        file: Name,
        from: u32,
        to: u32,
        turns: u32,
    },
    /// How much is seen of a program, and how much where each outermost statement in turn shows nothing.
    Blame {
        file: Name,
        turns: u32,
    },
    /// How much is seen of a program under a gain, and how much where each statement that may show something, wherever it stands, shows
    /// nothing.
    Lines {
        file: Name,
        gain: GainWord,
        turns: u32,
    },
}
