// Calls that cases of whole runs can't show: words to jobs, runs over files that never fail, a hyper that is too long for a case, and a program
// that columns are pushed through.
mod jobs;
mod pushings;
mod runs;

use std::process::Abort;

// The words of a line, between single spaces; the empty line has none.
fn words_of(rt: &(impl Abort + AllocGlobal), line: &str) -> Vec<String> {
    let mut words = Vec::new(rt.alloc());
    if !line.is_empty() {
        for word in line.split(' ') {
            let word = String::from_str(rt.alloc(), word).expect(rt, "memory");
            words.push(word).expect(rt, "memory");
        }
    }
    words
}
