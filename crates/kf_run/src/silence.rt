//! One statement that is silent, by where it stands: a path within the statement or block at hand, or none.

ghost use Rattle.std.specs.Prelude.{◌≡◌, [], ◌∷◌};
ghost use Rattle.kf_silent.specs.Silent.{Path};
ghost use Rattle.kf_silent.specs.Paths.{only};
ghost use Rattle.kf_run.specs.Silence.{silent_at};

/// The rest of a path that begins with this number; none where it doesn't.
fn rest_after<'a>(path: &'a [usize], number: usize) -> Option<&'a [usize]>
    ensures { (other : Path) → silent_at result other ≡ only path.now (number ∷ other) }
{
    if path.is_empty() {
        return None;
    }
    if path[0] == number {
        Some(&path[1..])
    } else {
        None
    }
}

/// Whether the statement at hand is silent itself.
#[tactic(auto, using(crate::proofs::Silencing::itself_at))]
pub fn is_itself(silent: Option<&[usize]>) -> bool
    ensures { result ≡ silent_at silent.entry [] }
{
    match silent {
        Some(path) => path.is_empty(),
        None => false,
    }
}

/// Where the silent statement stands within the statement or block with this number; none where it doesn't stand there.
pub fn within<'a>(silent: Option<&'a [usize]>, number: usize) -> Option<&'a [usize]>
    ensures { (other : Path) → silent_at result other ≡ silent_at silent.entry (number ∷ other) }
{
    match silent {
        Some(path) => rest_after(path, number),
        None => None,
    }
}
