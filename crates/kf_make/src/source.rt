ghost use Rattle.std.specs.Prelude.{◌≡◌, ◌≤◌, IfOk};
ghost use Rattle.kf_make.specs.Making.{make_source as source_of};

use kf_value::Mem;
use std::alloc::Global;

/// The text of `count` noisy observations of the parity of one of 64 values, which are alike.
///
/// Each observation is right three times in four. A line declares the value, and one line follows for each observation.
pub fn make_source(alloc: Global, count: u32) -> Result<Vec<u8>, Mem>
    ensures { IfOk result (λ text. text.items ≡ source_of count) }
{
    let mut text = Vec::new(alloc);
    text.extend_from_slice(b"var x : 0..63 := uniform 0..63;\n")?;
    for done in 0..count {
        text.extend_from_slice(b"observe choose { x mod 2 : 3, 1 - x mod 2 : 1 };\n")?;
    }
    Ok(text)
}
