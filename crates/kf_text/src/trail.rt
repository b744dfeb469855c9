ghost use Rattle.std.specs.Prelude.{◌≡◌, ◌++◌, IfOk, OnOk};
ghost use Rattle.kf_text.specs.Parts.{count_line};
ghost use Rattle.kf_text.specs.Texts.{trail_text as text_of_trail};

use crate::items::{print_bytes, print_count, print_number};
use kf_hyper::CountList;
use kf_value::Mem;
use std::alloc::Global;

// Appends the line of a place, counted from 0, and how many beliefs stand there.
fn print_after(place: usize, count: u64, out: &mut Vec<u8>) -> Result<(), Mem>
    ensures { OnOk result (out.new.items ≡ out.old.items ++ count_line (place, count)) }
{
    print_bytes(b"after ", out)?;
    print_number(place, out)?;
    print_count(b" inners ", count, out)
}

/// The printed trail: each place with how many beliefs stand there, a line for each, numbered from 0.
pub fn trail_text(alloc: Global, t: &CountList) -> Result<Vec<u8>, Mem>
    ensures { IfOk result (λ text. text.items ≡ text_of_trail t.now) }
{
    let counts = t.as_slice();
    let mut out = Vec::new(alloc);
    for i in 0..counts.len() {
        print_after(i, counts[i], &mut out)?;
    }
    Ok(out)
}
