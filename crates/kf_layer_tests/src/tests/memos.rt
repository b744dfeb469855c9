// What a distribution chooses in each store, and at which place that is kept; all worked out by hand.
ghost use Rattle.kf_value.specs.Kinds.{KindTree};
ghost use Rattle.kf_core.specs.Checked.{DistKinded, IsChecked};
ghost use Rattle.kf_core.specs.Views.{dx_tree, program_tree};
ghost use Rattle.kf_eval.specs.Kinds.{shape_kinds};
ghost use Rattle.kf_eval.specs.Memos.{IsMemoOf};

use crate::tests::choices::{write_choice, write_str};
use crate::tests::programs::{first_observed, is_store};
use crate::tests::*;
use itoa::Buffer;
use kf_core::Dx;
use kf_eval::{Choice, Memo};
use kf_value::{Mem, Shape};
use std::alloc::Global;

// What is chosen, and its place.
fn write_line(
    alloc: Global,
    lines: &mut Vec<u8>,
    place: usize,
    choice: &Choice,
) -> Result<(), Mem> {
    write_choice(alloc, lines, choice)?;
    write_str(lines, " at ")?;
    write_str(lines, Buffer::new().format(place))?;
    write_str(lines, "\n")
}

// What is chosen in a store, and the place where it is kept.
fn write_kept(
    rt: &(impl Abort + AllocGlobal),
    lines: &mut Vec<u8>,
    memo: &mut Memo,
    shape: &Shape,
    dist: &Dx,
    store: u64,
)
    requires kinded { (k : KindTree) × DistKinded (shape_kinds shape.now) (dx_tree dist.now) k }
    requires memo { IsMemoOf shape.now (dx_tree dist.now) memo.old }
    ensures { IsMemoOf shape.now (dx_tree dist.now) memo.new }
{
    assert!(rt; is_store(shape, store), "there is no such store");
    let alloc = rt.alloc();
    let place = memo.find(alloc, shape, dist, store).expect(rt, "a place");
    write_line(alloc, lines, place, memo.at(place)).expect(rt, "memory");
}

// The same of the first stores, one after the other.
fn lines_of(
    rt: &(impl Abort + AllocGlobal),
    shape: &Shape,
    dist: &Dx,
    stores: u64,
    asked: usize,
) -> Vec<u8>
    requires { (k : KindTree) × DistKinded (shape_kinds shape.now) (dx_tree dist.now) k }
{
    let mut memo = Memo::new(rt.alloc(), shape, dist, asked).expect(rt, "memory");
    let mut lines = Vec::new(rt.alloc());
    for store in 0..stores {
        write_kept(rt, &mut lines, &mut memo, shape, dist, store);
    }
    lines
}

// The same of what the program observes first.
fn kept_text(
    rt: &(impl Abort + AllocGlobal),
    program: &Program,
    stores: u64,
    asked: usize,
) -> Vec<u8>
    requires { IsChecked (program_tree program.now) }
{
    let observed = first_observed(program).expect(rt, "a distribution");
    lines_of(rt, &program.shape, observed, stores, asked)
}

// The text of a program, its number of stores, how many the memo is told will be asked for, and the lines.
const ROWS: [(&str, u64, usize, &str); 4] = [
    (
        "var x : 0..2 := 0;\nvar y : bool := false;\nobserve x + 1;\n",
        6,
        6,
        "1 1, 1 at 0\n1 1, 1 at 0\n2 1, 1 at 1\n2 1, 1 at 1\n3 1, 1 at 2\n3 1, 1 at 2\n",
    ),
    (
        "var x : 0..2 := 0;\nvar y : bool := false;\nobserve x + 1;\n",
        6,
        5,
        "1 1, 1 at 0\n1 1, 1 at 0\n2 1, 1 at 0\n2 1, 1 at 0\n3 1, 1 at 0\n3 1, 1 at 0\n",
    ),
    (
        "var x : 0..1 := 0;\nvar y : 0..1 := 0;\nvar z : 0..1 := 0;\nobserve choose { x : 1, 5 : z };\n",
        8,
        8,
        "0 1, 1 at 0\n0 1, 5 1, 2 at 1\n0 1, 1 at 0\n0 1, 5 1, 2 at 1\n1 1, 1 at 2\n1 1, 5 1, 2 at 3\n1 1, 1 at 2\n1 1, 5 1, 2 at 3\n",
    ),
    (
        "var x : 0..1 := 0;\nobserve flip 1/3;\n",
        2,
        2,
        "false 2, true 1, 3 at 0\nfalse 2, true 1, 3 at 0\n",
    ),
];

#[test]
fn choices_are_kept(rt: HostRuntime) {
    for (text, stores, asked, want) in &ROWS {
        let lines = kept_text(&rt, &program_of(&rt, text), *stores, *asked);
        assert!(rt; lines.as_slice() == want.as_bytes(), "{text}");
    }
}
