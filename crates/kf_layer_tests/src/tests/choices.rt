// Distributions, each with what it chooses, or with its fault; all worked out by hand.
ghost use Rattle.kf_core.specs.Views.{program_tree};
ghost use Rattle.kf_core.specs.Checked.{IsChecked};

use crate::tests::programs::{first_observed, has_a_store, observing};
use crate::tests::*;
use itoa::Buffer;
use kf_eval::{Choice, ChoiceError, Weighted, choices, is_always_sure};
use kf_value::{Mem, print_value};
use std::alloc::{AllocError, Global};

pub(super) fn write_str(text: &mut Vec<u8>, name: &str) -> Result<(), Mem> {
    text.extend_from_slice(name.as_bytes())?;
    Ok(())
}

fn write_weight(text: &mut Vec<u8>, weight: u128) -> Result<(), AllocError> {
    text.extend_from_slice(Buffer::new().format(weight).as_bytes())
}

fn write_weighted(alloc: Global, text: &mut Vec<u8>, item: &Weighted) -> Result<(), Mem> {
    print_value(alloc, &item.value, text)?;
    text.push(b' ')?;
    write_weight(text, item.weight)?;
    write_str(text, ", ")
}

// Each value and its weight, then the sum of the weights.
pub(super) fn write_choice(alloc: Global, text: &mut Vec<u8>, choice: &Choice) -> Result<(), Mem> {
    for item in choice.items.as_slice() {
        write_weighted(alloc, text, item)?;
    }
    write_weight(text, choice.total)?;
    Ok(())
}

fn fault_name(fault: ChoiceError) -> &'static str {
    match fault {
        ChoiceError::DivZero => "DivZero",
        ChoiceError::ArithWide => "ArithWide",
        ChoiceError::NoWeight => "NoWeight",
        ChoiceError::NegativeWeight => "NegativeWeight",
        ChoiceError::RangeLong => "RangeLong",
        ChoiceError::Mem => "want of memory",
    }
}

// What is chosen, or the fault's name.
fn text_of(rt: &(impl Abort + AllocGlobal), choice: &Result<Choice, ChoiceError>) -> Vec<u8> {
    let mut text = Vec::new(rt.alloc());
    let written = match choice {
        Ok(choice) => write_choice(rt.alloc(), &mut text, choice),
        Err(fault) => write_str(&mut text, fault_name(*fault)),
    };
    written.expect(rt, "memory");
    text
}

// What is chosen by the distribution that the program observes where `x` is 0, or its fault.
fn choice_text(rt: &(impl Abort + AllocGlobal), program: &Program) -> Vec<u8>
    requires { IsChecked (program_tree program.now) }
{
    assert!(rt; has_a_store(&program.shape), "there is no store");
    let observed = first_observed(program).expect(rt, "a distribution");
    text_of(rt, &choices(rt.alloc(), observed, &program.shape, 0))
}

const ROWS: [(&str, &str); 12] = [
    ("2", "2 1, 1"),
    ("1 div x", "DivZero"),
    ("uniform {3, 1, 3}", "1 1, 3 1, 2"),
    ("uniform 2..4", "2 1, 3 1, 4 1, 3"),
    ("uniform 3..2", "NoWeight"),
    ("uniform 0..65536", "RangeLong"),
    ("flip 6/9", "false 1, true 2, 3"),
    ("flip 0/5", "false 1, 1"),
    (
        "choose { 5 : 6, 3 : 9, 4 : 0, 5 : 6, 3 : 3 }",
        "3 1, 5 1, 2",
    ),
    (
        "choose { {1} : 2, {0, 1} : 2, {2} less {2} : 4 }",
        "{} 2, {1} 1, {0, 1} 1, 4",
    ),
    ("choose { 1 div 0 : 0, 2 : 7 }", "2 1, 1"),
    ("choose { 1 : 1, 2 : -1 }", "NegativeWeight"),
];

#[test]
fn choices_of_distributions(rt: HostRuntime) {
    for (dist, want) in &ROWS {
        let text = choice_text(&rt, &observing(&rt, dist));
        assert!(rt; text.as_slice() == want.as_bytes(), "{dist}");
    }
}

// Whether the form of the distribution that the program observes shows that it chooses one value.
fn observes_one_value(rt: &impl Abort, program: &Program) -> bool
    requires { IsChecked (program_tree program.now) }
{
    is_always_sure(first_observed(program).expect(rt, "a distribution"))
}

const FORMS: [(&str, bool); 8] = [
    ("x", true),
    ("(x, true) = (x mod 3, x < 5)", true),
    ("x in {0, 1} union {x}", true),
    ("cond(x = 0, {x}, {1})", true),
    ("x + 1", false),
    ("1 mod x", false),
    ("1 mod 0", false),
    ("flip 1/2", false),
];

#[test]
fn distributions_of_one_value(rt: HostRuntime) {
    for (dist, want) in &FORMS {
        let sure = observes_one_value(&rt, &observing(&rt, dist));
        assert!(rt; sure == *want, "{dist}");
    }
}
