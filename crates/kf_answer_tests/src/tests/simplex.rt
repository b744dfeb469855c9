// Systems of equations, each with its solution, its multipliers or its refusal, worked out by hand.
use crate::tests::is_text;
use kf_frac::Frac;
use kf_simplex::{Equation, EquationList, NumberList, Outcome, SimplexError, System, cells, solve};
use std::alloc::AllocError;
use std::fmt::Write;
use std::process::Abort;

fn equation(rt: &(impl Abort + AllocGlobal), coefs: &[i64], rhs: i64) -> Equation {
    assert!(rt;
        rhs >= 0 && rhs <= 1 << 62 && coefs.iter().all(|z| z.unsigned_abs() <= 1 << 62),
        "a number out of range"
    );
    let coefs = coefs.to_vec(rt.alloc()).expect(rt, "memory");
    Equation {
        coefs: NumberList::new(coefs),
        rhs,
    }
}

// Each equation has the coefficients of its unknowns, and then its right side.
fn equations(rt: &(impl Abort + AllocGlobal), rows: &[&[i64]]) -> EquationList {
    let mut equations = Vec::new(rt.alloc());
    for row in rows {
        let (rhs, coefs) = row.split_last().expect(rt, "a right side");
        let equation = equation(rt, coefs, *rhs);
        equations.push(equation).expect(rt, "memory");
    }
    EquationList::new(equations)
}

fn system(rt: &impl Abort, unknowns: u32, rows: EquationList) -> System {
    assert!(rt;
        rows.as_slice()
            .iter()
            .all(|q| q.coefs.as_slice().len() == unknowns as usize),
        "a list of coefficients of another length"
    );
    System { unknowns, rows }
}

fn outcome(
    rt: &(impl Abort + AllocGlobal),
    system: &System,
    pivots: u32,
) -> Result<Outcome, SimplexError> {
    assert!(rt;
        system.rows.as_slice().len() <= 1000 && system.unknowns <= 1000,
        "too many cells"
    );
    solve(rt.alloc(), system, pivots)
}

fn write_fractions(text: &mut String, values: &[Frac]) -> Result<(), AllocError> {
    for x in values {
        write!(text, " {x}")?;
    }
    Ok(())
}

fn write_numbers(text: &mut String, numbers: &[i64]) -> Result<(), AllocError> {
    for y in numbers {
        write!(text, " {y}")?;
    }
    Ok(())
}

// The outcome as text, as `solution 1/2 0` or `wide 3`.
fn write_outcome(
    text: &mut String,
    outcome: &Result<Outcome, SimplexError>,
) -> Result<(), AllocError> {
    match outcome {
        Ok(Outcome::Solution(values)) => {
            text.push_str("solution")?;
            write_fractions(text, values.as_slice())
        }
        Ok(Outcome::Multipliers(numbers)) => {
            text.push_str("multipliers")?;
            write_numbers(text, numbers.as_slice())
        }
        Err(SimplexError::Wide { pivots }) => write!(text, "wide {pivots}"),
        Err(SimplexError::Budget) => text.push_str("budget"),
        Err(SimplexError::Mem) => text.push_str("want of memory"),
    }
}

fn text_of(rt: &(impl Abort + AllocGlobal), outcome: &Result<Outcome, SimplexError>) -> String {
    let mut text = String::new(rt.alloc());
    write_outcome(&mut text, outcome).expect(rt, "memory");
    text
}

// How many unknowns, the equations, how many pivots are allowed, and the outcome.
type Row = (u32, &'static [&'static [i64]], u32, &'static str);

fn has_outcome(rt: &(impl Abort + AllocGlobal), (unknowns, rows, pivots, want): &Row) {
    let system = system(rt, *unknowns, equations(rt, rows));
    let text = text_of(rt, &outcome(rt, &system, *pivots));
    is_text(rt, text.as_str(), want);
}

fn have_outcomes(rt: &(impl Abort + AllocGlobal), rows: &[Row]) {
    for row in rows {
        has_outcome(rt, row);
    }
}

const BIG: i64 = 1 << 62;

const SOLUTIONS: [Row; 5] = [
    (1, &[&[2, 1]], 1, "solution 1/2"),
    (1, &[&[1, BIG]], 1, "solution 4611686018427387904"),
    (1, &[&[0, 0]], 0, "solution 0"),
    (0, &[], 0, "solution"),
    (2, &[&[1, 1, 3], &[1, -1, 1]], 9, "solution 2 1"),
];

#[test]
fn finds_solutions(rt: HostRuntime) {
    have_outcomes(&rt, &SOLUTIONS);
}

const MULTIPLIERS: [Row; 2] = [
    // after a pivot with right side 0
    (2, &[&[1, 1, 0], &[1, -1, 1]], 1, "multipliers -1 1"),
    (0, &[&[1]], 0, "multipliers 1"),
];

#[test]
fn finds_multipliers(rt: HostRuntime) {
    have_outcomes(&rt, &MULTIPLIERS);
}

const REFUSALS: [Row; 2] = [
    // the sum of the right sides
    (1, &[&[1, BIG], &[1, BIG]], 5, "wide 0"),
    (2, &[&[1, 1, 0], &[1, -1, 1]], 0, "budget"),
];

#[test]
fn refuses_wide_numbers_and_spent_budgets(rt: HostRuntime) {
    have_outcomes(&rt, &REFUSALS);
}

const EIGHT: [&[i64]; 8] = [
    &[1, 0, 0, 0, 1],
    &[0, 1, 0, 0, 0],
    &[0, 0, 1, 0, 0],
    &[0, 0, 0, 1, 1],
    &[0, 0, 1, 0, 1],
    &[0, 0, 0, 1, 0],
    &[1, 1, 0, 0, 1],
    &[0, 0, 1, 1, 1],
];

const DECISIONS: [Row; 3] = [
    (4, &EIGHT, 3, "multipliers 1 1 -2 1 1 -2 -1 1"),
    (4, &EIGHT, 2, "budget"),
    (4, &EIGHT, 495, "multipliers 1 1 -2 1 1 -2 -1 1"),
];

#[test]
fn decides_four_unknowns_in_eight_equations(rt: HostRuntime) {
    have_outcomes(&rt, &DECISIONS);
}

#[test]
fn counts_cells(rt: HostRuntime) {
    assert_eq!(rt; (cells(4, 8), cells(0, 0)), (117, 1));
}
