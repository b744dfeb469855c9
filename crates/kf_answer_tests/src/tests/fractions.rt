// Fractions, divisors and products, worked out by hand.
use crate::tests::{is_same, is_text};
use kf_frac::{Frac, Product, Wide, add, cmp, gcd, lcm, make, mul, quotient, share};
use std::alloc::AllocError;
use std::cmp::Ordering;
use std::process::Abort;

const L: i128 = i128::MAX;

const LIMIT: u128 = L as u128;

// A numerator and a denominator.
type Parts = (i128, u128);

fn parts(f: Frac) -> Parts {
    (f.num(), f.den())
}

// The parts of a fraction that isn't too wide.
fn narrow_parts(f: Result<Frac, Wide>) -> Option<Parts> {
    match f {
        Ok(f) => Some(parts(f)),
        Err(Wide) => None,
    }
}

fn made(rt: &impl Abort, num: i128, den: u128) -> Result<Frac, Wide> {
    assert!(rt; den > 0, "{num} over no denominator");
    make(num, den)
}

// A fraction that isn't too wide.
fn fraction(rt: &impl Abort, (num, den): Parts) -> Frac {
    made(rt, num, den).expect(rt, "a narrow fraction")
}

// A numerator and a denominator, and both in lowest terms, unless they are too wide.
const MADE: [(i128, u128, Option<Parts>); 7] = [
    (6, 4, Some((3, 2))),
    (-6, 4, Some((-3, 2))),
    (0, 5, Some((0, 1))),
    (i128::MIN, 2, Some((-(1 << 126), 1))),
    (-L, u128::MAX - 1, Some((-1, 2))),
    // the numerator passes the limit
    (i128::MIN, 1, None),
    // the denominator passes the limit
    (1, 1 << 127, None),
];

#[test]
fn makes_lowest_terms(rt: HostRuntime) {
    for (num, den, want) in &MADE {
        let got = narrow_parts(made(&rt, *num, *den));
        is_same(&rt, &(num, den), &got, want);
    }
}

const TEXTS: [(Parts, &str); 4] = [
    ((14, 2), "7"),
    ((-3, 4), "-3/4"),
    ((0, 9), "0"),
    ((-L, 2), "-170141183460469231731687303715884105727/2"),
];

#[test]
fn writes_a_denominator_unless_it_is_one(rt: HostRuntime) -> Result<(), AllocError> {
    for (given, want) in &TEXTS {
        let text = fraction(&rt, *given).to_string(rt.alloc())?;
        is_text(&rt, text.as_str(), want);
    }
    Ok(())
}

// Two fractions, and what a call makes of them, unless it is too wide.
type Row = (Parts, Parts, Option<Parts>);

const SUMS: [Row; 5] = [
    ((1, 6), (1, 3), Some((1, 2))),
    ((3, 4), (-3, 4), Some((0, 1))),
    // both numerators over 6 pass the limit
    ((L, 3), (-L, 2), Some((-L, 6))),
    ((L, 3), (L, 2), None),
    // the denominator passes the limit
    ((1, 1 << 126), (1, 3), None),
];

#[test]
fn adds_exactly(rt: HostRuntime) {
    for (a, b, want) in &SUMS {
        let got = narrow_parts(add(fraction(&rt, *a), fraction(&rt, *b)));
        is_same(&rt, &(a, b), &got, want);
    }
}

const PRODUCTS: [Row; 5] = [
    ((-2, 3), (3, 4), Some((-1, 2))),
    ((L, 3), (3, LIMIT), Some((1, 1))),
    ((0, 1), (-5, 7), Some((0, 1))),
    ((L, 1), (2, 1), None),
    ((1, LIMIT), (1, 2), None),
];

#[test]
fn multiplies_exactly(rt: HostRuntime) {
    for (a, b, want) in &PRODUCTS {
        let got = narrow_parts(mul(fraction(&rt, *a), fraction(&rt, *b)));
        is_same(&rt, &(a, b), &got, want);
    }
}

const NEAR: Parts = (L - 1, LIMIT);

const NEARER: Parts = (L - 2, LIMIT - 1);

const ORDERS: [(Parts, Parts, Ordering); 5] = [
    // 1 - 1/L against 1 - 1/(L - 1)
    (NEAR, NEARER, Ordering::Greater),
    (NEARER, NEAR, Ordering::Less),
    (NEAR, NEAR, Ordering::Equal),
    ((-L, 1), (L, 1), Ordering::Less),
    ((-1, 3), (-1, 2), Ordering::Greater),
];

#[test]
fn compares_exactly(rt: HostRuntime) {
    for (a, b, want) in &ORDERS {
        let got = cmp(fraction(&rt, *a), fraction(&rt, *b));
        is_same(&rt, &(a, b), &got, want);
    }
}

// Two numbers and their greatest common divisor.
const DIVISORS: [(u128, u128, u128); 4] = [
    (12, 18, 6),
    (0, 5, 5),
    (0, 0, 0),
    // over 64 bits
    (3 << 100, 1 << 101, 1 << 100),
];

// Two numbers and their least common multiple, unless it is too wide.
const MULTIPLES: [(u128, u128, Option<u128>); 3] = [
    (4, 6, Some(12)),
    (1 << 126, 2, Some(1 << 126)),
    (1 << 126, 3, None),
];

fn multiple(rt: &impl Abort, a: u128, b: u128) -> Option<u128> {
    assert!(rt; a > 0 && b > 0, "no multiple of {a} and {b}");
    lcm(a, b)
}

#[test]
fn finds_divisors(rt: HostRuntime) {
    for (a, b, want) in &DIVISORS {
        is_same(&rt, &(a, b), &gcd(*a, *b), want);
    }
}

#[test]
fn finds_multiples(rt: HostRuntime) {
    for (a, b, want) in &MULTIPLES {
        is_same(&rt, &(a, b), &multiple(&rt, *a, *b), want);
    }
}

// Two numbers and their quotient.
const QUOTIENTS: [(u128, u128, u128); 4] = [
    (17, 5, 3),
    (5, 17, 0),
    // over 64 bits
    (3 << 100, 1 << 100, 3),
    (1 << 126, 1, 1 << 126),
];

fn divided(rt: &impl Abort, a: u128, b: u128) -> u128 {
    assert!(rt; b > 0, "{a} divided by 0");
    quotient(a, b)
}

#[test]
fn divides_in_each_width(rt: HostRuntime) {
    for (a, b, want) in &QUOTIENTS {
        is_same(&rt, &(a, b), &divided(&rt, *a, *b), want);
    }
}

// Two squares of the limit, beside a product.
fn two_squares_beside(a: u128, b: u128) -> Option<Ordering> {
    let square = Product::new(LIMIT, LIMIT);
    let two = square.plus(square)?;
    Some(two.compare(Product::new(a, b)))
}

const BESIDE_SQUARES: [(u128, u128, Ordering); 3] = [
    (LIMIT, 2 * LIMIT, Ordering::Equal),
    (LIMIT, 2 * LIMIT + 1, Ordering::Less),
    (2 * LIMIT, LIMIT - 1, Ordering::Greater),
];

#[test]
fn compares_sums_of_products(rt: HostRuntime) {
    for (a, b, want) in &BESIDE_SQUARES {
        let got = two_squares_beside(*a, *b);
        is_same(&rt, &(a, b), &got, &Some(*want));
    }
}

// 2^256 - 1.
fn most() -> Option<Product> {
    Product::new(u128::MAX, u128::MAX).plus(Product::new(u128::MAX, 2))
}

fn one_more() -> Option<Product> {
    most()?.plus(Product::new(1, 1))
}

#[test]
fn sums_of_products_fit_256_bits(rt: HostRuntime) {
    assert!(rt; most().is_some() && one_more().is_none());
}

fn shared(rt: &impl Abort, part: u128, whole: u128) -> Parts {
    assert!(rt; part <= whole && whole > 0 && whole <= LIMIT, "no share");
    parts(share(part, whole))
}

// A part, a whole, and the part's share of it.
const SHARES: [(u128, u128, Parts); 3] = [(6, 8, (3, 4)), (0, 8, (0, 1)), (LIMIT, LIMIT, (1, 1))];

#[test]
fn shares_a_whole(rt: HostRuntime) {
    for (part, whole, want) in &SHARES {
        is_same(&rt, &(part, whole), &shared(&rt, *part, *whole), want);
    }
}
