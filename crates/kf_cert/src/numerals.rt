//! Numbers as certificates write them.

ghost use Rattle.std.specs.Prelude.{◌≡◌, ◌≤◌, ◌&&◌, nat_le, int_le, pos, true, is_some, option_map, IfSome, unsigned_abs};
ghost use Rattle.std.specs.List.{list_all};
ghost use Rattle.std.specs.Char.{is_ascii_digit};
ghost use Rattle.std.specs.Str.Parse.{digits_value};
ghost use Rattle.kf_cert.specs.Numbers as number;
ghost use Rattle.kf_cert.specs.Forms as single;
ghost use Rattle.kf_cert.specs.Certificates.{is_narrow};
ghost use Rattle.kf_frac.specs.Fractions.{limit, reduced_num, reduced_den};
ghost use Rattle.kf_frac.specs.Parts.{signed};
ghost use Rattle.kf_refine.specs.Views.{fraction_of};

use kf_frac::{Frac, make};

/// The greatest absolute value of a number that is read.
const LIMIT: u128 = i128::MAX as u128;

/// Whether a `-` stands first.
pub(crate) fn is_negative(text: &str) -> bool
    ensures { result ≡ number.is_negative text.now }
{
    text.starts_with('-')
}

/// What stands behind the `-`, or the whole text.
fn past_sign(text: &str) -> &str
    ensures { result.now ≡ number.past_sign text.now }
{
    match text.strip_prefix('-') {
        Some(rest) => rest,
        None => text,
    }
}

/// What stands before the first `/`, or the whole text.
fn before_bar(text: &str) -> &str
    ensures { result.now ≡ number.before_bar text.now }
{
    match text.split_once('/') {
        Some((before, _)) => before,
        None => text,
    }
}

/// What stands behind the first `/`.
fn behind_bar(text: &str) -> Option<&str>
    ensures { option_map (λ t. t.now) result ≡ number.behind_bar text.now }
{
    match text.split_once('/') {
        Some((_, behind)) => Some(behind),
        None => None,
    }
}

/// Whether the bytes are all decimal digits.
fn are_digits(bytes: &[u8]) -> bool
    ensures { result ≡ list_all is_ascii_digit bytes.now }
{
    bytes.iter().all(|b| b.is_ascii_digit())
}

/// Whether the text is decimal digits, without a 0 before others.
fn is_numeral(text: &str) -> bool
    ensures { result ≡ number.is_numeral text.now }
{
    1 <= text.len() && are_digits(text.as_bytes()) && (text.len() == 1 || !text.starts_with('0'))
}

/// Whether the text is the digits of a denominator, which isn't 0.
fn is_denominator(text: &str) -> bool
    ensures { result ≡ single.is_denominator text.now }
{
    is_numeral(text) && text != "0"
}

/// Whether the text is a whole number: digits, maybe behind a `-`.
pub(crate) fn is_whole_text(text: &str) -> bool
    ensures { result ≡ single.is_whole_text text.now }
{
    is_numeral(past_sign(text))
}

/// Whether the whole number that the text is is at least 1.
pub(crate) fn is_positive_text(text: &str) -> bool
    requires { single.is_whole_text text.now ≡ true }
    ensures { result ≡ int_le (pos 1) (number.whole_said text.now) }
{
    !is_negative(text) && text != "0"
}

/// Whether the text is a fraction: a whole number, maybe before a `/` and a denominator.
pub(crate) fn is_fraction_text(text: &str) -> bool
    ensures { result ≡ number.is_fraction_text text.now }
{
    is_numeral(before_bar(past_sign(text)))
        && match behind_bar(text) {
            Some(digits) => is_denominator(digits),
            None => true,
        }
}

/// The number of these digits; `None` where it passes 2^127 - 1.
fn size_said(digits: &str) -> Option<u128>
    requires { number.is_numeral digits.now ≡ true }
    ensures some { is_some result ≡ nat_le (digits_value 10 digits.now) limit }
    ensures value { IfSome result (λ n. n ≡ digits_value 10 digits.now) }
{
    match digits.parse::<u128>() {
        Ok(size) if size <= LIMIT => Some(size),
        _ => None,
    }
}

/// A number of this absolute value.
fn with_sign(negative: bool, size: u128) -> i128
    requires { size ≤ limit }
    ensures { result ≡ signed negative size }
{
    if negative {
        -(size as i128)
    } else {
        size as i128
    }
}

/// The whole number that the text is; `None` where it is none, or passes 2^127 - 1 in absolute value.
pub(crate) fn whole_said(text: &str) -> Option<i128>
    ensures some { is_some result ≡ (single.is_whole_text text.now && is_narrow (number.whole_said text.now)) }
    ensures value { IfSome result (λ z. z ≡ number.whole_said text.now) }
{
    if !is_whole_text(text) {
        return None;
    }
    let size = size_said(past_sign(text))?;
    Some(with_sign(is_negative(text), size))
}

/// The numerator of a fraction as it is written; `None` where it passes 2^127 - 1 in absolute value.
fn numerator_said(text: &str) -> Option<i128>
    requires { number.is_fraction_text text.now ≡ true }
    ensures some { is_some result ≡ is_narrow (number.numerator_said text.now) }
    ensures value { IfSome result (λ z. z ≡ number.numerator_said text.now) }
{
    let size = size_said(before_bar(past_sign(text)))?;
    Some(with_sign(is_negative(text), size))
}

/// The denominator of a fraction as it is written; `None` where it passes 2^127 - 1.
fn denominator_said(text: &str) -> Option<u128>
    requires { number.is_fraction_text text.now ≡ true }
    ensures some { is_some result ≡ nat_le (number.denominator_said text.now) limit }
    ensures value { IfSome result (λ n. n ≡ number.denominator_said text.now) }
{
    match behind_bar(text) {
        Some(digits) => size_said(digits),
        None => Some(1),
    }
}

/// The fraction of two parts that aren't too wide.
fn lowest(num: i128, den: u128) -> Frac
    requires some { 1 ≤ den }
    requires num { unsigned_abs num ≤ limit }
    requires den { den ≤ limit }
    ensures { fraction_of result ≡ record { num = reduced_num num den; den = reduced_den num den } }
{
    make(num, den).unwrap()
}

/// The fraction that the text is; `None` where it is none, or a part of it, as it is written, passes 2^127 - 1 in absolute value.
pub(crate) fn fraction_said(text: &str) -> Option<Frac>
    ensures some { is_some result ≡ (number.is_fraction_text text.now
        && (is_narrow (number.numerator_said text.now) && nat_le (number.denominator_said text.now) limit)) }
    ensures value { IfSome result (λ f. fraction_of f ≡ number.fraction_said text.now) }
{
    if !is_fraction_text(text) {
        return None;
    }
    let num = numerator_said(text)?;
    let den = denominator_said(text)?;
    Some(lowest(num, den))
}
