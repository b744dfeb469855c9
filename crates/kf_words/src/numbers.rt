//! The numbers that words denote.
ghost use Rattle.std.specs.Prelude.{◌≡◌, ◌≤◌, ◌<◌, IfSome, length};
ghost use Rattle.std.specs.Char.{is_ascii_digit};
ghost use Rattle.std.specs.List.{list_all};
ghost use Rattle.kf_words.specs.Numbers.{is_numeral as is_numeral_word, number_of, numeral_of, pair_of, ratio_of, probability_of, threshold_of, block_of};
ghost use Rattle.kf_words.specs.Task.{observations_of};

// Whether all bytes are decimal digits.
fn are_digits(word: &[u8]) -> bool
    ensures { result ≡ list_all is_ascii_digit word.now }
{
    for byte in word {
        if !byte.is_ascii_digit() {
            return false;
        }
    }
    true
}

// Whether a word is one to `most` decimal digits.
fn is_numeral(most: usize, word: &str) -> bool
    ensures { result ≡ is_numeral_word most word.now }
{
    1 <= word.len() && word.len() <= most && are_digits(word.as_bytes())
}

/// A number from 1 to 65,535, of at most five digits.
pub(crate) fn parse_number(word: &str) -> Option<u32>
    ensures value { result ≡ number_of word.now }
    ensures range { IfSome result (λ number. (1 ≤ number) × (number ≤ 65535)) }
{
    if !is_numeral(5, word) {
        return None;
    }
    match word.parse::<u16>() {
        Ok(number) => {
            if number >= 1 {
                Some(u32::from(number))
            } else {
                None
            }
        }
        Err(_) => None,
    }
}

/// How many observations a made text may have: with more its scale would pass 2^127 - 1.
const MOST_OBSERVATIONS: u32 = 60;

/// A number of observations, from 1 to 60.
pub(crate) fn parse_observations(word: &str) -> Option<u32>
    ensures value { result ≡ observations_of word.now }
    ensures range { IfSome result (λ n. n ≤ 60) }
{
    let Some(number) = parse_number(word) else {
        return None;
    };
    if number <= MOST_OBSERVATIONS {
        Some(number)
    } else {
        None
    }
}

// A number of one to `most` digits.
fn parse_digits(most: usize, word: &str) -> Option<u32>
    requires { most ≤ 9 }
    ensures { result ≡ numeral_of most word.now }
{
    if !is_numeral(most, word) {
        return None;
    }
    word.parse::<u32>().ok()
}

// Two numbers of one to `most` digits, with a mark between.
fn parse_pair(most: usize, mark: &str, word: &str) -> Option<(u32, u32)>
    requires short { most ≤ 9 }
    requires some { 0 < length mark.now }
    ensures { result ≡ pair_of most mark.now word.now }
{
    let (first, second) = word.split_once(mark)?;
    let first = parse_digits(most, first)?;
    let second = parse_digits(most, second)?;
    Some((first, second))
}

// Two numbers of at most nine digits, with a slash between.
fn parse_ratio(word: &str) -> Option<(u32, u32)>
    ensures { result ≡ ratio_of word.now }
{
    parse_pair(9, "/", word)
}

/// A block of statements: the first of them, counted from 0, and the one after the last.
pub(crate) fn parse_block(word: &str) -> Option<(u32, u32)>
    ensures value { result ≡ block_of word.now }
    ensures range { IfSome result (λ block. block.0 < block.1) }
{
    let (from, to) = parse_pair(5, "..", word)?;
    if from < to { Some((from, to)) } else { None }
}

/// A probability above 0 and below 1, as its numerator and its denominator.
pub(crate) fn parse_probability(word: &str) -> Option<(u32, u32)>
    ensures value { result ≡ probability_of word.now }
    ensures range { IfSome result (λ p. (1 ≤ p.0) × (p.0 < p.1)) }
{
    let (num, den) = parse_ratio(word)?;
    if 1 <= num && num < den {
        Some((num, den))
    } else {
        None
    }
}

/// A probability above 0 and at most 1, as its numerator and its denominator.
pub(crate) fn parse_threshold(word: &str) -> Option<(u32, u32)>
    ensures value { result ≡ threshold_of word.now }
    ensures range { IfSome result (λ p. (1 ≤ p.0) × (p.0 ≤ p.1)) }
{
    let (num, den) = parse_ratio(word)?;
    if 1 <= num && num <= den {
        Some((num, den))
    } else {
        None
    }
}
