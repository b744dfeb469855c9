ghost use Rattle.std.specs.Prelude.{◌≡◌, ◌<◌, ◌++◌, ◌∷◌, [], ℕ, List, IfSome, OnOk};

use crate::errors::CaseError;
use std::alloc::Global;

/// How often a content line may repeat its bytes.
const MOST_TIMES: u64 = 2_000_000;

// The value of a hexadecimal digit in lower case.
fn digit(byte: u8) -> Option<u8>
    ensures { IfSome result (λ value. value < 16) }
{
    match byte {
        b'0'..=b'9' => Some(byte - b'0'),
        b'a'..=b'f' => Some(byte - b'a' + 10),
        _ => None,
    }
}

// Adds the bytes that pairs of hexadecimal digits stand for.
fn add_hexadecimal(bytes: &mut Vec<u8>, digits: &[u8]) -> Result<(), CaseError> {
    if digits.len() % 2 != 0 {
        return Err(CaseError::Unreadable);
    }
    for i in 0..digits.len() / 2 {
        let (Some(high), Some(low)) = (digit(digits[2 * i]), digit(digits[2 * i + 1])) else {
            return Err(CaseError::Unreadable);
        };
        bytes.push(16 * high + low)?;
    }
    Ok(())
}

// Adds bytes so many times, both as `300 20` has them.
fn add_repeated(alloc: Global, bytes: &mut Vec<u8>, text: &str) -> Result<(), CaseError> {
    let (times, digits) = text.split_once(' ').ok_or(CaseError::Unreadable)?;
    let times: u64 = times.parse().map_err(|_| CaseError::Unreadable)?;
    if times > MOST_TIMES {
        return Err(CaseError::Unreadable);
    }
    let mut once = Vec::new(alloc);
    add_hexadecimal(&mut once, digits.as_bytes())?;
    for _ in 0..times {
        bytes.extend_from_slice(&once)?;
    }
    Ok(())
}

/// Adds the bytes of a content line.
pub fn add_content(alloc: Global, bytes: &mut Vec<u8>, line: &str) -> Result<(), CaseError>
    ensures line { (text : List ℕ) → line.now ≡ 124 ∷ text → OnOk result (bytes.new.items ≡ bytes.old.items ++ text ++ 10 ∷ []) }
    ensures text { (text : List ℕ) → line.now ≡ 58 ∷ text → OnOk result (bytes.new.items ≡ bytes.old.items ++ text) }
{
    match line.as_bytes() {
        [b'|', text @ ..] => {
            bytes.extend_from_slice(text)?;
            bytes.push(b'\n')?;
        }
        [b':', text @ ..] => bytes.extend_from_slice(text)?,
        [b'=', digits @ ..] => add_hexadecimal(bytes, digits)?,
        [b'*', ..] => add_repeated(alloc, bytes, line.strip_prefix('*').unwrap_or_default())?,
        _ => return Err(CaseError::Unreadable),
    }
    Ok(())
}
