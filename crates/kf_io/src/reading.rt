ghost use Rattle.std.specs.Prelude.{◌≡◌, ◌≢◌, ◌+◌, ◌<◌, ◌≤◌, List, ℕ, length, IfOk, IsErrOf, vec_len};
ghost use Rattle.std.specs.Option.{ForSome};
ghost use Rattle.kf_io.specs.Faults.{Rose};
ghost use Rattle.kf_io.specs.Reads.{IsFront, IsWhole};

use crate::{Files, ReadError};
use std::alloc::Global;

const LIMIT: usize = 1_048_576;

// Reads one piece to the end of what was read, and says how long it is: 0 at the file's end.
fn read_piece<F: Files>(
    files: &mut F,
    name: &str,
    bytes: &mut Vec<u8>,
    buf: &mut [u8],
) -> Result<usize, ReadError>
    requires { 0 < length buf.old }
    ensures grows { IfOk result (λ k. vec_len bytes.new ≡ vec_len bytes.old + k) }
    ensures bound { IfOk result (λ k. k ≤ length buf.old) }
    ensures told { IfOk result (λ _. ForSome (F.contents files.old) (λ c.
        IsFront (c name.now) bytes.old.items → IsFront (c name.now) bytes.new.items)) }
    ensures whole { IfOk result (λ k. k ≡ 0 → ForSome (F.contents files.old) (λ c.
        IsFront (c name.now) bytes.old.items → bytes.new.items ≡ c name.now)) }
    ensures unchanged { F.contents files.new ≡ F.contents files.old }
    ensures same { result ≢ Err ReadError.Failed → F.faults files.new ≡ F.faults files.old }
    ensures failed { IsErrOf result ReadError.Failed
        → Rose (F.faults files.old name.now) (F.faults files.new name.now) }
    ensures later { (n : List ℕ) → F.faults files.old n ≤ F.faults files.new n }
    ensures short { result ≢ Err ReadError.TooLong }
{
    let count = files.read(name, bytes.len() as u64, buf)?;
    bytes.extend_from_slice(&buf[..count])?;
    Ok(count)
}

/// The whole contents of the file of this name, which may have 1,048,576 bytes at most.
pub fn read_whole<F: Files>(alloc: Global, files: &mut F, name: &str) -> Result<Vec<u8>, ReadError>
    ensures told { IfOk result (λ bytes.
        ForSome (F.contents files.old) (λ c. bytes.items ≡ c name.now)) }
    ensures limit { IfOk result (λ bytes. vec_len bytes ≤ 1048576) }
    ensures long { IsErrOf result ReadError.TooLong
        → ForSome (F.contents files.old) (λ c. 1048576 < length (c name.now)) }

    // Where this name's count doesn't rise, the file is read whole or found too long, but for Mem.
    ensures complete { ForSome (F.contents files.old) (λ c.
        ¬ Rose (F.faults files.old name.now) (F.faults files.new name.now)
        → IsWhole (c name.now) result) }

    ensures unchanged { F.contents files.new ≡ F.contents files.old }
    ensures same { result ≢ Err ReadError.Failed → F.faults files.new ≡ F.faults files.old }
    ensures failed { IsErrOf result ReadError.Failed
        → Rose (F.faults files.old name.now) (F.faults files.new name.now) }
    ensures later { (n : List ℕ) → F.faults files.old n ≤ F.faults files.new n }
{
    let mut bytes = Vec::new(alloc);
    let mut buf = [0u8; 4096];
    'pieces: while bytes.len() <= LIMIT {
        let room = buf.len().min(LIMIT + 1 - bytes.len());
        let count = read_piece(files, name, &mut bytes, &mut buf[..room])?;
        if count == 0 {
            return Ok(bytes);
        }
    }
    Err(ReadError::TooLong)
}
