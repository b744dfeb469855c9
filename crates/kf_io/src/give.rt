ghost use Rattle.std.specs.Prelude.{◌<◌, ◌≤◌, length};
ghost use Rattle.kf_io.specs.Reads.{Gives};

// What a read gives of a file with these bytes: at most `piece` of them.
pub(crate) fn give(bytes: &[u8], at: u64, piece: usize, buf: &mut [u8]) -> usize
    requires { 0 < piece }
    ensures bound { result ≤ length buf.new }
    ensures piece { result ≤ piece }
    ensures given { Gives bytes.now at result buf.new }
{
    if at >= bytes.len() as u64 {
        return 0;
    }
    let start = at as usize;
    let count = (bytes.len() - start).min(piece).min(buf.len());
    buf[..count].copy_from_slice(&bytes[start..start + count]);
    count
}
