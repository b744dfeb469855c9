ghost use Rattle.std.specs.Prelude.{◌≡◌, ◌≤◌, length};
ghost use Rattle.kf_load.specs.Place.{line_at, column_at};
ghost use Rattle.kf_load.specs.Views.{line_after, column_after};

// The line and the column after these bytes.
fn after(bytes: &[u8]) -> (u32, u32)
    requires { length bytes.now ≤ 1048576 }
    ensures line { result.0 ≡ line_after bytes.now }
    ensures column { result.1 ≡ column_after bytes.now }
{
    let mut line = 1;
    let mut column = 1;
    for byte in bytes {
        if *byte == b'\n' {
            line += 1;
            column = 1;
        } else {
            column += 1;
        }
    }
    (line, column)
}

/// The line and the column of the byte at `at`, each counted from 1: a line ends after its LF, and columns count bytes.
/// Of the source's end these are the line and the column at which a next byte would stand.
pub fn place(src: &[u8], at: u32) -> (u32, u32)
    requires { length src.now ≤ 1048576 }
    ensures line { result.0 ≡ line_at src.now at }
    ensures column { result.1 ≡ column_at src.now at }
{
    after(&src[..src.len().min(at as usize)])
}
