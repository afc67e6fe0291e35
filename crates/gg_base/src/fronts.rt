// What stands at the front of bytes.
ghost use Rattle.std.specs.Prelude.{◌≡◌, ◌≤◌, length};
ghost use Rattle.std.specs.Char.{is_ascii_digit};
ghost use Rattle.gg_base.specs.Fronts.{run_len, in_line};

/// How many decimal digits stand at the front.
pub fn digits_len(bytes: &[u8]) -> usize
    ensures len { result ≡ run_len is_ascii_digit bytes.now }
    ensures bound { result ≤ length bytes.now }
{
    bytes
        .iter()
        .position(|byte| !byte.is_ascii_digit())
        .unwrap_or(bytes.len())
}

/// How many bytes stand in front of the line's end.
pub fn line_len(text: &[u8]) -> usize
    ensures len { result ≡ run_len in_line text.now }
    ensures bound { result ≤ length text.now }
{
    text.iter()
        .position(|byte| *byte == b'\n')
        .unwrap_or(text.len())
}
