// A root field: 64 lower-case hexadecimal digits.
ghost use Rattle.std.specs.Prelude.{◌≡◌, true, ◌≤◌, length};
ghost use Rattle.lines.specs.Text.{is_hex_digit, hex_value};
ghost use Rattle.lines.specs.Cursor.{root_at};

use crate::ends::field_over;

fn is_hex_digit(d: u8) -> bool
    ensures { result ≡ is_hex_digit d }
{
    d.is_ascii_digit() | ((b'a' <= d) & (d <= b'f'))
}

fn hex_value(d: u8) -> u8
    requires { is_hex_digit d ≡ true }
    ensures { result ≡ hex_value d }
{
    if d <= b'9' { d - b'0' } else { d - b'a' + 10 }
}

// The 32 bytes of the root that the field of s at `at` is.
pub fn root_at(s: &[u8], at: usize) -> Option<[u8; 32]>
    requires { at ≤ length s.now }
    ensures { result ≡ root_at s.now at }
{
    if s.len() - at < 64 {
        return None;
    }
    let mut bytes = [0u8; 32];
    for i in 0..32 {
        let high = s[at + 2 * i];
        let low = s[at + 2 * i + 1];
        if !(is_hex_digit(high) & is_hex_digit(low)) {
            return None;
        }
        bytes[i] = 16 * hex_value(high) + hex_value(low);
    }
    if !field_over(s, at + 64) {
        return None;
    }
    Some(bytes)
}
