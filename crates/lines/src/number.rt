// A number field: 1 to 10 digits, no needless leading zero, at most 4294967295.
ghost use Rattle.std.specs.Prelude.{◌≡◌, ◌≤◌, length};
ghost use Rattle.lines.specs.Cursor.{number_at, number_before_tab};

use crate::ends::field_over;

// The number, and where its field ends.
#[derive(Clone, Copy)]
pub struct Number {
    pub value: u32,
    pub end: usize,
}

// The field of s that starts at `at`, as a number. Each digit is looked at once, and no more than ten.
pub fn number_at(s: &[u8], at: usize) -> Option<Number>
    requires { at ≤ length s.now }
    ensures { result ≡ number_at s.now at }
{
    let last = at + (s.len() - at).min(10);
    let mut value: u64 = 0;
    let mut end = at;
    while end < last && s[end].is_ascii_digit() {
        value = 10 * value + ((s[end] - b'0') as u64);
        end += 1;
    }
    if !field_over(s, end) {
        return None;
    }
    let count = end - at;
    if count == 0 {
        return None;
    }
    if (2 <= count) & (s[at] == b'0') {
        return None;
    }
    let value = u32::try_from(value).ok()?;
    Some(Number { value, end })
}

// The same for a field that a tab ends, and so another field follows.
pub fn before_tab(s: &[u8], at: usize) -> Option<Number>
    requires { at ≤ length s.now }
    ensures { result ≡ number_before_tab s.now at }
{
    let number = number_at(s, at)?;
    if number.end == s.len() {
        return None;
    }
    if s[number.end] == b'\n' {
        return None;
    }
    Some(number)
}
