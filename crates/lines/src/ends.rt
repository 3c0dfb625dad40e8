// Where a field ends.
ghost use Rattle.std.specs.Prelude.{◌≡◌, ◌≤◌, eqb, length};
ghost use Rattle.lines.specs.Cursor.{field_at};

// Whether no byte of a field stands at i: a tab, byte 10 or the end of s.
pub fn field_over(s: &[u8], i: usize) -> bool
    requires { i ≤ length s.now }
    ensures { result ≡ eqb (length (field_at s.now i)) 0 }
{
    if i == s.len() {
        return true;
    }
    let d = s[i];
    (d == b'\t') | (d == b'\n')
}
