// The first field of a line: one of seven keywords, compared as byte strings.
ghost use Rattle.std.specs.Prelude.{◌≡◌, ◌≤◌, length};
ghost use Rattle.lines.specs.Lines.{keyword_of};
ghost use Rattle.lines.specs.Cursor.{field_at, field_end};

#[derive(Clone, Copy, PartialEq, Eq, Debug)]
pub enum Keyword {
    Size,
    EntryA,
    EntryB,
    EntryC,
    Item,
    Wit,
    End,
}

// Where the field that starts at `at` ends: at a tab, at byte 10 or at the end of s.
pub fn field_end(s: &[u8], at: usize) -> usize
    requires { at ≤ length s.now }
    ensures { result ≡ field_end s.now at }
{
    for i in at..s.len() {
        let d = s[i];
        if (d == b'\t') | (d == b'\n') {
            return i;
        }
    }
    s.len()
}

fn keyword_of(field: &[u8]) -> Option<Keyword>
    ensures { result ≡ keyword_of field.now }
{
    match field {
        b"a" => Some(Keyword::EntryA),
        b"b" => Some(Keyword::EntryB),
        b"c" => Some(Keyword::EntryC),
        b"item" => Some(Keyword::Item),
        b"wit" => Some(Keyword::Wit),
        b"size" => Some(Keyword::Size),
        b"end" => Some(Keyword::End),
        _ => None,
    }
}

// The keyword from `at` up to `end`, where the field ends; None if the field is no keyword.
pub fn keyword_at(s: &[u8], at: usize, end: usize) -> Option<Keyword>
    requires { (at ≤ length s.now) × (end ≡ field_end s.now at) }
    ensures { result ≡ keyword_of (field_at s.now at) }
{
    keyword_of(&s[at..end])
}
