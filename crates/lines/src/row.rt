// The numbers of a line, and an item's numbers and root, read field by field and appended to a buffer as they are read.
// The numbers before a bad field stay in the buffer.
ghost use Rattle.std.specs.Prelude.{◌≡◌, ◌≤◌, length};
ghost use Rattle.lines.specs.Cursor.{fields_at, numbers_at, exactly_at, item_row_at, appended, appended_numbers, appended_item};

use crate::{number, root};

// How many numbers the buffer has then, and where the next line starts.
#[derive(Clone, Copy)]
pub struct Row {
    pub count: usize,
    pub next: usize,
}

// Puts bytes behind the first `count` numbers of a buffer, if there is room.
fn append<const N: usize>(buffer: &mut [u8], count: usize, bytes: [u8; N])
    requires { (count ≤ 60000) × (N ≤ 32) }
    ensures { buffer.new ≡ appended count bytes.entry buffer.old }
{
    let start = 4 * count;
    let end = start + N;
    if end <= buffer.len() {
        buffer[start..end].copy_from_slice(&bytes);
    }
}

// Reads the rest of the line as numbers and appends them to the first `count` of the buffer.
pub fn read_numbers(s: &[u8], at: usize, buffer: &mut [u8], count: usize) -> Option<Row>
    requires { (at ≤ length s.now) × (length s.now ≤ 60000) × (count ≤ at) }
    ensures row { result ≡ numbers_at s.now at count }
    ensures buffer { buffer.new ≡ appended_numbers count (fields_at s.now at) buffer.old }
{
    let mut place = at;
    let mut n = count;
    loop {
        let number = number::number_at(s, place)?;
        append(buffer, n, number.value.to_le_bytes());
        n += 1;
        place = number.end + 1;
        if number.end == s.len() || s[number.end] == b'\n' {
            let next = place.min(s.len());
            return Some(Row { count: n, next });
        }
    }
}

// The same for exactly `size` numbers.
pub fn read_exactly(
    s: &[u8],
    at: usize,
    buffer: &mut [u8],
    count: usize,
    size: usize,
) -> Option<Row>
    requires { (at ≤ length s.now) × (length s.now ≤ 60000) × (count ≤ at) × (size ≤ 60000) }
    ensures row { result ≡ exactly_at s.now at count size }
    ensures buffer { buffer.new ≡ appended_numbers count (fields_at s.now at) buffer.old }
{
    let row = read_numbers(s, at, buffer, count)?;
    if row.count != count + size {
        return None;
    }
    Some(row)
}

// Reads the rest of the line as one number or more and a root, and appends them to the first `count` numbers of the buffer.
pub fn read_item(s: &[u8], at: usize, buffer: &mut [u8], count: usize) -> Option<Row>
    requires { (at ≤ length s.now) × (length s.now ≤ 60000) × (count ≤ at) }
    ensures row { result ≡ item_row_at s.now at count }
    ensures buffer { buffer.new ≡ appended_item count (fields_at s.now at) buffer.old }
{
    let mut place = at;
    let mut n = count;
    while let Some(number) = number::before_tab(s, place) {
        append(buffer, n, number.value.to_le_bytes());
        n += 1;
        place = number.end + 1;
    }
    if n == count {
        return None;
    }
    let root = root::root_at(s, place)?;
    let end = place + 64;
    if end < s.len() && s[end] == b'\t' {
        return None;
    }
    append(buffer, n, root);
    let count = n + 8;
    let next = (end + 1).min(s.len());
    Some(Row { count, next })
}
