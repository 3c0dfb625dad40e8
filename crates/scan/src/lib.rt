// Check 1 over the whole sheet, in one pass: line by line, each number appended to its buffer as it is read.
#![tactic(auto)]

ghost use Rattle.std.specs.Prelude.{◌≡◌, true, false, ◌≤◌, ◌<◌, length};
ghost use Rattle.lines.specs.declared.keyword.Keyword.TheVariants.{EntryA, EntryB, EntryC, Item, Wit};
ghost use Rattle.lines.specs.Cursor.{fields_at, next_line};
ghost use Rattle.scan.specs.Scan.{step, line_here, MayStand, Bounded, line_into, EachBuffer, scanned, scanned_into};

mod line;
pub mod order;
pub mod state;

use crate::state::State;
use lines::keyword;
use lines::keyword::Keyword;

// What the lines of entries, items and witnesses fill.
#[derive(Drop)]
struct Buffers<'a> {
    a: &'a mut [u8],
    b: &'a mut [u8],
    c: &'a mut [u8],
    items: &'a mut [u8],
    wits: &'a mut [u8],
}

// The line at the state's index.
fn read_line(st: State, s: &[u8], buffers: &mut Buffers) -> State
    requires { (st.at < length s.now) × (length s.now ≤ 60000) × Bounded (length s.now) st }
    ensures state { result ≡ step st (line_here s.now st) (next_line s.now st.at) }
    ensures bounded { MayStand s.now st → Bounded (length s.now) result }
    ensures buffers { EachBuffer (λ w. line_into w st (fields_at s.now st.at)) buffers.old buffers.new }
{
    let end = keyword::field_end(s, st.at);
    let Some(word) = keyword::keyword_at(s, st.at, end) else {
        return state::stopped(st);
    };
    if !order::follows(st.last, Some(word)) {
        return state::stopped(st);
    }
    if end == s.len() {
        return state::stopped(st);
    }
    if s[end] == b'\n' {
        return state::stopped(st);
    }
    let at = end + 1;
    let mut entries = st.entries;
    let row = match word {
        Keyword::Size => return line::size(st, s, at),
        Keyword::EntryA => line::entry(s, at, buffers.a, &mut entries.a),
        Keyword::EntryB => line::entry(s, at, buffers.b, &mut entries.b),
        Keyword::EntryC => line::entry(s, at, buffers.c, &mut entries.c),
        Keyword::Item => return line::item(st, s, at, buffers.items),
        Keyword::Wit => return line::witness(st, s, at, buffers.wits),
        Keyword::End => return line::end(st, s, at),
    };
    line::behind_entry(st, word, entries, row)
}

// Reads the lines of s, up to its end or to the first line that breaks the rules; where not the whole sheet is asked for, up to the first item,
// behind which no entry stands.
fn scan_lines(s: &[u8], buffers: &mut Buffers, whole: bool) -> State
    requires { length s.now ≤ 60000 }
    ensures state { result ≡ scanned whole s.now }
    ensures buffers { EachBuffer (λ w. scanned_into w whole s.now) buffers.old buffers.new }
{
    let mut st = state::start();
    while st.at < s.len() {
        st = read_line(st, s, buffers);
        if st.last.is_none() | (!whole & (st.last == Some(Keyword::Item))) {
            return st;
        }
    }
    st
}

// Reads the whole sheet.
pub fn scan(
    s: &[u8],
    a: &mut [u8],
    b: &mut [u8],
    c: &mut [u8],
    items: &mut [u8],
    wits: &mut [u8],
) -> State
    requires { length s.now ≤ 60000 }
    ensures state { result ≡ scanned true s.now }
    ensures a { a.new ≡ scanned_into EntryA true s.now a.old }
    ensures b { b.new ≡ scanned_into EntryB true s.now b.old }
    ensures c { c.new ≡ scanned_into EntryC true s.now c.old }
    ensures items { items.new ≡ scanned_into Item true s.now items.old }
    ensures wits { wits.new ≡ scanned_into Wit true s.now wits.old }
{
    scan_lines(
        s,
        &mut Buffers {
            a,
            b,
            c,
            items,
            wits,
        },
        true,
    )
}

// Reads up to the first item, for the sizes and the entries.
pub fn scan_entries(s: &[u8], a: &mut [u8], b: &mut [u8], c: &mut [u8]) -> State
    requires { length s.now ≤ 60000 }
    ensures state { result ≡ scanned false s.now }
    ensures a { a.new ≡ scanned_into EntryA false s.now a.old }
    ensures b { b.new ≡ scanned_into EntryB false s.now b.old }
    ensures c { c.new ≡ scanned_into EntryC false s.now c.old }
{
    let mut items: [u8; 0] = [];
    let mut wits: [u8; 0] = [];
    let mut buffers = Buffers {
        a,
        b,
        c,
        items: &mut items,
        wits: &mut wits,
    };
    scan_lines(s, &mut buffers, false)
}
