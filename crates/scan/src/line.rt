// One line of a sheet, by its keyword: what it adds to the state and to its buffer.
ghost use Rattle.std.specs.Prelude.{◌≡◌, ◌+◌, ◌*◌, ◌≤◌, length};
ghost use Rattle.lines.specs.declared.keyword.Keyword.TheVariants.{Size, Item, Wit, End};
ghost use Rattle.lines.specs.Lines.{line_with};
ghost use Rattle.lines.specs.Cursor.{fields_at, next_line, exactly_at, appended_numbers, appended_item};
ghost use Rattle.scan.specs.Scan.{advance, after_entry};

use crate::state::{Entries, Pairs, Sizes, State, stopped};
use lines::keyword::Keyword;
use lines::row;
use lines::row::Row;

// `size`: m, n and k.
pub fn size(st: State, s: &[u8], at: usize) -> State
    requires { (at ≤ length s.now) × (length s.now ≤ 60000) }
    ensures { result ≡ advance st (line_with (Some Size) (fields_at s.now at)) (next_line s.now at) }
{
    let mut found = [0u8; 12];
    let Some(row) = row::read_exactly(s, at, &mut found, 0, 3) else {
        return stopped(st);
    };
    let sizes = Sizes {
        m: numbers::get(&found, 0),
        n: numbers::get(&found, 1),
        k: numbers::get(&found, 2),
    };
    State {
        at: row.next,
        last: Some(Keyword::Size),
        sizes,
        ..st
    }
}

// `a`, `b` or `c`: the fields of an entry, behind the `count` entries of its list.
pub fn entry(s: &[u8], at: usize, list: &mut [u8], count: &mut usize) -> Option<Row>
    requires { (at ≤ length s.now) × (length s.now ≤ 60000) × (3 * count.old ≤ at) }
    ensures row { result ≡ exactly_at s.now at (3 * count.old) 3 }
    ensures list { list.new ≡ appended_numbers (3 * count.old) (fields_at s.now at) list.old }
    ensures count { count.new ≡ count.old + 1 }
{
    let row = row::read_exactly(s, at, list, 3 * *count, 3);
    *count += 1;
    row
}

// The state behind an entry, which `entries` counts.
pub fn behind_entry(st: State, word: Keyword, entries: Entries, row: Option<Row>) -> State
    ensures { result ≡ after_entry (Some word) entries st row }
{
    let Some(row) = row else {
        return stopped(st);
    };
    State {
        at: row.next,
        last: Some(word),
        entries,
        ..st
    }
}

// `item`: e, r, x and the root.
pub fn item(st: State, s: &[u8], at: usize, items: &mut [u8]) -> State
    requires { (at ≤ length s.now) × (length s.now ≤ 60000) × (st.pairs.items ≤ at) × (st.pairs.count ≤ at) }
    ensures state { result ≡ advance st (line_with (Some Item) (fields_at s.now at)) (next_line s.now at) }
    ensures items { items.new ≡ appended_item st.pairs.items (fields_at s.now at) items.old }
{
    let first = st.pairs.items;
    let Some(row) = row::read_item(s, at, items, first) else {
        return stopped(st);
    };
    let expected = 1 + (st.sizes.m as usize) + (st.sizes.n as usize);
    let fit = st.fit & (row.count == first + expected + 8);
    let pairs = Pairs {
        items: row.count,
        count: st.pairs.count + 1,
        ..st.pairs
    };
    State {
        at: row.next,
        last: Some(Keyword::Item),
        pairs,
        fit,
        ..st
    }
}

// `wit`: w.
pub fn witness(st: State, s: &[u8], at: usize, wits: &mut [u8]) -> State
    requires { (at ≤ length s.now) × (length s.now ≤ 60000) × (st.pairs.wits ≤ at) }
    ensures state { result ≡ advance st (line_with (Some Wit) (fields_at s.now at)) (next_line s.now at) }
    ensures wits { wits.new ≡ appended_numbers st.pairs.wits (fields_at s.now at) wits.old }
{
    let first = st.pairs.wits;
    let Some(row) = row::read_numbers(s, at, wits, first) else {
        return stopped(st);
    };
    let fit = st.fit & (row.count == first + (st.sizes.k as usize));
    let pairs = Pairs {
        wits: row.count,
        ..st.pairs
    };
    State {
        at: row.next,
        last: Some(Keyword::Wit),
        pairs,
        fit,
        ..st
    }
}

// `end`: the count of items.
pub fn end(st: State, s: &[u8], at: usize) -> State
    requires { (at ≤ length s.now) × (length s.now ≤ 60000) }
    ensures { result ≡ advance st (line_with (Some End) (fields_at s.now at)) (next_line s.now at) }
{
    let mut found = [0u8; 4];
    let Some(row) = row::read_exactly(s, at, &mut found, 0, 1) else {
        return stopped(st);
    };
    State {
        at: row.next,
        last: Some(Keyword::End),
        end: numbers::get(&found, 0),
        ..st
    }
}
