// The listing's lines, from what the sheet reader wrote.
ghost use Rattle.std.specs.Prelude.{◌≡◌, true, cond, [], ◌∷◌, ◌++◌, ◌+◌, ◌*◌, ◌≤◌, ◌<◌, length, take};
ghost use Rattle.theory.specs.Sizes.{has_length, circuit_in_order};
ghost use Rattle.theory.specs.Fp.{item_size, items_below};
ghost use Rattle.scan.specs.Sheet.{filled};
ghost use Rattle.lines.specs.LineWriting.{write_number, write_line};
ghost use Rattle.listing.specs.Listing.{verdict_word, claim_line, claim_lines, claims_read, listing};

use arrayvec::ArrayString;
use itoa::Buffer;
use r1cs::circuit::Circuit;
use validation::reading::Reading;

// A listing's greatest length.
const MOST: usize = 2122;

// Puts a number in decimal: by `itoa`, since no clause says that `write!` gives no error, and the listing has none.
fn put_number(text: &mut ArrayString<MOST>, x: u32)
    requires { length text.old.bytes + 10 ≤ MOST }
    ensures digits { text.new.bytes ≡ text.old.bytes ++ write_number x }
    ensures few { length text.new.bytes ≤ length text.old.bytes + 10 }
    ensures two { x < 100 → length text.new.bytes ≤ length text.old.bytes + 2 }
{
    let mut buffer = Buffer::new();
    text.push_str(buffer.format(x));
}

// Puts a number and a tab.
fn put_field(text: &mut ArrayString<MOST>, x: u32)
    requires { length text.old.bytes + 11 ≤ MOST }
    ensures field { text.new.bytes ≡ text.old.bytes ++ (write_number x ++ 9 ∷ []) }
    ensures few { length text.new.bytes ≤ length text.old.bytes + 11 }
    ensures two { x < 100 → length text.new.bytes ≤ length text.old.bytes + 3 }
{
    put_number(text, x);
    text.push_str("\t");
}

// Puts the line of a word and a number.
fn put_line(text: &mut ArrayString<MOST>, word: &str, x: u32)
    requires { length text.old.bytes + (length word.now + 12) ≤ MOST }
    ensures line { text.new.bytes ≡ text.old.bytes ++ write_line word.now (write_number x ∷ []) }
    ensures two { x < 100 → length text.new.bytes ≤ length text.old.bytes + (length word.now + 4) }
{
    text.push_str(word);
    text.push_str("\t");
    put_number(text, x);
    text.push_str("\n");
}

// The word of an item that holds, or of one that differs.
fn verdict_word(holds: bool) -> &'static str
    ensures word { result.now ≡ verdict_word holds }
    ensures few { length result.now ≤ 7 }
{
    if holds { "holds" } else { "differs" }
}

// Puts the line of item i with its value and its e.
fn put_claim(text: &mut ArrayString<MOST>, i: u32, value: u32, e: u32)
    requires { (length text.old.bytes + 33 ≤ MOST) × (i < 64) }
    ensures line { text.new.bytes ≡ text.old.bytes ++ claim_line i value e }
    ensures few { length text.new.bytes ≤ length text.old.bytes + 33 }
{
    put_field(text, i);
    put_field(text, value);
    put_field(text, e);
    text.push_str(verdict_word(value == e));
    text.push_str("\n");
}

// Puts the line of each item of a reading.
fn put_claims(
    text: &mut ArrayString<MOST>,
    r: Reading,
    circuit: &Circuit<'_>,
    items: &[u8],
    wits: &[u8],
)
    requires lengths { (length text.old.bytes + 33 * r.pairs ≤ MOST) × (length items.now ≡ r.pairs * item_size r.sizes.m r.sizes.n) × (length wits.now ≡ r.pairs * (4 * r.sizes.k)) }
    requires below { items_below r.sizes.m r.sizes.n r.pairs items.now ≡ true }
    requires in_order { circuit_in_order r.sizes.m r.sizes.n r.sizes.k circuit.now.a.now circuit.now.b.now circuit.now.c.now ≡ true }
    ensures { text.new.bytes ≡ text.old.bytes ++ claim_lines r.sizes.m r.sizes.n r.sizes.k circuit.now.a.now circuit.now.b.now circuit.now.c.now items.now wits.now r.pairs }
{
    let size = r.sizes.item_size();
    let width = 4 * r.sizes.k;
    for i in 0..r.pairs {
        let item = &items[i * size..(i + 1) * size];
        let wit = &wits[i * width..(i + 1) * width];
        let value = checks::claims::item_value(r.sizes.m, r.sizes.n, r.sizes.k, circuit, item, wit);
        put_claim(text, i as u32, value, numbers::get(item, 0));
    }
}

// Puts the listing of a reading that passed every check: `claims`, the item count and the line of each item.
fn put_listing(
    text: &mut ArrayString<MOST>,
    r: Reading,
    a: &[u8],
    b: &[u8],
    c: &[u8],
    items: &[u8],
    wits: &[u8],
)
    requires lengths { (text.old.bytes ≡ []) × (12 * r.a ≤ length a.now) × (12 * r.b ≤ length b.now) × (12 * r.c ≤ length c.now) × (r.pairs * item_size r.sizes.m r.sizes.n ≤ length items.now) × (r.pairs * (4 * r.sizes.k) ≤ length wits.now) }
    requires below { items_below r.sizes.m r.sizes.n r.pairs (take (r.pairs * item_size r.sizes.m r.sizes.n) items.now) ≡ true }
    requires in_order { circuit_in_order r.sizes.m r.sizes.n r.sizes.k (take (12 * r.a) a.now) (take (12 * r.b) b.now) (take (12 * r.c) c.now) ≡ true }
    ensures { text.new.bytes ≡ claims_read r a.now b.now c.now items.now wits.now }
{
    put_line(text, "claims", r.pairs as u32);
    let circuit = Circuit {
        a: &a[..12 * r.a],
        b: &b[..12 * r.b],
        c: &c[..12 * r.c],
    };
    let items = &items[..r.pairs * r.sizes.item_size()];
    let wits = &wits[..r.pairs * (4 * r.sizes.k)];
    put_claims(text, r, &circuit, items, wits);
}

// The listing of a sheet of any bytes.
fn text_of(sheet: &[u8]) -> ArrayString<MOST>
    ensures { result.bytes ≡ listing sheet.now }
{
    let mut a = [0u8; 12288];
    let mut b = [0u8; 12288];
    let mut c = [0u8; 12288];
    let mut items = [0u8; 20224];
    let mut wits = [0u8; 16384];
    let read = sheet::read::read(sheet, &mut a, &mut b, &mut c, &mut items, &mut wits);
    let mut text = ArrayString::new();
    match read {
        Ok(r) => put_listing(&mut text, r, &a, &b, &c, &items, &wits),
        Err(refusal) => put_line(&mut text, "refused", refusal.number()),
    }
    text
}

// Writes the listing of a sheet of any bytes from the front of a buffer of 2,122 bytes, the greatest length, and returns its length.
// A buffer of another length is left as it is, and the answer is 0.
pub fn write(sheet: &[u8], out: &mut [u8]) -> usize
    ensures length { result ≡ cond (has_length out.old 2122) (length (listing sheet.now)) 0 }
    ensures out { out.new ≡ cond (has_length out.old 2122) (filled (listing sheet.now) out.old) out.old }
    ensures within { result ≤ length out.new }
{
    if out.len() != MOST {
        return 0;
    }
    let text = text_of(sheet);
    let bytes = text.as_str().as_bytes();
    let end = bytes.len();
    out[..end].copy_from_slice(bytes);
    end
}
