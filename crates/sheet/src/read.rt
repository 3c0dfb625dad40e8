// Reading a sheet of any bytes into the buffers of a call: once all checks are passed the sheet is read again, into those buffers.
ghost use Rattle.std.specs.Prelude.{◌≡◌};
ghost use Rattle.sheet.specs.Reading.{read_sheet};
ghost use Rattle.validation.specs.SheetChecks.{buffers_fit, outcome};

use checks::refusal::Refusal;
use validation::reading::Reading;
use validation::verdict;

// Check 2 of the buffers.
fn buffers_fit(a: &[u8], b: &[u8], c: &[u8], items: &[u8], wits: &[u8]) -> bool
    ensures { result ≡ buffers_fit a.now b.now c.now items.now wits.now }
{
    (a.len() == 12288)
        & (b.len() == 12288)
        & (c.len() == 12288)
        & (items.len() == 20224)
        & (wits.len() == 16384)
}

// Reads a sheet of any bytes: the circuit's entries, the items and the witnesses into a, b, c, items and wits, from the front.
pub fn read(
    sheet: &[u8],
    a: &mut [u8],
    b: &mut [u8],
    c: &mut [u8],
    items: &mut [u8],
    wits: &mut [u8],
) -> Result<Reading, Refusal>
    ensures result { outcome result ≡ (read_sheet sheet.now a.old b.old c.old items.old wits.old).result }
    ensures a { a.new ≡ (read_sheet sheet.now a.old b.old c.old items.old wits.old).a }
    ensures b { b.new ≡ (read_sheet sheet.now a.old b.old c.old items.old wits.old).b }
    ensures c { c.new ≡ (read_sheet sheet.now a.old b.old c.old items.old wits.old).c }
    ensures items { items.new ≡ (read_sheet sheet.now a.old b.old c.old items.old wits.old).items }
    ensures wits { wits.new ≡ (read_sheet sheet.now a.old b.old c.old items.old wits.old).wits }
{
    let lengths = buffers_fit(a, b, c, items, wits);
    let reading = verdict(sheet, lengths)?;
    scan::scan(sheet, a, b, c, items, wits);
    Ok(reading)
}
