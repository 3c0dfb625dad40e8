// Checks 1 to 4 and 13 of a sheet, each over the whole sheet before the next. The sheet is read for its pairs, and then up to its first item for its
// circuit: the arrays for both do not stand on the stack at the same time. So a 13 of the pairs waits for the circuit's 3 and 4.
#![tactic(auto)]

ghost use Rattle.std.specs.Prelude.{◌≡◌, MatchResult};
ghost use Rattle.theory.specs.Checks.{answer};
ghost use Rattle.checks.specs.Refusals.{number_of, answer_of};
ghost use Rattle.scan.specs.Sheet.{sheet_lines};
ghost use Rattle.validation.specs.SheetChecks.{sheet_checks, result_of, outcome};
ghost use Rattle.validation.specs.CheckParts.{first_checks, entry_checks, IsPairs, IsReadingOf};

mod contents;
pub mod reading;

use crate::reading::Reading;
use checks::list;
use checks::refusal::{Refusal, ensure};
use lines::keyword::Keyword;
use r1cs::circuit::Circuit;

// A sheet that passes checks 1 and 2, and check 3 of its pairs; and whether their first inputs are 1.
#[derive(Clone, Copy)]
struct Pairs {
    reading: Reading,
    leading_one: bool,
}

// Checks 1 and 2, and check 3 of the pairs, as of a list without a circuit. `lengths` is what check 2 says of the call's buffers.
fn pairs_verdict(sheet: &[u8], lengths: bool) -> Result<Pairs, Refusal>
    ensures { MatchResult result (λ r. IsPairs sheet.now lengths r) (λ refusal. number_of refusal ≡ answer (first_checks sheet.now lengths)) }
{
    ensure(sheet.len() <= 60000, Refusal::Lines)?;
    let mut items = [0u8; 20224];
    let mut wits = [0u8; 16384];
    let st = scan::scan(sheet, &mut [], &mut [], &mut [], &mut items, &mut wits);
    ensure(st.last == Some(Keyword::End), Refusal::Lines)?;
    ensure(lengths, Refusal::Sizes)?;
    let reading = contents::reading(st).ok_or(Refusal::Sizes)?;
    let items = &items[..4 * st.pairs.items];
    let wits = &wits[..4 * st.pairs.wits];
    let none = Circuit {
        a: &[],
        b: &[],
        c: &[],
    };
    let leading_one = match list::verdict(reading.sizes, reading.pairs, &[], &none, items, wits) {
        Ok(()) => true,
        Err(refusal) => match refusal {
            Refusal::LeadingOne => false,
            _ => return Err(refusal),
        },
    };
    Ok(Pairs {
        reading,
        leading_one,
    })
}

// Checks 3 and 4 of the circuit, as of a list without items.
fn circuit_verdict(sheet: &[u8], reading: Reading) -> Result<(), Refusal>
    requires { IsReadingOf sheet.now reading }
    ensures { answer_of result ≡ answer (entry_checks (sheet_lines sheet.now)) }
{
    let mut a = [0u8; 12288];
    let mut b = [0u8; 12288];
    let mut c = [0u8; 12288];
    scan::scan_entries(sheet, &mut a, &mut b, &mut c);
    let circuit = Circuit {
        a: &a[..12 * reading.a],
        b: &b[..12 * reading.b],
        c: &c[..12 * reading.c],
    };
    list::verdict(reading.sizes, 0, &[], &circuit, &[], &[])
}

// The checks in their order. `lengths` is what check 2 says of the call's buffers.
pub fn verdict(sheet: &[u8], lengths: bool) -> Result<Reading, Refusal>
    ensures { outcome result ≡ result_of (answer (sheet_checks sheet.now lengths)) (sheet_lines sheet.now) }
{
    let Pairs {
        reading,
        leading_one,
    } = pairs_verdict(sheet, lengths)?;
    circuit_verdict(sheet, reading)?;
    ensure(leading_one, Refusal::LeadingOne)?;
    Ok(reading)
}
