// Check 2 of what was read.
ghost use Rattle.std.specs.Prelude.{◌≡◌, true, false, MatchOption};
ghost use Rattle.validation.specs.SheetChecks.{state_fits};
ghost use Rattle.validation.specs.Counts.{IsReading};

use crate::reading::Reading;
use r1cs::sizes::Sizes;
use scan::state::State;

// The counts behind the last line, where they pass.
pub fn reading(st: State) -> Option<Reading>
    ensures { MatchOption result (state_fits st ≡ false) (λ r. (state_fits st ≡ true) × IsReading st.sizes.m st.sizes.n st.sizes.k st.entries.a st.entries.b st.entries.c st.pairs.count r) }
{
    let sizes = Sizes::new(st.sizes.m, st.sizes.n, st.sizes.k)?;
    let fits = (st.entries.a <= 1024)
        & (st.entries.b <= 1024)
        & (st.entries.c <= 1024)
        & (1 <= st.pairs.count)
        & (st.pairs.count <= 64)
        & st.fit
        & ((st.end as usize) == st.pairs.count);
    if !fits {
        return None;
    }
    Some(Reading {
        sizes,
        a: st.entries.a,
        b: st.entries.b,
        c: st.entries.c,
        pairs: st.pairs.count,
    })
}
