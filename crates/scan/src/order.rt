// The order of lines: `size` first; then any lines `a`, then `b`, then `c`; then pairs `item` and `wit`; last `end`.
ghost use Rattle.std.specs.Prelude.{◌≡◌};
ghost use Rattle.scan.specs.Sheet.{follows};

use lines::keyword::Keyword::{self, End, EntryA, EntryB, EntryC, Item, Size, Wit};

// Whether a line with the keyword `next` may stand behind one with the keyword `last`. None stands for no line before, and for a line without a keyword.
pub fn follows(last: Option<Keyword>, next: Option<Keyword>) -> bool
    ensures { result ≡ follows last next }
{
    match last {
        None => matches!(next, Some(Size)),
        Some(Size) => matches!(next, Some(EntryA | EntryB | EntryC | Item | End)),
        Some(EntryA) => matches!(next, Some(EntryA | EntryB | EntryC | Item | End)),
        Some(EntryB) => matches!(next, Some(EntryB | EntryC | Item | End)),
        Some(EntryC) => matches!(next, Some(EntryC | Item | End)),
        Some(Item) => matches!(next, Some(Wit)),
        Some(Wit) => matches!(next, Some(Item | End)),
        Some(End) => false,
    }
}
