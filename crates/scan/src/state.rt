// What the scan keeps between two lines.
ghost use Rattle.std.specs.Prelude.{◌≡◌};
ghost use Rattle.scan.specs.Scan.{start, stopped};

use lines::keyword::Keyword;

#[derive(Clone, Copy, Default)]
pub struct Sizes {
    pub m: u32,
    pub n: u32,
    pub k: u32,
}

// How many entries each list has.
#[derive(Clone, Copy, Default)]
pub struct Entries {
    pub a: usize,
    pub b: usize,
    pub c: usize,
}

// How many numbers the buffers of items and witnesses have (a root counts as eight), and how many pairs there are.
#[derive(Clone, Copy, Default)]
pub struct Pairs {
    pub items: usize,
    pub wits: usize,
    pub count: usize,
}

// What was read up to index `at`. `last` is the last line's keyword; `fit` says whether each pair has as many numbers as the sizes give; `end` is the
// number on the line `end`. `fit` is no field of `Pairs`: a record that is copied with its padding takes longer.
#[derive(Clone, Copy, Default)]
pub struct State {
    pub at: usize,
    pub last: Option<Keyword>,
    pub sizes: Sizes,
    pub entries: Entries,
    pub pairs: Pairs,
    pub fit: bool,
    pub end: u32,
}

// The state before the first line.
pub fn start() -> State
    ensures { result ≡ start }
{
    State {
        fit: true,
        ..State::default()
    }
}

// The state behind a line that breaks the rules: no keyword is the last.
pub fn stopped(st: State) -> State
    ensures { result ≡ stopped st }
{
    State { last: None, ..st }
}
