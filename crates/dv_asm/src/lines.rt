// The first line of a fault, and the error that tells it.
ghost use Rattle.std.specs.Prelude.{◌≡◌, ◌<◌, ℕ, Option};
ghost use Rattle.dv_asm.specs.First.{first_line, earlier, when};
ghost use Rattle.dv_asm.specs.Refusals.{Checks, refused};

use dv_defs::{LineError, LineKind};

/// The earlier of two lines, where there are some.
pub fn earlier(first: Option<u32>, second: Option<u32>) -> Option<u32>
    ensures { result ≡ earlier first second }
{
    match (first, second) {
        (Some(a), Some(b)) => Some(a.min(b)),
        (None, line) => line,
        (line, None) => line,
    }
}

/// The line, where the test passes.
pub fn when(test: bool, line: u32) -> Option<u32>
    ensures { result ≡ when test line }
{
    if test { Some(line) } else { None }
}

/// The first of the lines that a function gives of the numbers below a bound.
pub fn first_line<F: Fn(usize) -> Option<u32>>(bound: usize, line_at: F) -> Option<u32>
    requires callable { (k : ℕ) → k < bound → F.pre line_at k }
    ensures { (f : ℕ → Option ℕ) → ((k : ℕ) → (line : Option ℕ) → k < bound → F.post line_at k line → line ≡ f k)
        → result ≡ first_line f bound }
{
    let mut line = None;
    for k in 0..bound {
        line = earlier(line, line_at(k));
    }
    line
}

/// The error of this kind at the line, if there is one.
pub fn refuse(line: Option<u32>, kind: LineKind) -> Result<(), LineError>
    ensures { Checks result (refused kind line) }
{
    match line {
        Some(line) => Err(LineError::At { line, kind }),
        None => Ok(()),
    }
}
