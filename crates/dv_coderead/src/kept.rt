// The lines that count, one after another.
ghost use Rattle.std.specs.Prelude.{◌≡◌, ◌+◌, ◌^◌, ◌≤◌, ◌<◌, length};
ghost use Rattle.std.specs.List.{All};
ghost use Rattle.dv_lex.specs.Lines.{IsLineInside};
ghost use Rattle.dv_coderead.specs.Kept.{closes, counts, depth_behind, is_passed, opens, Comes};

use crate::head::{Directive, Head, head_of};
use dv_lex::Line;

/// The next line that counts, by its place among lines, with what it is; or that there is none, and whether an
/// annotation is left open.
#[derive(Clone, Copy, PartialEq, Eq, Debug)]
pub enum Next {
    Line { at: usize, head: Head },
    End,
    Unfinished,
}

fn opens(head: Head) -> bool
    ensures { result ≡ opens head }
{
    matches!(head, Head::Directive(Directive::Annotation))
}

fn closes(head: Head) -> bool
    ensures { result ≡ closes head }
{
    matches!(head, Head::Directive(Directive::EndAnnotation))
}

fn is_passed(head: Head) -> bool
    ensures { result ≡ is_passed head }
{
    matches!(head, Head::Blank | Head::Directive(Directive::Skipped))
}

/// How many annotations are open behind a line.
fn depth_behind(depth: usize, head: Head) -> usize
    requires { depth + 1 < 2 ^ 64 }
    ensures { result ≡ depth_behind depth head }
{
    if opens(head) {
        depth + 1
    } else if closes(head) {
        depth.saturating_sub(1)
    } else {
        depth
    }
}

/// Whether a line counts.
fn counts(depth: usize, head: Head) -> bool
    ensures { result ≡ counts depth head }
{
    depth == 0 && !opens(head) && !is_passed(head)
}

/// The first line that counts from the place `from` on. Blank lines, lines that are passed over, and those from
/// `.annotation` to the matching `.end annotation` don't.
pub fn next_line(text: &[u8], lines: &[Line], from: usize) -> Next
    requires inside { All (IsLineInside text.now) lines.now }
    requires place { from ≤ length lines.now }
    ensures { Comes text.now lines.now from result }
{
    let mut depth = 0;
    let mut at = from;
    while at < lines.len() {
        let head = head_of(text, lines[at].tokens.items());
        if counts(depth, head) {
            return Next::Line { at, head };
        }
        depth = depth_behind(depth, head);
        at += 1;
    }
    if depth == 0 {
        Next::End
    } else {
        Next::Unfinished
    }
}
