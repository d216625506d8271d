// A frame without its registers.
ghost use Rattle.std.specs.Prelude.{◌≡◌, []};
ghost use Rattle.dv_words.specs.Stacks as frames;
ghost use Rattle.dv_words.specs.Standing.{CaughtFits, KeptFits};
ghost use Rattle.dv_frames.specs.Heads.{head_in, on_head};

use dv_defs::MethodId;
use dv_words::{Frame, Kept};

/// A method that runs, without its registers: the address of its next instruction in units, the result of a call that is kept
/// for it, and the number of the exception object that a handler was entered with.
#[derive(Clone, Copy, PartialEq, Eq, Debug)]
pub struct Head {
    pub method: MethodId,
    pub at: u32,
    pub result: Kept,
    pub caught: Option<u32>,
}

/// A kept result is of `u32`s: does nothing.
pub fn kept_fits(kept: Kept)
    ensures { KeptFits kept }
{
    match kept {
        Kept::None => {}
        Kept::One(_word) => {}
        Kept::Two(_low, _high) => {}
    }
}

/// The number of what is caught is a `u32`: does nothing.
pub fn caught_fits(caught: Option<u32>)
    ensures { CaughtFits caught }
{
    match caught {
        None => {}
        Some(_object) => {}
    }
}

/// As a method begins.
#[inline]
pub fn begin(method: MethodId) -> Head
    ensures { result ≡ head_in (frames.entered method 0 []) }
{
    Head {
        method,
        at: 0,
        result: Kept::None,
        caught: None,
    }
}

/// On at an address: no result is kept, and nothing is caught.
#[inline]
pub fn go(head: &mut Head, at: u32)
    ensures { head.new ≡ on_head (λ f. frames.gone f at) head.old }
{
    head.at = at;
    head.result = Kept::None;
    head.caught = None;
}

/// With a result that is kept.
#[inline]
pub fn given(head: Head, kept: Kept) -> Head
    ensures { result ≡ on_head (λ f. frames.given f kept) head }
{
    Head {
        result: kept,
        ..head
    }
}

/// On at a handler that caught an object.
#[inline]
pub fn handling(head: Head, at: u32, object: u32) -> Head
    ensures { result ≡ on_head (λ f. frames.handling f at object) head }
{
    let mut on = head;
    go(&mut on, at);
    on.caught = Some(object);
    on
}

/// The head of a frame.
pub fn head_of_frame(frame: &Frame) -> Head
    ensures { result ≡ head_in frame.now }
{
    Head {
        method: frame.method,
        at: frame.at,
        result: frame.result,
        caught: frame.caught,
    }
}

/// The word of a result, of a long its low word; 0 where none is kept.
#[inline]
pub fn low_word(kept: Kept) -> u32
    ensures { result ≡ frames.low_word kept }
{
    match kept {
        Kept::None => 0,
        Kept::One(word) => word,
        Kept::Two(low, _) => low,
    }
}

/// The high word of a long, 0 where none is kept.
#[inline]
pub fn high_word(kept: Kept) -> u32
    ensures { result ≡ frames.high_word kept }
{
    match kept {
        Kept::Two(_, high) => high,
        _ => 0,
    }
}
