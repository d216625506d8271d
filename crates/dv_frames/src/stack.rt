// A guest thread's stack.
ghost use Rattle.std.specs.Prelude.{◌≡◌, length, true, false, IfOk, IfSome, OnErr, OnOk, Some};
ghost use Rattle.dv_words.specs.Stacks.{arg_words, changed, empty, entered, first, given as given_frame, gone, handling as handling_frame, has_room, popped, size_of, top_regs, with_word};
ghost use Rattle.dv_words.specs.Words.{word_at};
ghost use Rattle.dv_words.specs.Standing.{AllFit, IsSmall};
ghost use Rattle.dv_words.specs.declared.state.Frame.{Frame as Activation};
ghost use Rattle.dv_words.specs.declared.state.Level.TheVariants as words_level;
ghost use Rattle.dv_frames.specs.Heads.{frame as framed};
ghost use Rattle.dv_frames.specs.Tops.{head_of, moved, started, top_of, IsCode, IsPushed};

use crate::arguments::{add_args, add_words, add_zeros, count};
use crate::heads::{Head, begin, caught_fits, given, go, handling, head_of_frame, kept_fits};
use crate::levels::{Level, Top, add_level, base_of, last, set_last, start_last};
use crate::registers::{read, write};
use dv_defs::{ClassId, MethodId, Regs, Seq};
use dv_words::{Frame, Kept};
use std::alloc::{AllocError, Global};
use std::marker::Model;

/// Words are `u32`: does nothing.
fn words_fit(words: &[u32])
    ensures { AllFit words.now }
{
    let _ = words.len();
}

/// A stack has no room for one level more: its levels or its words would be too many.
#[derive(Clone, Copy, PartialEq, Eq, Debug)]
pub struct Full;

/// The levels of a guest thread, the last one on top, and the words of all their registers. Room for all that may be pushed is
/// taken when a stack is made, so neither a push nor a pop takes memory.
#[derive(Drop)]
pub struct Stack {
    pub levels: Vec<Level>,
    pub words: Vec<u32>,
    pub most_levels: u32,
    pub most_words: u32,
}

impl Model for Stack {
    ghost use Rattle.std.specs.Prelude.{reverse, vec_capacity};
    ghost use Rattle.dv_words.specs.State.{WordStack};

    ghost Value = { WordStack };

    ghost use Rattle.dv_frames.specs.Arena.{cut, IsArena};

    ghost view = { λ s. record { levels = cut (reverse s.levels.items) s.words.items; most_levels = s.most_levels; most_words = s.most_words } };

    ghost invariant = { λ s. IsArena s.levels.items s.words.items (vec_capacity s.levels) (vec_capacity s.words) s.most_levels s.most_words };
}

impl Stack {
    /// A stack without a level, with room for so many levels and words of registers.
    ///
    /// # Errors
    ///
    /// Want of memory.
    pub fn new(alloc: Global, levels: u32, words: u32) -> Result<Stack, AllocError>
        ensures { IfOk result (λ s. s ≡ empty levels words) }
    {
        let room = Vec::with_capacity(alloc, levels as usize)?;
        let arena = Vec::with_capacity(alloc, words as usize)?;
        Ok(Stack {
            levels: room,
            words: arena,
            most_levels: levels,
            most_words: words,
        })
    }

    /// Whether there is room for a level with so many words.
    fn check_room(&self, more: usize) -> Result<(), Full>
        ensures room { OnOk result (has_room self.now more ≡ true) }
        ensures full { OnErr result (has_room self.now more ≡ false) }
    {
        if self.levels.len() < self.most_levels as usize
            && more <= (self.most_words as usize).saturating_sub(self.words.len())
        {
            Ok(())
        } else {
            Err(Full)
        }
    }

    /// Pushes the first frame of a method. Its registers are 0, but for the argument words in the last ones; where it has fewer
    /// registers than argument words, these are its registers.
    ///
    /// # Errors
    ///
    /// Full, where the levels or the words would be too many; the stack is as before then.
    pub fn push(&mut self, method: MethodId, registers: u16, args: &[u32]) -> Result<(), Full>
        ensures { IsPushed result self.old (words_level.Code (entered method registers args.now)) self.new }
    {
        let zeros = usize::from(registers).saturating_sub(args.len());
        self.check_room(args.len().max(usize::from(registers)))?;
        let base = self.words.len();
        add_zeros(&mut self.words, zeros);
        add_words(&mut self.words, args);
        let head = begin(method);
        add_level(&mut self.levels, Level::Code { head, base });
        Ok(())
    }

    /// Pushes the first frame of a method, whose argument words are those registers of the frame on top, as a push does.
    ///
    /// # Errors
    ///
    /// Full, where the levels or the words would be too many; the stack is as before then.
    pub fn push_call(&mut self, method: MethodId, registers: u16, args: &Regs) -> Result<(), Full>
        ensures { IsPushed result self.old (words_level.Code (entered method registers (arg_words self.old args.now))) self.new }
    {
        let count = count(args);
        let zeros = usize::from(registers).saturating_sub(count);
        self.check_room(zeros + count)?;
        let end = self.words.len();
        let from = base_of(self.levels.as_slice(), end);
        add_zeros(&mut self.words, zeros);
        add_args(&mut self.words, from, end, args);
        let head = begin(method);
        add_level(&mut self.levels, Level::Code { head, base: end });
        Ok(())
    }

    /// Pushes the record of a class whose initialiser wasn't called yet (JLS 12.4.2).
    ///
    /// # Errors
    ///
    /// Full, where the levels would be too many; the stack is as before then.
    pub fn push_record(&mut self, class: ClassId) -> Result<(), Full>
        ensures { IsPushed result self.old (words_level.Init class false) self.new }
    {
        self.check_room(0)?;
        let running = false;
        add_level(&mut self.levels, Level::Init { class, running });
        Ok(())
    }

    /// Drops the level on top, and says what it was. There is room then to push it again.
    pub fn pop(&mut self) -> Option<Top>
        ensures top { result ≡ top_of (first self.old.levels) }
        ensures popped { self.new ≡ popped self.old }
        ensures room { IfSome (first self.old.levels) (λ l. has_room self.new (size_of l) ≡ true) }
    {
        match self.levels.pop() {
            None => None,
            Some(Level::Code { head, base }) => {
                self.words.truncate(base);
                Some(Top::Code {
                    method: head.method,
                    at: head.at,
                })
            }
            Some(Level::Init { class, running }) => Some(Top::Init { class, running }),
        }
    }

    /// The record on top is running from now on, where that is one.
    pub fn start_record(&mut self)
        ensures { self.new ≡ started self.old }
    {
        start_last(&mut self.levels);
    }

    /// How many levels there are.
    pub fn levels(&self) -> u32
        ensures { result ≡ length self.now.levels }
    {
        self.levels.len() as u32
    }

    /// What is on top.
    pub fn top(&self) -> Option<Top>
        ensures { result ≡ top_of (first self.now.levels) }
    {
        match last(self.levels.as_slice()) {
            None => None,
            Some(Level::Code { head, .. }) => Some(Top::Code {
                method: head.method,
                at: head.at,
            }),
            Some(Level::Init { class, running }) => Some(Top::Init { class, running }),
        }
    }

    /// What the frame on top holds are `u32`s: does nothing. The laws of steps take it.
    #[tactic(auto, using(crate::proofs::Bits::on_top))]
    pub fn top_fits(&self)
        ensures { (f : Activation) → first self.now.levels ≡ Some (words_level.Code f) → IsSmall f }
    {
        words_fit(self.words.as_slice());
        if let Some(Level::Code { head, .. }) = last(self.levels.as_slice()) {
            kept_fits(head.result);
            caught_fits(head.caught);
        }
    }

    /// The method of the frame on top, and the address of its next instruction in units.
    pub fn place(&self) -> (MethodId, u32)
        requires { IsCode (first self.now.levels) }
        ensures { top_of (first self.now.levels) ≡ Some (Top.Code result.0 result.1) }
    {
        match self.head() {
            Some(head) => (head.method, head.at),
            None => unreachable!(),
        }
    }

    /// The head of the frame on top, none where that isn't code.
    pub fn head(&self) -> Option<Head>
        ensures { result ≡ head_of (first self.now.levels) }
    {
        match last(self.levels.as_slice()) {
            Some(Level::Code { head, .. }) => Some(head),
            _ => None,
        }
    }

    /// The registers of the frame on top, none where that isn't code.
    fn registers(&self) -> &[u32]
        ensures { result.now ≡ top_regs self.now.levels }
    {
        let base = base_of(self.levels.as_slice(), self.words.len());
        &self.words[base..]
    }

    /// A register of the frame on top, 0 where there is none.
    pub fn word(&self, reg: u32) -> u32
        ensures { result ≡ word_at (top_regs self.now.levels) reg }
    {
        read(self.registers(), reg as usize)
    }

    /// Writes a register of the frame on top, where it is there.
    pub fn set_word(&mut self, reg: u32, word: u32)
        ensures { self.new ≡ changed (λ f. with_word f reg word) self.old }
    {
        let base = base_of(self.levels.as_slice(), self.words.len());
        write(&mut self.words[base..], reg as usize, word);
    }

    /// Puts another head on the frame on top, where there is one.
    fn set_head(&mut self, head: Head)
        ensures { self.new ≡ changed (λ f. framed head f.regs) self.old }
    {
        set_last(&mut self.levels, head);
    }

    /// The frame on top goes on at an address: no result is kept, and nothing is caught.
    pub fn go(&mut self, at: u32)
        ensures { self.new ≡ changed (λ f. gone f at) self.old }
    {
        if let Some(mut head) = self.head() {
            go(&mut head, at);
            self.set_head(head);
        }
    }

    /// A result is kept for the frame on top.
    pub fn give(&mut self, kept: Kept)
        ensures { self.new ≡ changed (λ f. given_frame f kept) self.old }
    {
        if let Some(head) = self.head() {
            self.set_head(given(head, kept));
        }
    }

    /// The frame on top goes on at a handler that caught an object.
    pub fn enter_handler(&mut self, at: u32, object: u32)
        ensures { self.new ≡ changed (λ f. handling_frame f at object) self.old }
    {
        if let Some(head) = self.head() {
            self.set_head(handling(head, at, object));
        }
    }

    /// The frame on top stands at another address, and keeps all else: an exception of monitor-exit is searched at the next one.
    pub fn move_to(&mut self, at: u32)
        ensures { self.new ≡ changed (λ f. moved f at) self.old }
    {
        if let Some(head) = self.head() {
            self.set_head(Head { at, ..head });
        }
    }

    /// The frame on top becomes this one, which has as many registers.
    pub fn set_top(&mut self, frame: &Frame)
        requires { length (top_regs self.old.levels) ≡ length frame.now.regs }
        ensures { self.new ≡ changed (λ f. frame.now) self.old }
    {
        let base = base_of(self.levels.as_slice(), self.words.len());
        self.words[base..].copy_from_slice(frame.regs.items());
        set_last(&mut self.levels, head_of_frame(frame));
    }

    /// The frame on top.
    ///
    /// # Errors
    ///
    /// Want of memory.
    pub fn copy_top(&self) -> Result<Frame, AllocError>
        requires { IsCode (first self.now.levels) }
        ensures { IfOk result (λ f. first self.now.levels ≡ Some (words_level.Code f)) }
    {
        let Some(head) = self.head() else {
            unreachable!()
        };
        let regs = Vec::from_slice(*self.words.allocator(), self.registers())?;
        Ok(Frame {
            method: head.method,
            at: head.at,
            regs: Seq::of(regs),
            result: head.result,
            caught: head.caught,
        })
    }
}
