// Monitors, their owners, and the threads that wait.
ghost use Rattle.std.specs.Prelude.{◌≡◌, ◌≢◌, ◌-◌, ◌^◌, ◌<◌, ◌↔◌, IfErr, IfOk, IfSome, IsOk, IsSome, IsSomeAnd, IsTrue, None, OnErr, OnOk, Some};
ghost use Rattle.std.specs.Option.{ForSome, option_map};
ghost use Rattle.dv_machine.specs.Monitors.{entered, exited, notified_all, notified_one, owner_of, resumed, wait_of, waiting};
ghost use Rattle.dv_monitor.specs.Entering.{entry_for};
ghost use Rattle.dv_monitor.specs.Errors.{RefusesWait};
ghost use Rattle.dv_monitor.specs.State.{count_of, no_monitors};
ghost use Rattle.dv_monitor.specs.Waits.{wait_value};

use crate::entry::Entry;
use crate::errors::{MonitorError, NotOwner};
use crate::holdings::Holdings;
use crate::wait::Wait;
use crate::waits;
use std::alloc::{AllocError, Global};
use std::marker::Model;

/// The monitors that threads own, and the threads that wait. To a contract they are the monitors as a value, and whether there is room for one
/// call that may want memory: `ready`. A thread that waits keeps the room for its monitor, so that it can take it back without memory.
#[derive(Drop)]
pub struct Monitors {
    held: Holdings,
    waits: Vec<Wait>,
}

impl Model for Monitors {
    ghost use Rattle.std.specs.Prelude.{◌≤◌, ◌&&◌, nat_lt, vec_capacity, vec_len};
    ghost use Rattle.dv_monitor.specs.State.{MonitorState};
    ghost use Rattle.dv_monitor.specs.Waits.{wait_values};

    ghost Value = { MonitorState };

    ghost view = { λ m. record {
      monitors = record { held = m.held.held; waits = wait_values m.waits.items };
      ready = nat_lt (vec_len m.waits) m.held.room && nat_lt (vec_len m.waits) (vec_capacity m.waits);
    } };

    ghost invariant = { λ m. vec_len m.waits ≤ m.held.room };
}

impl Monitors {
    /// No monitor is owned, and no thread waits.
    pub fn new(alloc: Global) -> Monitors
        ensures { result.monitors ≡ no_monitors }
    {
        Monitors {
            held: Holdings::new(alloc),
            waits: Vec::new(alloc),
        }
    }

    /// Makes room for one `enter`, `try_enter` or `wait`.
    pub fn reserve(&mut self) -> Result<(), AllocError>
        ensures ok { OnOk result (IsTrue self.new.ready) }
        ensures unchanged { self.new.monitors ≡ self.old.monitors }
        ensures succeeds { IsTrue self.old.ready → IsOk result }
    {
        self.waits.reserve(1)?;
        self.held.reserve(self.waits.len() + 1)
    }

    /// Enters a monitor that is free, or that the thread owns already (JLS 17.1).
    pub fn enter(&mut self, object: u32, thread: u32) -> Result<(), AllocError>
        requires free_or_owned { ForSome (owner_of self.old.monitors object) (λ owner. owner ≡ thread) }
        requires countable { count_of self.old.monitors object < 2 ^ 64 - 1 }
        ensures ok { OnOk result (self.new.monitors ≡ entered self.old.monitors object thread 1) }
        ensures err { OnErr result (self.new.monitors ≡ self.old.monitors) }
        ensures ready { IsTrue self.old.ready → IsOk result }
        ensures owned { owner_of self.old.monitors object ≡ Some thread → IsOk result }
    {
        if self.held.enter_again(object, thread) {
            return Ok(());
        }
        self.reserve()?;
        self.held.add(object, thread, 1);
        Ok(())
    }

    /// Enters a monitor that is free, or that the thread owns already and hasn't entered 2^64 - 1 times; else it tells why not, and nothing changes. Only a
    /// free one may want memory (JLS 17.1).
    pub fn try_enter(&mut self, object: u32, thread: u32) -> Result<Entry, AllocError>
        ensures entry { IfOk result (λ entry. entry ≡ entry_for self.old.monitors object thread) }
        ensures entered { IfOk result (λ entry. entry ≡ Entry.Entered → self.new.monitors ≡ entered self.old.monitors object thread 1) }
        ensures unchanged { IfOk result (λ entry. entry ≢ Entry.Entered → self.new ≡ self.old) }
        ensures err { OnErr result (self.new.monitors ≡ self.old.monitors) }
        ensures ready { IsTrue self.old.ready → IsOk result }
        ensures owned { IsSome (owner_of self.old.monitors object) → IsOk result }
    {
        if let Some(entry) = self.held.try_again(object, thread) {
            return Ok(entry);
        }
        self.reserve()?;
        self.held.add(object, thread, 1);
        Ok(Entry::Entered)
    }

    /// Undoes one entering. Takes no memory (JLS 17.1).
    pub fn exit(&mut self, object: u32, thread: u32) -> Result<(), NotOwner>
        ensures owner { IsOk result ↔ (owner_of self.old.monitors object ≡ Some thread) }
        ensures ok { OnOk result (self.new.monitors ≡ exited self.old.monitors object) }
        ensures refused { IfErr result (λ refused. refused.owner ≡ owner_of self.old.monitors object) }
        ensures err { OnErr result (self.new ≡ self.old) }
        ensures ready { IsTrue self.old.ready → IsTrue self.new.ready }
    {
        self.held.exit(object, thread)
    }

    /// Gives the monitor up, however often it was entered, and lets the thread wait (JLS 17.2.1).
    pub fn wait(&mut self, object: u32, thread: u32) -> Result<(), MonitorError>
        requires idle { wait_of self.old.monitors thread ≡ None }
        ensures owner { OnOk result (owner_of self.old.monitors object ≡ Some thread) }
        ensures ok { OnOk result (self.new.monitors ≡ waiting self.old.monitors object thread (count_of self.old.monitors object)) }
        ensures refused { IfErr result (RefusesWait self.old object thread) }
        ensures err { OnErr result (self.new.monitors ≡ self.old.monitors) }
    {
        let count = self.count_for(object, thread)?;
        self.reserve()?;
        self.held.give_up(object);
        self.waits.push_reserved(Wait {
            thread,
            object,
            kept: count,
            notified: false,
        });
        Ok(())
    }

    /// Notifies the thread that waits longest for the object and isn't notified yet, if there is one. Takes no memory (JLS 17.2.2).
    pub fn notify(&mut self, object: u32, thread: u32) -> Result<(), NotOwner>
        ensures owner { IsOk result ↔ (owner_of self.old.monitors object ≡ Some thread) }
        ensures ok { OnOk result (self.new.monitors ≡ notified_one self.old.monitors object) }
        ensures refused { IfErr result (λ refused. refused.owner ≡ owner_of self.old.monitors object) }
        ensures err { OnErr result (self.new ≡ self.old) }
        ensures ready { self.new.ready ≡ self.old.ready }
    {
        self.count_for(object, thread)?;
        waits::notify_oldest(&mut self.waits, object);
        Ok(())
    }

    /// Notifies all threads that wait for the object. Takes no memory (JLS 17.2.2).
    pub fn notify_all(&mut self, object: u32, thread: u32) -> Result<(), NotOwner>
        ensures owner { IsOk result ↔ (owner_of self.old.monitors object ≡ Some thread) }
        ensures ok { OnOk result (self.new.monitors ≡ notified_all self.old.monitors object) }
        ensures refused { IfErr result (λ refused. refused.owner ≡ owner_of self.old.monitors object) }
        ensures err { OnErr result (self.new ≡ self.old) }
        ensures ready { self.new.ready ≡ self.old.ready }
    {
        self.count_for(object, thread)?;
        waits::notify_all(&mut self.waits, object);
        Ok(())
    }

    /// Lets a notified thread take the free monitor back as often as it had it. Takes no memory (JLS 17.2.1).
    pub fn resume(&mut self, object: u32, thread: u32)
        requires notified { IsSomeAnd (wait_of self.old.monitors thread) (λ wait. (wait.object ≡ object) × IsTrue wait.notified) }
        requires free { owner_of self.old.monitors object ≡ None }
        ensures resumed { IfSome (wait_of self.old.monitors thread) (λ wait. self.new.monitors ≡ resumed self.old.monitors wait) }
        ensures ready { IsTrue self.old.ready → IsTrue self.new.ready }
    {
        let wait = waits::take(&mut self.waits, thread);
        self.held.add(object, thread, wait.kept);
    }

    /// The thread that owns an object's monitor.
    pub fn owner(&self, object: u32) -> Option<u32>
        ensures { result ≡ owner_of self.now.monitors object }
    {
        Some(self.held.get(object)?.thread)
    }

    /// How often the owner has entered an object's monitor, 0 where it is free.
    pub fn count(&self, object: u32) -> u64
        ensures { result ≡ count_of self.now.monitors object }
    {
        match self.held.get(object) {
            Some(holding) => holding.count,
            None => 0,
        }
    }

    /// Whether the thread waits.
    pub fn waiting(&self, thread: u32) -> bool
        ensures { IsTrue result ↔ IsSome (wait_of self.now.monitors thread) }
    {
        self.wait_of(thread).is_some()
    }

    /// Whether the thread waits and was notified.
    pub fn notified(&self, thread: u32) -> bool
        ensures { IsTrue result ↔ IsSomeAnd (wait_of self.now.monitors thread) (λ wait. IsTrue wait.notified) }
    {
        match self.wait_of(thread) {
            Some(wait) => wait.notified,
            None => false,
        }
    }

    /// What the thread waits for.
    pub fn wait_of(&self, thread: u32) -> Option<Wait>
        ensures { option_map wait_value result ≡ wait_of self.now.monitors thread }
    {
        waits::find(&self.waits, thread)
    }

    // How often the owner has entered the monitor.
    fn count_for(&self, object: u32, thread: u32) -> Result<u64, NotOwner>
        ensures owner { IsOk result ↔ (owner_of self.now.monitors object ≡ Some thread) }
        ensures refused { IfErr result (λ refused. refused.owner ≡ owner_of self.now.monitors object) }
        ensures count { IfOk result (λ count. count ≡ count_of self.now.monitors object) }
    {
        let Some(holding) = self.held.get(object) else {
            return Err(NotOwner { owner: None });
        };
        if holding.thread != thread {
            return Err(NotOwner {
                owner: Some(holding.thread),
            });
        }
        Ok(holding.count)
    }
}
