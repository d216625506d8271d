// The monitors that are owned.
ghost use Rattle.std.specs.Prelude.{◌≡◌, ◌≢◌, ◌+◌, ◌-◌, ◌^◌, ◌<◌, ◌≤◌, ◌↔◌, IfErr, IsOk, IsSome, IsTrue, None, OnErr, OnOk, Some, [], false};
ghost use Rattle.std.specs.Option.{ForSome, option_map};
ghost use Rattle.dv_machine.specs.Monitors.{entered_in, exited_in, given_up, held_in};
ghost use Rattle.dv_monitor.specs.Entering.{entry_again};
ghost use Rattle.dv_monitor.specs.Slots.{held_value, owner_in};

use crate::entry::Entry;
use crate::errors::NotOwner;
use crate::holding::Holding;
use crate::slots::{Places, find, note, take_out};
use std::alloc::{AllocError, Global};
use std::collections::HashMap;
use std::marker::Model;

/// The monitors that are owned, in the order of their first entering. A monitor is found by its object.
#[derive(Drop)]
pub struct Holdings {
    slots: Vec<Option<Holding>>,
    places: Places,
}

impl Model for Holdings {
    ghost use Rattle.std.specs.Prelude.{◌-◌, min, nat_eq, vec_capacity, vec_len};
    ghost use Rattle.std.specs.HashMap.{get, spare};
    ghost use Rattle.dv_monitor.specs.Slots.{HeldList, IsIndexed, present};

    ghost Value = { HeldList };

    ghost view = { λ h. record { held = present h.slots.items; room = min (vec_capacity h.slots - vec_len h.slots) (spare h.places) } };

    ghost invariant = { λ h. IsIndexed h.slots.items (get nat_eq h.places) };
}

impl Holdings {
    /// None is owned.
    pub fn new(alloc: Global) -> Holdings
        ensures { result.held ≡ [] }
    {
        Holdings {
            slots: Vec::new(alloc),
            places: HashMap::new(alloc),
        }
    }

    /// Makes room for so many more.
    pub fn reserve(&mut self, additional: usize) -> Result<(), AllocError>
        ensures held { self.new.held ≡ self.old.held }
        ensures ok { OnOk result (additional ≤ self.new.room) }
        ensures room { self.old.room ≤ self.new.room }
        ensures succeeds { additional ≤ self.old.room → IsOk result }
    {
        self.slots.reserve(additional)?;
        self.places.reserve(additional)
    }

    /// The monitor of an object, if a thread owns it.
    pub fn get(&self, object: u32) -> Option<Holding>
        ensures { option_map held_value result ≡ held_in self.now.held object }
    {
        let (_, holding) = find(&self.slots, &self.places, object)?;
        Some(holding)
    }

    /// Counts a monitor up, if a thread owns it.
    pub fn enter_again(&mut self, object: u32, thread: u32) -> bool
        requires countable { ForSome (held_in self.old.held object) (λ held. held.count < 2 ^ 64 - 1) }
        ensures owned { IsTrue result ↔ IsSome (held_in self.old.held object) }
        ensures entered { IsTrue result → self.new.held ≡ entered_in self.old.held object thread 1 }
        ensures unchanged { result ≡ false → self.new ≡ self.old }
        ensures room { self.new.room ≡ self.old.room }
    {
        let Some((place, holding)) = find(&self.slots, &self.places, object) else {
            return false;
        };
        self.slots[place] = Some(Holding {
            thread,
            count: holding.count + 1,
            ..holding
        });
        true
    }

    /// Counts a monitor up for a thread that owns it, but for one that is counted 2^64 - 1 times. None where no thread owns it.
    pub fn try_again(&mut self, object: u32, thread: u32) -> Option<Entry>
        ensures entry { result ≡ option_map (entry_again thread) (held_in self.old.held object) }
        ensures entered { result ≡ Some Entry.Entered → self.new.held ≡ entered_in self.old.held object thread 1 }
        ensures unchanged { result ≢ Some Entry.Entered → self.new ≡ self.old }
        ensures room { self.new.room ≡ self.old.room }
    {
        let (place, holding) = find(&self.slots, &self.places, object)?;
        if thread != holding.thread {
            return Some(Entry::Taken);
        }
        if holding.count == u64::MAX {
            return Some(Entry::Full);
        }
        let count = holding.count + 1;
        self.slots[place] = Some(Holding { count, ..holding });
        Some(Entry::Entered)
    }

    /// Adds a monitor that no thread owns.
    pub fn add(&mut self, object: u32, thread: u32, count: u64)
        requires free { held_in self.old.held object ≡ None }
        requires room { 0 < self.old.room }
        ensures added { self.new.held ≡ entered_in self.old.held object thread count }
        ensures room { self.old.room ≤ self.new.room + 1 }
    {
        note(&mut self.places, object, self.slots.len());
        self.slots.push_reserved(Some(Holding {
            object,
            thread,
            count,
        }));
    }

    /// Takes a monitor out, however often it was entered.
    pub fn give_up(&mut self, object: u32)
        ensures held { self.new.held ≡ given_up self.old.held object }
        ensures room { self.old.room ≤ self.new.room }
    {
        let Some((place, _)) = find(&self.slots, &self.places, object) else {
            return;
        };
        take_out(&mut self.slots, &mut self.places, object, place);
    }

    /// Counts a monitor down for its owner; at the last time it is free.
    pub fn exit(&mut self, object: u32, thread: u32) -> Result<(), NotOwner>
        ensures owner { IsOk result ↔ (owner_in self.old.held object ≡ Some thread) }
        ensures refused { IfErr result (λ refused. refused.owner ≡ owner_in self.old.held object) }
        ensures ok { OnOk result (self.new.held ≡ exited_in self.old.held object) }
        ensures err { OnErr result (self.new ≡ self.old) }
        ensures room { self.old.room ≤ self.new.room }
    {
        let Some((place, holding)) = find(&self.slots, &self.places, object) else {
            return Err(NotOwner { owner: None });
        };
        if holding.thread != thread {
            return Err(NotOwner {
                owner: Some(holding.thread),
            });
        }
        if holding.count <= 1 {
            take_out(&mut self.slots, &mut self.places, object, place);
        } else {
            self.slots[place] = Some(Holding {
                count: holding.count - 1,
                ..holding
            });
        }
        Ok(())
    }
}
