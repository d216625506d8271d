// What goes on from a place.
ghost use Rattle.std.specs.Prelude.{◌≡◌, ◌<◌, ◌∷◌, ◌++◌, ℕ, [], OnOk, Some, length, map, slice_get};
ghost use Rattle.dv_worklist.specs.Numbered.{AreWithin, way_to};

use std::alloc::{AllocError, Global};
use std::marker::Model;

/// States, and the places to which they go. A state that goes to many places stands here once.
#[derive(Drop)]
pub struct Onwards<S> {
    states: Vec<S>,
    ways: Vec<Way>,
}

/// A place, and the number of the state that goes there.
#[derive(Clone, Copy)]
pub struct Way {
    to: usize,
    state: usize,
}

impl<S> Model for Onwards<S> {
    ghost use Rattle.std.specs.Prelude.{List, length};
    ghost use Rattle.dv_worklist.specs.Flow.{Onward};
    ghost use Rattle.dv_worklist.specs.Numbered.{onwards_of, AreWithin};

    ghost Value = { List (Onward S) };

    ghost view = { λ o. onwards_of o.states.items o.ways.items };

    ghost invariant = { λ o. AreWithin (length o.states.items) o.ways.items };
}

impl<S: Drop> Onwards<S> {
    /// Nothing goes on.
    pub fn none(alloc: Global) -> Onwards<S>
        ensures { result ≡ [] }
    {
        Onwards {
            states: Vec::new(alloc),
            ways: Vec::new(alloc),
        }
    }

    /// Adds a state that goes to a place.
    pub fn push(&mut self, to: usize, state: S) -> Result<(), AllocError>
        ensures { OnOk result (self.new ≡ self.old ++ record { to = to; state = state } ∷ []) }
    {
        let number = self.states.len();
        self.states.push(state)?;
        self.ways.push(Way { to, state: number })?;
        Ok(())
    }

    /// Adds a state that goes to each of these places.
    pub fn push_all(&mut self, places: &[u32], state: S) -> Result<(), AllocError>
        ensures { OnOk result (self.new ≡ self.old ++ map (λ to. record { to = to; state = state }) places.now) }
    {
        let number = self.states.len();
        self.states.push(state)?;
        push_ways(&mut self.ways, places, number)
    }

    /// How often a state goes to a place.
    pub fn len(&self) -> usize
        ensures { result ≡ length self.now }
    {
        self.ways.len()
    }

    /// A place, and the state that goes there.
    pub fn get(&self, index: usize) -> (usize, &S)
        requires { index < length self.now }
        ensures { slice_get self.now index ≡ Some (record { to = result.0; state = result.1.now }) }
    {
        let way = self.ways[index];
        (way.to, &self.states[way.state])
    }
}

// Adds ways to places for a state.
fn push_ways(ways: &mut Vec<Way>, places: &[u32], state: usize) -> Result<(), AllocError>
    ensures ways { OnOk result (ways.new.items ≡ ways.old.items ++ map (way_to state) places.now) }
    ensures within { (n : ℕ) → AreWithin n ways.old.items → state < n → AreWithin n ways.new.items }
{
    for place in places {
        ways.push(Way {
            to: *place as usize,
            state,
        })?;
    }
    Ok(())
}
