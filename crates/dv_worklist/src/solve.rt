// The worklist.
ghost use Rattle.std.specs.Prelude.{◌≡◌, ◌<◌, IfOk, OnOk, length, None, replicate};
ghost use Rattle.dv_worklist.specs.Flow.{AllFit, IsLawful, IsLeast, assigned};
ghost use Rattle.dv_worklist.specs.Work.{IsArrival, IsMore, IsPartly, IsTurn, busy_at, goes_on, none_busy, states_after, waiting_after};

use crate::flows::Flow;
use crate::onwards::Onwards;
use crate::waiting::Waiting;
use std::alloc::{AllocError, Global};

/// The least closed assignment, by place. Of the places that wait the lowest goes first, so that straight flow is gone through once.
pub fn least<F: Flow>(flow: &F, alloc: Global) -> Result<Vec<Option<F::State>>, AllocError>
    requires some { 0 < (F.graph flow.now).size }
    requires lawful { IsLawful (F.graph flow.now) (F.fits flow.now) (F.rank flow.now) (F.top flow.now) }
    ensures length { IfOk result (λ v. length v.items ≡ (F.graph flow.now).size) }
    ensures fits { IfOk result (λ v. AllFit (F.fits flow.now) (assigned v.items)) }
    ensures least { IfOk result (λ v. IsLeast (F.graph flow.now) (assigned v.items)) }
{
    let mut states = no_states(flow, alloc)?;
    let mut waiting = Waiting::none(alloc, flow.size())?;
    let entry = flow.entry()?;
    raise(flow, &mut states, &mut waiting, 0, &entry)?;
    let mut left = flow.patience();
    while let Some(place) = waiting.take() {
        left = left.saturating_sub(flow.work(place));
        turn(flow, alloc, &mut states, &mut waiting, &mut left, place)?;
    }
    Ok(states)
}

// No place has a state.
fn no_states<F: Flow>(flow: &F, alloc: Global) -> Result<Vec<Option<F::State>>, AllocError>
    ensures { IfOk result (λ v. v.items ≡ replicate (F.graph flow.now).size None) }
{
    let mut nothing = Vec::new(alloc);
    for _ in 0..flow.size() {
        nothing.push(None)?;
    }
    Ok(nothing)
}

// Raises by all that goes on from a place. `left` is the work that is left before more is asked for.
fn turn<F: Flow>(
    flow: &F,
    alloc: Global,
    states: &mut Vec<Option<F::State>>,
    waiting: &mut Waiting,
    left: &mut usize,
    place: usize,
) -> Result<(), AllocError>
    requires place { place < (F.graph flow.now).size }
    requires lawful { IsLawful (F.graph flow.now) (F.fits flow.now) (F.rank flow.now) (F.top flow.now) }
    requires partly { IsPartly (F.graph flow.now) (F.fits flow.now) (busy_at place states.old.items) states.old.items waiting.old }
    ensures { OnOk result (IsTurn (F.graph flow.now) (F.fits flow.now) (F.rank flow.now) (F.top flow.now) none_busy states.old.items waiting.old states.new.items waiting.new) }
{
    let all = going_on(flow, alloc, states, place)?;
    for index in 0..all.len() {
        let (to, state) = all.get(index);
        arrive(flow, states, waiting, left, to, state)?;
    }
    Ok(())
}

// Raises the state of a place by what arrives there, and, once much work was done, by what that implies.
fn arrive<F: Flow>(
    flow: &F,
    states: &mut Vec<Option<F::State>>,
    waiting: &mut Waiting,
    left: &mut usize,
    place: usize,
    state: &F::State,
) -> Result<(), AllocError>
    requires place { place < (F.graph flow.now).size }
    requires lawful { IsLawful (F.graph flow.now) (F.fits flow.now) (F.rank flow.now) (F.top flow.now) }
    requires long { length states.old.items ≡ (F.graph flow.now).size }
    requires flagged { length waiting.old ≡ (F.graph flow.now).size }
    requires all { AllFit (F.fits flow.now) (assigned states.old.items) }
    requires fits { F.fits flow.now place state.now }
    ensures { OnOk result (IsArrival (F.graph flow.now) (F.fits flow.now) states.old.items waiting.old place state.now states.new.items waiting.new) }
{
    if *left > 0 {
        raise(flow, states, waiting, place, state)?;
        return Ok(());
    }
    let more = implied(flow, states, place, state)?;
    if raise(flow, states, waiting, place, state)? {
        *left = flow.patience();
    }
    if let Some(more) = more {
        raise(flow, states, waiting, place, &more)?;
    }
    Ok(())
}

// What the state of a place and another imply there, if that is known.
fn implied<F: Flow>(
    flow: &F,
    states: &[Option<F::State>],
    place: usize,
    state: &F::State,
) -> Result<Option<F::State>, AllocError>
    requires place { place < (F.graph flow.now).size }
    requires long { length states.now ≡ (F.graph flow.now).size }
    requires all { AllFit (F.fits flow.now) (assigned states.now) }
    requires fits { F.fits flow.now place state.now }
    ensures { IfOk result (IsMore (F.graph flow.now) (F.fits flow.now) states.now place state.now) }
{
    match &states[place] {
        Some(old) => flow.accelerate(place, old, state),
        None => Ok(None),
    }
}

// What goes on from a place.
fn going_on<F: Flow>(
    flow: &F,
    alloc: Global,
    states: &[Option<F::State>],
    place: usize,
) -> Result<Onwards<F::State>, AllocError>
    requires place { place < (F.graph flow.now).size }
    requires long { length states.now ≡ (F.graph flow.now).size }
    requires fits { AllFit (F.fits flow.now) (assigned states.now) }
    ensures { IfOk result (λ onwards. onwards ≡ goes_on (F.graph flow.now) place (assigned states.now place)) }
{
    match &states[place] {
        Some(state) => flow.onward(place, state),
        None => Ok(Onwards::none(alloc)),
    }
}

// Raises the state of a place, which then waits, unless that state is above `state` already. Tells whether it rose.
fn raise<F: Flow>(
    flow: &F,
    states: &mut Vec<Option<F::State>>,
    waiting: &mut Waiting,
    place: usize,
    state: &F::State,
) -> Result<bool, AllocError>
    requires place { place < length states.old.items }
    requires flag { place < length waiting.old }
    requires all { AllFit (F.fits flow.now) (assigned states.old.items) }
    requires fits { F.fits flow.now place state.now }
    ensures states { OnOk result (states.new.items ≡ states_after (F.graph flow.now) states.old.items place state.now) }
    ensures waiting { OnOk result (waiting.new ≡ waiting_after (F.graph flow.now) states.old.items waiting.old place state.now) }
{
    let slot = &mut states[place];
    let rose = match slot {
        Some(old) => flow.raise(place, old, state)?,
        None => {
            *slot = Some(flow.copy(state)?);
            true
        }
    };
    if rose {
        waiting.add(place);
    }
    Ok(rose)
}
