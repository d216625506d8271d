// What the worklist asks of states and places.
ghost use Rattle.std.specs.Prelude.{◌≡◌, ◌<◌, ℕ, IfOk, IfSome, OnOk, Some, cond};
ghost use Rattle.dv_worklist.specs.Work.{raised, rises};
ghost use Rattle.dv_worklist.specs.Flow.{Flow as Graph, IsImplied};

use crate::onwards::Onwards;
use std::alloc::AllocError;

/// States that go on from place to place. No place is numbered `size` or more.
pub trait Flow {
    type State: Drop;

    ghost graph: { Self → Graph Self.State };

    ghost fits: { Self → ℕ → Self.State → Type 0 };

    ghost rank: { Self → Self.State → ℕ };

    ghost top: { Self → ℕ };

    fn size(&self) -> usize
        ensures { result ≡ (graph self.now).size };

    /// The state with which the first place is entered.
    fn entry(&self) -> Result<Self::State, AllocError>
        ensures { IfOk result (λ s. s ≡ (graph self.now).entry) };

    /// What goes on from a place with a state.
    fn onward(&self, place: usize, state: &Self::State) -> Result<Onwards<Self::State>, AllocError>
        requires place { place < (graph self.now).size }
        requires fits { fits self.now place state.now }
        ensures { IfOk result (λ onwards. onwards ≡ (graph self.now).onward place state.now) };

    /// A copy of a state.
    fn copy(&self, state: &Self::State) -> Result<Self::State, AllocError>
        ensures { IfOk result (λ s. s ≡ state.now) };

    /// Raises a state to the least one above it and another that fits the same place, and tells whether it rose.
    fn raise(
        &self,
        place: usize,
        state: &mut Self::State,
        by: &Self::State,
    ) -> Result<bool, AllocError>
        requires state { fits self.now place state.old }
        requires by { fits self.now place by.now }
        ensures rose { IfOk result (λ rose. rose ≡ rises (graph self.now) (Some state.old) by.now) }
        ensures state { OnOk result (state.new ≡ cond (rises (graph self.now) (Some state.old) by.now) (raised (graph self.now) (Some state.old) by.now) state.old) };

    /// How much work a turn at a place is, in the measure of `patience`.
    fn work(&self, place: usize) -> usize;

    /// How much work is done before `accelerate` is asked: about as much as its answer may take.
    fn patience(&self) -> usize;

    /// A state that each closed assignment is above at a place where it is above a state and another, if one is known: what would rise step by step
    /// is there at once.
    fn accelerate(
        &self,
        place: usize,
        state: &Self::State,
        by: &Self::State,
    ) -> Result<Option<Self::State>, AllocError>
        requires place { place < (graph self.now).size }
        requires state { fits self.now place state.now }
        requires by { fits self.now place by.now }
        ensures { IfOk result (λ more. IfSome more (IsImplied (graph self.now) (fits self.now) place state.now by.now)) };
}
