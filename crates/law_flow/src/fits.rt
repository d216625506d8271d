//! What fits goes on fitting: the state on entry to a method, what an instruction makes of a state, and the state in which a
//! handler is entered.

ghost use Rattle.law_flow.specs.Laws.{EntriesFit, TransferFits, CaughtStatesFit};

/// The state on entry to a method fits.
#[tactic(auto, using(crate::proofs::EntriesFit::entries_fit))]
pub fn entries_fit()
    ensures law { EntriesFit }
{}

/// What an instruction makes of a state that fits, fits.
pub fn transfer_fits()
    ensures law { TransferFits }
{}

/// So does the state in which a handler is entered.
pub fn caught_states_fit()
    ensures law { CaughtStatesFit }
{}
