// How often states can rise, and that their joins fit.
ghost use Rattle.law_flow.specs.Laws.{StatesRiseInRank, RanksAreBounded, JoinsFit};

/// A state above another is the same or ranks less.
#[tactic(auto, using(crate::proofs::StateRanks::states_rise_in_rank))]
pub fn states_rise_in_rank()
    ensures law { StatesRiseInRank }
{}

/// No state that fits ranks higher than its registers allow.
#[tactic(auto, using(crate::proofs::StateRanks::ranks_are_bounded))]
pub fn ranks_are_bounded()
    ensures law { RanksAreBounded }
{}

/// The join of two states that fit fits.
#[tactic(auto, using(crate::proofs::JoinsFit::joins_fit))]
pub fn joins_fit()
    ensures law { JoinsFit }
{}
