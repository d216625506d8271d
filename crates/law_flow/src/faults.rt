//! There is one list of faults at most.
ghost use Rattle.law_flow.specs.Laws.{StatesAreAntisymmetric, FaultsAreOne, ImageFaultsAreOne};

/// Two states under each other are one.
#[tactic(auto, using(crate::proofs::StatesLaw::states_are_antisymmetric))]
pub fn states_are_antisymmetric()
    ensures law { StatesAreAntisymmetric }
{}

/// One list of faults at most is a method's.
#[tactic(auto, using(crate::proofs::FaultsLaw::faults_are_one))]
pub fn faults_are_one()
    ensures law { FaultsAreOne }
{}

/// One list of faults at most is an image's.
#[tactic(auto, using(crate::proofs::FaultsLaw::image_faults_are_one))]
pub fn image_faults_are_one()
    ensures law { ImageFaultsAreOne }
{}
