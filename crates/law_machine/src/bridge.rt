// The laws of decoding and acceptance: what look-ups find, and the records that acceptance gives.
ghost use Rattle.law_machine.specs.Laws.{DecodingInvertsSpelling, AcceptanceGivesRecords, LookUpsFind};
ghost use Rattle.law_machine.specs.Bridge.{BridgeHolds};

/// An instruction stands where its spelling does.
pub fn decoding_inverts_spelling()
    ensures law { DecodingInvertsSpelling }
{}

/// What look-ups find has the number, name, prototype and class that were asked for, and what is selected can be run, in any image.
#[tactic(auto, using(crate::proofs::lemmas::Bridge::Selected::look_ups_find))]
pub fn look_ups_find()
    ensures law { LookUpsFind }
{}

/// Acceptance gives a typing of each method, with what the verifier found at each address.
#[tactic(auto, using(crate::proofs::lemmas::Bridge::Records::acceptance_gives_records))]
pub fn acceptance_gives_records()
    ensures law { AcceptanceGivesRecords }
{}

/// A linked image that the verifier accepts is what the laws take.
#[tactic(auto, using(crate::proofs::lemmas::Bridge::Laws::bridge_holds))]
pub fn bridge_holds()
    ensures law { BridgeHolds }
{}
