// Verified images.

use dv_defs::{Image, Seq};
use dv_typing::RegState;
use std::marker::Model;

/// A state for some of a method's addresses, by address: the registers' types before the instruction there.
#[derive(Drop)]
pub struct Map {
    pub states: Seq<Option<RegState>>,
}

/// An image that the verifier accepts, with a typing of each of its methods, by number. A method without a body has an empty map.
#[derive(Drop)]
pub struct Verified {
    pub image: Image,
    pub maps: Seq<Map>,
}

impl Model for Verified {
    ghost use Rattle.dv_rules.specs.Verified.{VerifiedValue, IsVerified};

    ghost Value = { VerifiedValue };

    ghost view = { λ v. record { image = v.image; maps = v.maps } };

    ghost invariant = { λ v. IsVerified v.image v.maps };
}
