// The rule of the place in which the machine lies, and what each step on it tells.
ghost use Rattle.dv_workers.specs.Rule.{Kept, Puts, Takes, aside};
ghost use Rattle.dv_workers.specs.Seats.{names_of};

use crate::began::Began;
use crate::desk::Desk;
use crate::view::View;
use atomic_table::{Play, Split, TableRule};
use dv_io::Sink;
use dv_sound::SafeVm;
use std::snapshot::Snapshot;

/// What lies in the place, so that a seat takes no more than its address.
pub type Held<'v, K, L> = Box<Desk<'v, K, L>>;

/// What a table is told when it is made: the machine, as it is then.
pub type Key<'v> = Snapshot<SafeVm<'v>>;

pub struct Law;

impl<'v, K: Sink, L: Began> TableRule<Option<Held<'v, K, L>>, View, Key<'v>> for Law {
    ghost holds = { λ k s. Kept (λ d. names_of d.value.vm) (names_of k.value) s };

    ghost first = { λ k. aside (names_of k.value) };
}

pub struct Take;

impl<'v, K: Sink, L: Began> Play<Option<Held<'v, K, L>>, View> for Take {
    ghost then = { Takes (λ d. names_of d.value.vm) };
}

pub struct Put;

impl<'v, K: Sink, L: Began> Play<Option<Held<'v, K, L>>, View> for Put {
    ghost then = { Puts (λ d. names_of d.value.vm) };
}

/// A second seat beside one that doesn't hold.
pub struct Cut;

impl Split<View> for Cut {
    ghost left = { λ v. v };

    ghost right = { λ v. v };
}
