// How a call began, for contracts alone. Each call picks it.
ghost use Rattle.std.specs.Prelude.{ℕ, List, Option, None};

use std::marker::Brand;
use std::sync::ledger::Ledger;

/// What the sink of a call had taken, and how many faults it had counted, when the call began. It stands beside the ledger of the turns.
pub trait Began: Ledger {
    ghost taken: { Option (List ℕ) };

    ghost faults: { ℕ };
}

impl Began for Brand {
    ghost taken = { None };

    ghost faults = { 0 };
}
