// What the contract of a step takes of its operands holds wherever code is accepted.
ghost use Rattle.dv_mem.specs.Laws.{OperandsStand};

/// Operands are what the operations take, in words that stand for a well-typed state of an accepted image: arrays are arrays of such elements,
/// objects and static fields have words for their fields, and a division is one.
pub fn operands_stand()
    ensures law { OperandsStand }
{}
