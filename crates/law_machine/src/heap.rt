// The laws of the heap: objects that are added, cells that are stored.
ghost use Rattle.law_machine.specs.StepLaws.{ObjectIsAdded, ArrayIsAdded, StringIsAdded, StringIsInterned, ClassObjectIsGot, GrowthKeeps, StoreKeeps, StaticStoreKeeps, HeapStepsAreFine};

/// A new object leaves the heap in order, and all that was there as it was.
pub fn objects_are_added()
    ensures object { ObjectIsAdded }
    ensures array { ArrayIsAdded }
    ensures string { StringIsAdded }
{}

/// An interned string and a Class object are found again, or added.
pub fn looked_up_objects_are_added()
    ensures string { StringIsInterned }
    ensures class { ClassObjectIsGot }
{}

/// A well-typed state stays so as objects are added.
pub fn growth_keeps()
    ensures law { GrowthKeeps }
{}

/// A store of a value that fits leaves the heap in order, and each object of its kind.
pub fn stores_keep()
    ensures cell { StoreKeeps }
    ensures field { StaticStoreKeeps }
{}

/// An instruction on objects, arrays and fields, a division, a cast or a throw is fine.
pub fn heap_steps_are_fine()
    ensures law { HeapStepsAreFine }
{}
