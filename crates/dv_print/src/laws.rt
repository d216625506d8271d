// The laws of labels, and of drafts and their layout.
ghost use Rattle.dv_print.specs.Laws.{LabelsAreDistinct, LayoutIsTiled, DraftKeepsEntries, DraftKeepsAddresses, LabelsLead, DraftIsKept, DraftIsAssembled, RangesAreSorted};

/// No two addresses have the same label.
pub fn labels_are_distinct()
    ensures { LabelsAreDistinct }
{}

/// The units of a draft whose items aren't refused are its instructions and payloads, each at its address, and nops
/// before payloads.
pub fn layout_is_tiled()
    ensures { LayoutIsTiled }
{}

/// The draft that is made of a laid-out body names the entries that the draft before it names, in the same order, so
/// its pools are the same.
pub fn draft_keeps_entries()
    ensures { DraftKeepsEntries }
{}

/// Layout of the draft that is made of a laid-out body puts each label at the address of its name, and the items end
/// where the body ends.
pub fn draft_keeps_addresses()
    ensures { DraftKeepsAddresses }
{}

/// A label that stands in the draft of a laid-out body leads to the address of its name.
pub fn labels_lead()
    ensures { LabelsLead }
{}

/// The draft that is made of a laid-out body is laid out as that body.
pub fn draft_is_kept()
    ensures { DraftIsKept }
{}

/// The draft that is made of a laid-out body isn't refused, so it is assembled, and by `draft_is_kept` to that body.
pub fn draft_is_assembled()
    ensures { DraftIsAssembled }
{}

/// The try entries of a draft whose ranges aren't refused have the ranges of its handlers, each once, by their starts.
pub fn ranges_are_sorted()
    ensures { RangesAreSorted }
{}
