//! Laws of linked images. Each law is the contract of a function that does nothing.
#![tactic(auto)]

ghost use Rattle.law_linked.specs.Laws.{LinkedImagesHaveLinking, LinkedTypesAreOrdered, LinkedTypesHaveCommon, LinkedTablesAgree, LinkedMessagesAreStrings, LinkedRunsNeverGoWrong};

/// Each image that linking gives is what the laws of the machine take of an image.
pub fn linked_images_have_linking()
    ensures law { LinkedImagesHaveLinking }
{}

/// In each image that linking gives subtype is an order, and assignable, instance and fits go along it.
pub fn linked_types_are_ordered()
    ensures law { LinkedTypesAreOrdered }
{}

/// There the nearest common superclass of two reference types is above both, and under each other type that is.
pub fn linked_types_have_common()
    ensures law { LinkedTypesHaveCommon }
{}

/// There the table of a class has what a call selects, at the place of its name and prototype.
pub fn linked_tables_agree()
    ensures law { LinkedTablesAgree }
{}

/// There Throwable declares its message, an instance field of type String.
pub fn linked_messages_are_strings()
    ensures law { LinkedMessagesAreStrings }
{}

/// No run of a main method of a linked image that the verifier accepts is ever stuck, on any schedule.
pub fn linked_runs_never_go_wrong()
    ensures law { LinkedRunsNeverGoWrong }
{}
