//! The classes of linked images.
ghost use Rattle.law_flow.specs.Laws.{LinkedClassesAreHierarchies};

/// The classes of each image that linking gives are a hierarchy, with Object.
pub fn linked_classes_are_hierarchies()
    ensures law { LinkedClassesAreHierarchies }
{}
