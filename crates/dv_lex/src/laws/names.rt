// The words that names, descriptors, references and labels are. Each law is the contract of a function that does nothing.
ghost use Rattle.dv_lex.specs.Laws.Names.{NamesAreWords, LabelsAreWords, DescriptorsAreWords, PrototypesAreWords, FieldsAreWords, MethodsAreWords};

/// A name is one word, and so is a label.
pub fn names_are_words()
    ensures names { NamesAreWords }
    ensures labels { LabelsAreWords }
{}

/// The descriptor of a type or a prototype is one word.
pub fn descriptors_are_words()
    ensures types { DescriptorsAreWords }
    ensures prototypes { PrototypesAreWords }
{}

/// A reference to a field or a method is one word.
pub fn references_are_words()
    ensures fields { FieldsAreWords }
    ensures methods { MethodsAreWords }
{}
