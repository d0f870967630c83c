// The words of constants. Each function states a law and does nothing.

ghost use Rattle.heap_terms_laws.specs.Constants.{BuiltStands, BuiltTakes, AllBuiltStand};

/// The word of a constant stands for its term in the words that were built, and the words that were there stay as a prefix.
pub fn built_stands()
    ensures { BuiltStands }
{}

/// As many words are built as the constant takes on the heap.
pub fn built_takes()
    ensures { BuiltTakes }
{}

/// The words of several constants stand for their terms in the words that were built for all of them.
pub fn all_built_stand()
    ensures { AllBuiltStand }
{}
