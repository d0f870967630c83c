// What the services keep of terms.

ghost use Rattle.machine_services.specs.Laws.{ListsAppend, WordsCompare};

/// Two words that stand for terms are in the order of the terms, so `Equal` and `Compare` answer for the terms.
pub fn words_compare()
    ensures { WordsCompare }
{}

/// What `Append` builds stands for the list of the first list's elements before the second word's term, where these stand by
/// words below the heap pointer.
pub fn lists_append()
    ensures { ListsAppend }
{}
