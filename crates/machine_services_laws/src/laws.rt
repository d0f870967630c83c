// What services do with words that stand for terms. Each function states a law and does nothing.

ghost use Rattle.machine_services_laws.specs.Laws.{InPrefixes, ReturnsTerm, RaisesTerm, DisplaysTerm, ComparesEqual, OrdersTerms, CountsElements, AppendsLists, AppendsToNil, CopiesTuple, EndsHeapFull, EndsStackFull};

/// `Return` ends the run with the term for which its word stands.
pub fn returns_term()
    ensures { InPrefixes ReturnsTerm }
{}

/// `Raise` ends the run with the term raised.
pub fn raises_term()
    ensures { InPrefixes RaisesTerm }
{}

/// `Display` displays the term for which its word stands.
pub fn displays_term()
    ensures { InPrefixes DisplaysTerm }
{}

/// `Equal` tells whether two words stand for equal terms.
pub fn compares_equal()
    ensures { InPrefixes ComparesEqual }
{}

/// `Compare` gives the order of the terms for which two words stand.
pub fn orders_terms()
    ensures { InPrefixes OrdersTerms }
{}

/// `Length` gives the number of elements of a proper list, and else the plain number -1.
pub fn counts_elements()
    ensures { InPrefixes CountsElements }
{}

/// `Append` builds the elements of a proper list before another term behind the words that are used, or the heap has no room
/// for them. Where the first is nil, it answers the other's word. Where the first isn't a proper list, it answers the plain number 0.
pub fn appends_lists()
    ensures { InPrefixes AppendsLists }
{}

/// `Append` with nil first answers the other word, whatever stands in r15.
pub fn appends_to_nil()
    ensures { InPrefixes AppendsToNil }
{}

/// `HeapFull` ends the run, whatever its words are.
pub fn ends_heap_full()
    ensures { InPrefixes EndsHeapFull }
{}

/// `StackFull` ends the run, whatever its words are.
pub fn ends_stack_full()
    ensures { InPrefixes EndsStackFull }
{}

/// `CopyTuple` builds a copy of a tuple behind the words that are used, as a new object at the heap pointer, or the heap has no room
/// for it.
pub fn copies_tuple()
    ensures { InPrefixes CopiesTuple }
{}
