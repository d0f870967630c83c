// Objects that code puts behind the words that are used. Each function states a law and does nothing.

ghost use Rattle.heap_terms_laws.specs.Objects.{CellsStand, TuplesStand, FunsStand};

/// Two words behind the words that are used stand for a list, where they stand for its first element and its rest.
pub fn cells_stand()
    ensures { CellsStand }
{}

/// A header and the words of terms stand for a tuple of these terms.
pub fn tuples_stand()
    ensures { TuplesStand }
{}

/// A header, the number of a function and the words of terms stand for a fun that captured these terms.
pub fn funs_stand()
    ensures { FunsStand }
{}
