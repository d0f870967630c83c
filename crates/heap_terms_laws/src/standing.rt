// Words and their terms. Each function states a law and does nothing.

ghost use Rattle.heap_terms_laws.specs.Standing.{WordsHaveTerms, OneTerm};
ghost use Rattle.heap_terms_laws.specs.Prefixes.{StandsGrow, PrefixesStand, PrefixesHaveTerms, WritesKeepPrefixes, WritesExtendPrefixes};

/// A reference has a term exactly where its word stands for it.
pub fn words_stand()
    ensures { WordsHaveTerms }
{}

/// A word stands for at most one term.
pub fn one_term()
    ensures { OneTerm }
{}

/// A word stands for its term also where words follow that weren't known before.
pub fn stands_grow()
    ensures { StandsGrow }
{}

/// What stands for a term in a prefix of a heap stands for it whatever is written behind that prefix.
pub fn prefixes_stand()
    ensures { PrefixesStand }
{}

/// What stands for a term in a prefix of a heap has that term.
pub fn prefixes_have_terms()
    ensures { PrefixesHaveTerms }
{}

/// A write behind a prefix of a heap leaves that prefix as it is.
pub fn writes_keep_prefixes()
    ensures { WritesKeepPrefixes }
{}

/// A write right behind the prefix makes it one word longer.
pub fn writes_extend_prefixes()
    ensures { WritesExtendPrefixes }
{}
