// What is printed reads back.

ghost use Rattle.core_round_trip.specs.Laws.{PrintedReadsBack, WithinLimitsReadsBack};

/// The text that a module is printed as reads as a module that differs in the places of its parts alone, where some text reads
/// as the module, places aside.
pub fn printed_reads_back()
    ensures { PrintedReadsBack }
{}

/// The text that a module is printed as reads as a module that differs in the places of its parts alone, where the module is
/// within the limits of texts, whether or not some text reads as it.
pub fn within_limits_reads_back()
    ensures { WithinLimitsReadsBack }
{}
