// What holds of all runs of good modules. Each function states a law and does nothing.

ghost use Rattle.core_soundness.specs.Laws.{GoodModulesNeverStick, GoodModulesNeverStickWithin};

/// No run of a call of a good module gets stuck: it meets no unbound variable, no unbound function name, no function that is missing, and no
/// number of values that does not fit. Where it ends with values, it ends with one.
pub fn good_modules_never_stick()
    ensures never { GoodModulesNeverStick }
{}

/// Nor does a run under limits on the heap and the stack, whatever they are and whatever a frame takes.
pub fn good_modules_never_stick_within()
    ensures never { GoodModulesNeverStickWithin }
{}
