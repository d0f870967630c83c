// What holds of linked code.
//
// `link` puts a displacement into the field of each call. These laws say what that comes to: where the field is that of an instruction
// whose last four bytes are a displacement, as `call` and `jmp`, the instruction leads to the first byte of the code of its target,
// and no other byte of a function's code changes. The functions have no bodies: each states a law.

ghost use Rattle.image_link.specs.Fields.{CallsLead, OthersStay};

/// In linked code the field of each call holds, in 32 bits, the displacement that leads from the address behind the field to the first
/// byte of the code of its target. Offsets are counted in bytes from the beginning of the code.
pub fn calls_lead()
    ensures { CallsLead }
{}

/// Each byte of a function's code that is in no call's field stands in the linked code as it was, as far behind the start of the
/// function's code as before.
pub fn others_stay()
    ensures { OthersStay }
{}
