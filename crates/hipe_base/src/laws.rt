// The numbers of the limits.

ghost use Rattle.std.specs.Prelude.{◌≡◌, ◌^◌, ◌-◌, pos, neg_ℤ};
ghost use Rattle.hipe_base.specs.declared.limits.TheConstants.{TEXT_LIMIT, LEVEL_LIMIT, LEAST_INTEGER, GREATEST_INTEGER, ATOM_LIMIT, ARITY_LIMIT, NODE_LIMIT, FUNCTION_LIMIT, CODE_LIMIT};

/// The limits are these numbers.
pub fn limits_are()
    ensures text { TEXT_LIMIT ≡ 16777216 }
    ensures level { LEVEL_LIMIT ≡ 1000 }
    ensures least_integer { LEAST_INTEGER ≡ neg_ℤ (pos (2 ^ 59)) }
    ensures greatest_integer { GREATEST_INTEGER ≡ pos (2 ^ 59 - 1) }
    ensures atom { ATOM_LIMIT ≡ 255 }
    ensures arity { ARITY_LIMIT ≡ 255 }
    ensures nodes { NODE_LIMIT ≡ 65535 }
    ensures functions { FUNCTION_LIMIT ≡ 65535 }
    ensures code { CODE_LIMIT ≡ 2 ^ 30 }
{}
