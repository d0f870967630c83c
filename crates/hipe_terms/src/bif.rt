// The built-in functions of the module `erlang`.

ghost use Rattle.std.specs.Prelude.{◌≡◌};
ghost use Rattle.hipe_terms.specs.Bifs.{bif_name, bif_arity};

/// A built-in function of `erlang`, in the order of the table in `name` and `arity`.
#[derive(Clone, Copy, Debug, PartialEq, Eq)]
pub enum Bif {
    Add,
    Subtract,
    Multiply,
    Negate,
    Divide,
    Remainder,
    BitAnd,
    BitOr,
    BitXor,
    BitNot,
    ShiftLeft,
    ShiftRight,
    Equal,
    NotEqual,
    ExactlyEqual,
    ExactlyNotEqual,
    LessThan,
    AtMost,
    GreaterThan,
    AtLeast,
    And,
    Or,
    Not,
    IsInteger,
    IsNumber,
    IsAtom,
    IsBoolean,
    IsList,
    IsTuple,
    IsFunction,
    IsFunctionOfArity,
    Head,
    Tail,
    Length,
    Append,
    Element,
    SetElement,
    TupleSize,
    Error,
    Throw,
    Exit,
    Display,
}

impl Bif {
    /// The function's name in `erlang`.
    pub fn name(self) -> &'static str
        ensures { result.now ≡ bif_name self }
    {
        match self {
            Bif::Add => "+",
            Bif::Subtract => "-",
            Bif::Multiply => "*",
            Bif::Negate => "-",
            Bif::Divide => "div",
            Bif::Remainder => "rem",
            Bif::BitAnd => "band",
            Bif::BitOr => "bor",
            Bif::BitXor => "bxor",
            Bif::BitNot => "bnot",
            Bif::ShiftLeft => "bsl",
            Bif::ShiftRight => "bsr",
            Bif::Equal => "==",
            Bif::NotEqual => "/=",
            Bif::ExactlyEqual => "=:=",
            Bif::ExactlyNotEqual => "=/=",
            Bif::LessThan => "<",
            Bif::AtMost => "=<",
            Bif::GreaterThan => ">",
            Bif::AtLeast => ">=",
            Bif::And => "and",
            Bif::Or => "or",
            Bif::Not => "not",
            Bif::IsInteger => "is_integer",
            Bif::IsNumber => "is_number",
            Bif::IsAtom => "is_atom",
            Bif::IsBoolean => "is_boolean",
            Bif::IsList => "is_list",
            Bif::IsTuple => "is_tuple",
            Bif::IsFunction => "is_function",
            Bif::IsFunctionOfArity => "is_function",
            Bif::Head => "hd",
            Bif::Tail => "tl",
            Bif::Length => "length",
            Bif::Append => "++",
            Bif::Element => "element",
            Bif::SetElement => "setelement",
            Bif::TupleSize => "tuple_size",
            Bif::Error => "error",
            Bif::Throw => "throw",
            Bif::Exit => "exit",
            Bif::Display => "display",
        }
    }

    /// How many arguments the function takes.
    pub fn arity(self) -> usize
        ensures { result ≡ bif_arity self }
    {
        match self {
            Bif::Negate
            | Bif::BitNot
            | Bif::Not
            | Bif::IsInteger
            | Bif::IsNumber
            | Bif::IsAtom
            | Bif::IsBoolean
            | Bif::IsList
            | Bif::IsTuple
            | Bif::IsFunction
            | Bif::Head
            | Bif::Tail
            | Bif::Length
            | Bif::TupleSize
            | Bif::Error
            | Bif::Throw
            | Bif::Exit
            | Bif::Display => 1,
            Bif::SetElement => 3,
            _ => 2,
        }
    }
}
