// How a built-in function ends.

use crate::value::Value;
use hipe_terms::Class;

/// How a call ends: with a value, or with a class and a reason.
#[derive(Clone, Copy)]
pub enum End<'a> {
    Value(Value<'a>),
    Raised(Class, Value<'a>),
}

/// How a built-in function ends, what it prints, and how many words it builds.
#[derive(Clone, Copy)]
pub struct Outcome<'a> {
    pub end: End<'a>,
    pub printed: Option<Value<'a>>,
    pub words: u64,
}
