// The services and their numbers.

ghost use Rattle.std.specs.Prelude.{◌≡◌};
ghost use Rattle.machine_services.specs.Numbers.{service_number, service_numbered};

/// A service of the machine, which `syscall` calls by its number in rax.
#[derive(Clone, Copy, Debug, PartialEq, Eq)]
pub enum Service {
    /// Ends a run that returned.
    Return,
    /// Ends a run that raised.
    Raise,
    /// Ends a run whose heap is full.
    HeapFull,
    /// Ends a run whose stack is full.
    StackFull,
    /// Displays a term.
    Display,
    /// Tells whether two terms are equal.
    Equal,
    /// Compares two terms.
    Compare,
    /// Counts the elements of a list.
    Length,
    /// Puts the elements of a list before a word.
    Append,
    /// Copies a tuple.
    CopyTuple,
}

impl Service {
    /// The service's number: 0 for `Return`, and one more for each service after it.
    pub fn number(self) -> u64
        ensures { result ≡ service_number self }
    {
        match self {
            Service::Return => 0,
            Service::Raise => 1,
            Service::HeapFull => 2,
            Service::StackFull => 3,
            Service::Display => 4,
            Service::Equal => 5,
            Service::Compare => 6,
            Service::Length => 7,
            Service::Append => 8,
            Service::CopyTuple => 9,
        }
    }

    /// The service with this number, if there is one.
    pub fn from_number(number: u64) -> Option<Service>
        ensures { result ≡ service_numbered number }
    {
        match number {
            0 => Some(Service::Return),
            1 => Some(Service::Raise),
            2 => Some(Service::HeapFull),
            3 => Some(Service::StackFull),
            4 => Some(Service::Display),
            5 => Some(Service::Equal),
            6 => Some(Service::Compare),
            7 => Some(Service::Length),
            8 => Some(Service::Append),
            9 => Some(Service::CopyTuple),
            _ => None,
        }
    }
}
