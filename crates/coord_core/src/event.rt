/// What happened to a coordinator. An idle, a done or a stranger makes no event.
#[derive(Clone, Copy, Debug, PartialEq, Eq)]
pub enum Event {
    /// A worker took a ticket for a node.
    Take {
        /// The worker.
        worker: u32,
        /// The node.
        node: u32,
    },
    /// A ticket was finished.
    Finish {
        /// The worker that had taken it.
        worker: u32,
        /// The ticket's number.
        number: u64,
    },
    /// A ticket was given back.
    GiveBack {
        /// The worker that had taken it.
        worker: u32,
        /// The ticket's number.
        number: u64,
    },
}
