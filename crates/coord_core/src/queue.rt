ghost use Rattle.std.specs.Prelude.{◌≡◌, ◌<◌, ◌↔◌, IfOk, IsTrue, IfSome, IfNone, length, [], drop};
ghost use Rattle.std.specs.List.{All};
ghost use Rattle.coord_core.specs.States.{with_node, with_nodes, is_next};

use hipe_base::Memory;
use std::alloc::Global;
use std::collections::VecDeque;
use std::marker::Model;

/// The nodes that wait for a worker, first come first served, none of them twice. It has room for every node from the
/// start, so that putting one in takes no memory.
#[derive(Drop)]
pub struct Queue {
    waiting: VecDeque<u32>,
    queued: Vec<bool>,
}

impl Model for Queue {
    ghost use Rattle.std.specs.Prelude.{length};
    ghost use Rattle.coord_core.specs.Waiting.{QueueView};

    ghost Value = { QueueView };

    ghost view = { λ q. record { nodes = length q.queued.items; waiting = q.waiting.items } };

    ghost use Rattle.coord_core.specs.Queues.{IsQueue};

    ghost invariant = { IsQueue };
}

impl Queue {
    /// An empty queue for the nodes below `nodes`.
    pub fn new(alloc: Global, nodes: u32) -> Result<Queue, Memory>
        ensures { IfOk result (λ queue. queue ≡ record { nodes = nodes; waiting = [] }) }
    {
        Ok(Queue {
            waiting: VecDeque::with_capacity(alloc, nodes as usize)?,
            queued: vec![in alloc; false; nodes as usize]?,
        })
    }

    /// The node that waits longest.
    pub fn first(&self) -> Option<u32>
        ensures some { IfSome result (λ node. IsTrue (is_next self.now.waiting node)) }
        ensures in_range { IfSome result (λ node. node < self.now.nodes) }
        ensures none { IfNone result (self.now.waiting ≡ []) }
    {
        self.waiting.front().copied()
    }

    /// Takes the first node out, if there is one.
    pub fn remove_first(&mut self)
        ensures { self.new ≡ record { nodes = self.old.nodes; waiting = drop 1 self.old.waiting } }
    {
        if let Some(node) = self.waiting.pop_front() {
            self.queued[node as usize] = false;
        }
    }

    /// Puts a node at the back, where it doesn't wait already.
    pub fn add(&mut self, node: u32)
        requires { node < self.old.nodes }
        ensures { self.new
            ≡ record { nodes = self.old.nodes; waiting = with_node self.old.waiting node } }
    {
        if !self.queued[node as usize] {
            self.queued[node as usize] = true;
            self.waiting.push_back_reserved(node);
        }
    }

    /// Puts those of the nodes at the back that don't wait already, in their order.
    pub fn add_all(&mut self, nodes: &[u32])
        requires { All (λ node. node < self.old.nodes) nodes.now }
        ensures { self.new
            ≡ record { nodes = self.old.nodes; waiting = with_nodes self.old.waiting nodes.now } }
    {
        for node in nodes {
            self.add(*node);
        }
    }
}
