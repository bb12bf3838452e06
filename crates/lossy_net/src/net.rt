ghost use Rattle.std.specs.Prelude.{◌≡◌, ◌↔◌, ℕ, ◌<◌, ◌-◌, [], IsTrue, IsNone, IfOk, IfSome, OnOk, OnErr};

use crate::copies::{Copies, place};
use std::alloc::{AllocError, Global};
use std::marker::Model;

/// Memory ran out.
pub type Memory = AllocError;

/// The copies of packets that are still on their way.
#[derive(Debug, Drop)]
pub struct Net {
    // By node, then by sender, then by place; each has a copy left.
    copies: Vec<Copies>,
}

impl Model for Net {
    ghost use Rattle.std.specs.Prelude.{List};
    ghost use Rattle.lossy_net.specs.declared.copies.Copies.{Copies};
    ghost use Rattle.lossy_net.specs.Order.{AreInOrder};

    ghost Value = { List Copies };

    ghost view = { λ n. n.copies.items };

    ghost invariant = { λ n. AreInOrder n.copies.items };
}

impl Net {
    ghost use Rattle.lossy_net.specs.Copies.{copies_left, IsFirst, ChangesOnly};

    /// Nothing is on its way.
    pub fn new(alloc: Global) -> Result<Net, Memory>
        ensures { IfOk result (λ net. (to from index : ℕ) → copies_left net to from index ≡ 0) }
    {
        Ok(Net {
            copies: Vec::new(alloc),
        })
    }

    /// So many copies of the packet that `from` sent at the place `index` are on their way to the node `to`. None was
    /// left before. For want of memory all stays as it was.
    pub fn sent(
        &mut self,
        alloc: Global,
        to: u32,
        from: u32,
        index: u64,
        copies: u8,
    ) -> Result<(), Memory>
        requires { copies_left self.old to from index ≡ 0 }
        ensures ok { OnOk result (ChangesOnly self.old self.new to from index copies) }
        ensures err { OnErr result (self.new ≡ self.old) }
    {
        if copies == 0 {
            return Ok(());
        }
        let at = place(&self.copies, to, from, index);
        self.copies.insert(
            at,
            Copies {
                to,
                from,
                index,
                left: copies,
            },
        )?;
        Ok(())
    }

    /// The first packet that can still reach the node, as its sender and its place: of those with a copy left for the
    /// node the one with the least sender, and of that sender's the one with the least place. `None` where no copy is
    /// left for the node.
    pub fn offer(&self, node: u32) -> Option<(u32, u64)>
        ensures none { IsNone result ↔ ((from index : ℕ) → copies_left self.now node from index ≡ 0) }
        ensures first { IfSome result (λ p. IsFirst self.now node p.0 p.1) }
    {
        let at = place(&self.copies, node, 0, 0);
        let first = self.copies.get(at)?;
        if first.to == node {
            Some((first.from, first.index))
        } else {
            None
        }
    }

    /// One copy of a packet reaches the node. One was left.
    pub fn take(&mut self, node: u32, from: u32, index: u64)
        requires { 0 < copies_left self.old node from index }
        ensures { ChangesOnly self.old self.new node from index (copies_left self.old node from index - 1) }
    {
        let at = place(&self.copies, node, from, index);
        let left = self.copies[at].left;
        if left > 1 {
            self.copies[at].left = left - 1;
        } else {
            self.copies.remove(at);
        }
    }

    /// Whether no copy is left for any node.
    pub fn is_empty(&self) -> bool
        ensures { IsTrue result ↔ ((to from index : ℕ) → copies_left self.now to from index ≡ 0) }
    {
        self.copies.is_empty()
    }
}
