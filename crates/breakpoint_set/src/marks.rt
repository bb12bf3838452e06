ghost use Rattle.std.specs.Prelude.{◌≡◌, IfOk, OnOk, OnErr};
ghost use Rattle.std.specs.FinSet as set;

use std::alloc::{AllocError, Global};
use std::collections::BTreeSet;
use std::marker::Model;

/// Memory ran out.
pub type Memory = AllocError;

/// A set of lines, by number.
#[derive(Drop)]
pub struct Marks {
    lines: BTreeSet<u32>,
}

impl Model for Marks {
    ghost use Rattle.std.specs.Ordering.{nat_cmp};
    ghost use Rattle.std.specs.FinSet as set;
    ghost use Rattle.std.specs.Coded.{coded_ℕ};

    ghost Value = { set.FinSet nat_cmp };

    ghost coded = { set.code coded_ℕ };

    ghost view = { λ m. set.from_list m.lines.keys };
}

impl Marks {
    /// No line is marked.
    pub fn new(alloc: Global) -> Result<Marks, Memory>
        ensures { IfOk result (λ marks. marks ≡ set.empty) }
    {
        Ok(Marks {
            lines: BTreeSet::new(alloc),
        })
    }

    /// Marks the line. For want of memory the set stays as it was.
    pub fn set(&mut self, alloc: Global, line: u32) -> Result<(), Memory>
        ensures ok { OnOk result (self.new ≡ set.insert self.old line) }
        ensures err { OnErr result (self.new ≡ self.old) }
    {
        self.lines.insert(line)?;
        Ok(())
    }

    /// Unmarks the line, if it was marked.
    pub fn clear(&mut self, line: u32)
        ensures { self.new ≡ set.remove self.old line }
    {
        self.lines.remove(&line);
    }

    /// Whether the line is marked.
    pub fn marked(&self, line: u32) -> bool
        ensures { result ≡ set.contains self.now line }
    {
        self.lines.contains(&line)
    }
}
