//! The parts of programs as text.

use super::Shown;
use clu_tree::{Cluster, Initial, Listed, Named, NodeDecl, NodePart, NodeVar, Program, Routine};

impl Shown {
    fn node_var(&self, var: &NodeVar) {
        self.put(b"nodevar ");
        self.name(&var.name);
        self.put(b": ");
        self.shape(&var.shape);
        match &var.first {
            None => {}
            Some(Initial::Literal(value)) => {
                self.put(b" := ");
                self.value(value);
            }
            Some(Initial::Lock) => self.put(b" := lock"),
            Some(Initial::Semaphore(count)) => {
                self.put(b" := semaphore ");
                self.number(*count);
            }
            Some(Initial::Empty(element)) => {
                self.put(b" := none of ");
                self.shape(element);
            }
        }
        self.line(var.line);
    }

    fn params(&self, params: &[Named]) {
        let mut between: &[u8] = b"";
        self.put(b"(");
        for param in params {
            self.put(between);
            self.named(param);
            between = b", ";
        }
        self.put(b")");
    }

    fn signals(&self, signals: &[Listed]) {
        for signal in signals {
            self.put(b" signals ");
            self.name(&signal.name);
            if let Some(shape) = &signal.value {
                self.put(b" with ");
                self.shape(shape);
            }
        }
    }

    fn routine(&self, routine: &Routine) {
        self.name(&routine.name);
        self.params(routine.params.as_slice());
        if let Some(shape) = &routine.result {
            self.put(b" returns ");
            self.shape(shape);
        }
        self.signals(routine.signals.as_slice());
        self.line(routine.line);
        self.put(b" ");
        self.body(routine.body.as_slice());
    }

    fn cluster(&self, cluster: &Cluster) {
        self.name(&cluster.name);
        self.put(b" is ");
        self.names(cluster.listed.as_slice());
        self.put(b" rep ");
        self.shape(&cluster.rep);
        self.put(b" from ");
        self.number(i64::from(cluster.first));
        self.put(b" count ");
        self.number(i64::from(cluster.count));
        self.line(cluster.line);
    }

    fn part(&self, part: &NodePart) {
        match part {
            NodePart::Export { name, line } => {
                self.put(b" export ");
                self.name(name);
                self.line(*line);
            }
            NodePart::Start { name, args, line } => {
                self.put(b" start ");
                self.name(name);
                for arg in args.as_slice() {
                    self.put(b" ");
                    self.value(arg);
                }
                self.line(*line);
            }
        }
    }

    fn node(&self, node: &NodeDecl) {
        self.put(b"node ");
        self.number(node.number);
        self.line(node.line);
        for part in node.parts.as_slice() {
            self.part(part);
        }
    }

    /// The parts of a program, each kind in its order, and `;` behind each.
    pub fn program(&self, program: &Program) {
        for equate in program.equates.as_slice() {
            self.name(&equate.name);
            self.put(b" = ");
            self.shape(&equate.shape);
            self.line(equate.line);
            self.put(b"; ");
        }
        for var in program.node_vars.as_slice() {
            self.node_var(var);
            self.put(b"; ");
        }
        for routine in program.routines.as_slice() {
            self.routine(routine);
            self.put(b"; ");
        }
        for cluster in program.clusters.as_slice() {
            self.cluster(cluster);
            self.put(b"; ");
        }
        for node in program.nodes.as_slice() {
            self.node(node);
            self.put(b"; ");
        }
    }
}
