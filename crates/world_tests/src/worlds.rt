use clu_reader::accept;
use debug_world::{DebugWorld, WorldFault};
use node_core::{Node, NodeFault};
use std::alloc::Global;
use world_types::{Effects, Event, Told};

/// Three steps for each statement, and one for the end. The first sleep has no limit.
const SLEEPS: &[u8] =
    b"p = proc ()\n  sleep(0)\n  sleep(100)\n  put_line(\"up\")\nend p\nnode 1 is start p() end\n";

/// What an event gave: the steps taken, and how many lines and marks.
type Given = (u32, usize, usize);

fn given(steps: u32, effects: &Effects) -> Given {
    (steps, effects.lines.len(), effects.marks.len())
}

/// What a turn of at most so many steps gives at the node, or a tick. None where it isn't possible.
fn at_node(alloc: Global, node: &mut Node<'_>, t: u64, most: Option<u32>) -> Option<Given> {
    if t >= 1 << 62 {
        return None;
    }
    let answer = match most {
        Some(most) => node.turn(alloc, t, most),
        None => node.tick(alloc, t).map(|effects| (0, effects)),
    };
    match answer {
        Ok((steps, effects)) => Some(given(steps, &effects)),
        Err(NodeFault::Illegal) => None,
        Err(NodeFault::Memory) => Some((64, 64, 64)),
    }
}

/// What a turn of so many steps at a reading gives in the world, or a tick, or the number of the condition that fails.
fn in_world(
    alloc: Global,
    world: &mut DebugWorld<'_>,
    stamp: u64,
    node: u32,
    turn: Option<(u32, u64)>,
) -> Result<Given, u8> {
    if stamp >= 1 << 62 {
        return Err(0);
    }
    let event = match turn {
        Some((steps, reading)) => {
            if steps == 0 || steps > 64 {
                return Err(0);
            }
            Event::Turn {
                node,
                steps,
                reading,
            }
        }
        None => Event::Tick { node },
    };
    match world.apply(alloc, &Told { stamp, event }) {
        Ok(entry) => match entry.event {
            Event::Turn { steps, .. } => Ok(given(steps, &entry.effects)),
            _ => Ok(given(0, &entry.effects)),
        },
        Err(WorldFault::Illegal(number)) => Err(number),
        Err(WorldFault::Memory) => Err(0),
    }
}

#[test]
fn a_node_takes_turns_and_ticks(rt: HostRuntime) {
    let alloc: Global = rt.alloc();
    let program = accept(alloc, SLEEPS).expect(&rt, "a program");
    let mut node = Node::new(alloc, &program, 1).expect(&rt, "a node");
    for (at, (t, most, answer)) in [
        (0, None, None),
        (0, Some(0), None),
        (0, Some(4), Some((4, 0, 0))),
        (7, Some(64), Some((2, 0, 0))),
        (7, Some(64), None),
        (106, None, None),
        (107, Some(64), None),
        (107, None, Some((0, 0, 1))),
        (106, Some(64), None),
        (107, Some(64), Some((4, 1, 1))),
        (107, Some(64), None),
    ]
    .into_iter()
    .enumerate()
    {
        assert!(rt; at_node(alloc, &mut node, t, most) == answer, "at {at}");
    }
    assert!(rt; node.quiet());
}

#[test]
fn a_world_applies_what_is_legal(rt: HostRuntime) {
    let alloc: Global = rt.alloc();
    let program = accept(alloc, SLEEPS).expect(&rt, "a program");
    let mut world = DebugWorld::new(alloc, &program).expect(&rt, "a world");
    for (at, (stamp, node, turn, answer)) in [
        (3, 1, Some((2, 0)), Ok((2, 0, 0))),
        (2, 1, Some((1, 3)), Err(1)),
        (3, 2, Some((1, 3)), Err(3)),
        (3, 2, None, Err(3)),
        (5, 1, Some((64, 2)), Err(10)),
        (5, 1, Some((64, 6)), Err(10)),
        (5, 1, None, Err(11)),
        (8, 1, Some((64, 5)), Ok((4, 0, 0))),
        (9, 1, Some((64, 9)), Err(12)),
        (104, 1, None, Err(11)),
        (105, 1, Some((64, 105)), Err(11)),
        (106, 1, None, Ok((0, 0, 1))),
        (106, 1, Some((64, 106)), Ok((4, 1, 1))),
        (106, 1, Some((64, 106)), Err(12)),
    ]
    .into_iter()
    .enumerate()
    {
        assert!(rt;
            in_world(alloc, &mut world, stamp, node, turn) == answer,
            "at {at}"
        );
    }
}
