//! What is done with operands, read off what a name or an operator stands for. None where it stands for none of these.

ghost use Rattle.std.specs.Prelude.{◌≡◌};
ghost use Rattle.machine_rules.specs.Row as rule;
ghost use Rattle.machine_rules.specs.declared.item.Item.TheVariants as item;

use clu_tree::{Meant, Text};
use machine_rules::Item;

/// What an operator, an operation or a call does.
pub fn doing(meant: Meant) -> Option<Item>
    ensures { result ≡ rule.doing meant }
{
    match meant {
        Meant::Op(op) => Some(Item::Apply(op)),
        Meant::Routine(k) => Some(Item::Enter(k)),
        Meant::Tag(k) => Some(Item::MakeTag(k)),
        _ => None,
    }
}

/// What reads a field.
pub fn reading(meant: Meant) -> Option<Item>
    ensures { result ≡ rule.at_field meant item.Get }
{
    match meant {
        Meant::Field(k) => Some(Item::Get(k)),
        _ => None,
    }
}

/// What writes a field.
pub fn writing(meant: Meant) -> Option<Item>
    ensures { result ≡ rule.at_field meant item.Put }
{
    match meant {
        Meant::Field(k) => Some(Item::Put(k)),
        _ => None,
    }
}

/// What sets a variable.
pub fn setting(name: Text, meant: Meant) -> Option<Item>
    ensures { result ≡ rule.setting name meant }
{
    match meant {
        Meant::Local => Some(Item::Assign(name)),
        Meant::NodeVar(k) => Some(Item::AssignNode(k)),
        _ => None,
    }
}

/// What takes the answer of a remote call: a variable is set, if one is given.
pub fn receiving(name: Option<Text>, meant: Meant) -> Option<Item>
    ensures { result ≡ rule.receiving name meant }
{
    match name {
        None => Some(Item::Discard),
        Some(name) => setting(name, meant),
    }
}

/// What starts a process.
pub fn spawning(meant: Meant) -> Option<Item>
    ensures { result ≡ rule.with_routine meant item.Spawn }
{
    match meant {
        Meant::Routine(k) => Some(Item::Spawn(k)),
        _ => None,
    }
}

/// What sends a `once` call.
pub fn asking_once(meant: Meant) -> Option<Item>
    ensures { result ≡ rule.with_routine meant item.AskOnce }
{
    match meant {
        Meant::Routine(k) => Some(Item::AskOnce(k)),
        _ => None,
    }
}

/// What sends a `maybe` call.
pub fn asking_maybe(meant: Meant) -> Option<Item>
    ensures { result ≡ rule.with_routine meant item.AskMaybe }
{
    match meant {
        Meant::Routine(k) => Some(Item::AskMaybe(k)),
        _ => None,
    }
}
