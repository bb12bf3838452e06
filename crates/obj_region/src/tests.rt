ghost use Rattle.std.specs.Prelude.{◌≡◌, ◌<◌, slice_get, true, length, IfOk, IsOk};
ghost use Rattle.obj_region.specs.Answers.{holding};
ghost use Rattle.obj_region.specs.Store.{fields_of, is_array, is_sound};

use crate::{Addr, MAX_CELLS, MAX_OBJECTS, Memory, Obj, Region, RegionFault, Store, Value, Values};
use std::alloc::Global;
use std::process::Abort;
use std::test::Fail;

/// An object to be added.
#[derive(Clone, Copy, Debug)]
enum Kind {
    /// An empty array from 1.
    Array,
    /// An empty array with the greatest low.
    Highest,
    /// An array of one element with the least low.
    Lowest,
    /// A record of one field.
    Record,
    Oneof,
    Lock,
    Sem,
}

/// A call on a store, with the number of its object. Values are ints.
#[derive(Clone, Copy, Debug)]
enum Call {
    Add(Kind),
    SetField(u32, u16, i64),
    Field(u32),
    Fetch(u32, i64),
    Store(u32, i64, i64),
    AddHigh(u32, i64),
    AddLow(u32, i64),
    RemHigh(u32),
    RemLow(u32),
    Low(u32),
}

#[derive(Clone, Copy, Debug, PartialEq, Eq)]
enum Answer {
    Done,
    Int(i64),
    Fault(RegionFault),
    /// The object isn't of the kind that the call is for, so it wasn't made.
    Unmet,
}

fn made(alloc: Global, kind: Kind) -> Result<Obj, Memory>
    ensures { IfOk result (λ obj. is_sound obj ≡ true) }
{
    Ok(match kind {
        Kind::Array => Obj::Arr {
            low: 1,
            items: Values::from_vec(Vec::new(alloc)),
        },
        Kind::Highest => Obj::Arr {
            low: 1 << 62,
            items: Values::from_vec(Vec::new(alloc)),
        },
        Kind::Lowest => {
            let mut items = Vec::new(alloc);
            items.push(Value::Int(7))?;
            Obj::Arr {
                low: -(1 << 62),
                items: Values::from_vec(items),
            }
        }
        Kind::Record => {
            let mut fields = Vec::new(alloc);
            fields.push(Value::Nil)?;
            Obj::Rec {
                fields: Values::from_vec(fields),
            }
        }
        Kind::Oneof => Obj::One {
            tag: 1,
            value: Value::Bool(true),
        },
        Kind::Lock => Obj::Lock,
        Kind::Sem => Obj::Sem,
    })
}

fn is_array_at<S: Store>(store: &S, at: Addr) -> bool
    ensures { result ≡ is_array (slice_get (S.seen store.now).objects at.0) }
{
    matches!(store.get(at), Some(Obj::Arr { .. }))
}

fn field_count<S: Store>(store: &S, at: Addr) -> usize
    ensures { result ≡ length (fields_of (slice_get (S.seen store.now).objects at.0)) }
{
    match store.get(at) {
        Some(Obj::Rec { fields }) => fields.len(),
        _ => 0,
    }
}

fn first_field<S: Store>(store: &S, at: Addr) -> Answer {
    let Some(Obj::Rec { fields }) = store.get(at) else {
        return Answer::Unmet;
    };
    match fields.get(0) {
        Some(Value::Int(n)) => Answer::Int(*n),
        _ => Answer::Unmet,
    }
}

fn low<S: Store>(store: &S, at: Addr) -> Answer {
    match store.get(at) {
        Some(Obj::Arr { low, .. }) => Answer::Int(*low),
        _ => Answer::Unmet,
    }
}

fn done(answer: Result<(), RegionFault>) -> Answer {
    match answer {
        Ok(()) => Answer::Done,
        Err(fault) => Answer::Fault(fault),
    }
}

fn given(answer: Result<Value, RegionFault>) -> Answer {
    match answer {
        Ok(Value::Int(n)) => Answer::Int(n),
        Ok(_) => Answer::Unmet,
        Err(fault) => Answer::Fault(fault),
    }
}

fn added<S: Store>(alloc: Global, store: &mut S, kind: Kind) -> Result<Answer, Memory> {
    let obj = made(alloc, kind)?;
    Ok(match store.add(alloc, obj) {
        Ok(at) => Answer::Int(at.0 as i64),
        Err(fault) => Answer::Fault(fault),
    })
}

fn on_array<S: Store>(alloc: Global, store: &mut S, at: Addr, call: Call) -> Answer {
    if !is_array_at(store, at) {
        return Answer::Unmet;
    }
    match call {
        Call::Fetch(_, index) => given(store.fetch(alloc, at, index)),
        Call::Store(_, index, n) => done(store.store(at, index, Value::Int(n))),
        Call::AddHigh(_, n) => done(store.add_high(alloc, at, Value::Int(n))),
        Call::AddLow(_, n) => done(store.add_low(alloc, at, Value::Int(n))),
        Call::RemHigh(_) => given(store.rem_high(at)),
        Call::RemLow(_) => given(store.rem_low(at)),
        _ => Answer::Unmet,
    }
}

fn on_record<S: Store>(store: &mut S, at: Addr, field: u16, n: i64) -> Answer {
    if field as usize >= field_count(store, at) {
        return Answer::Unmet;
    }
    done(store.set_field(at, field, Value::Int(n)))
}

fn made_call<S: Store>(alloc: Global, store: &mut S, call: Call) -> Result<Answer, Memory> {
    Ok(match call {
        Call::Add(kind) => added(alloc, store, kind)?,
        Call::SetField(at, field, n) => on_record(store, Addr(at), field, n),
        Call::Field(at) => first_field(store, Addr(at)),
        Call::Low(at) => low(store, Addr(at)),
        Call::Fetch(at, _)
        | Call::Store(at, _, _)
        | Call::AddHigh(at, _)
        | Call::AddLow(at, _)
        | Call::RemHigh(at)
        | Call::RemLow(at) => on_array(alloc, store, Addr(at), call),
    })
}

fn answers<S: Store>(
    rt: &impl Abort,
    alloc: Global,
    store: &mut S,
    rows: &[(Call, Answer)],
) -> Result<(), Memory> {
    for (call, answer) in rows {
        let got = made_call(alloc, store, *call)?;
        assert_eq!(rt; got, *answer, "at {call:?}");
    }
    Ok(())
}

/// Calls on a store that holds one object and is no older than it.
fn grows_and_shrinks<S: Store>(
    rt: &impl Abort,
    alloc: Global,
    store: &mut S,
) -> Result<(), Memory> {
    let rows = [
        (Call::Add(Kind::Array), Answer::Int(1)),
        (Call::RemHigh(1), Answer::Fault(RegionFault::Bounds)),
        (Call::RemLow(1), Answer::Fault(RegionFault::Bounds)),
        (Call::AddHigh(1, 5), Answer::Done),
        (Call::AddHigh(1, 6), Answer::Done),
        (Call::AddLow(1, 4), Answer::Done),
        (Call::Low(1), Answer::Int(0)),
        (Call::Fetch(1, -1), Answer::Fault(RegionFault::Bounds)),
        (Call::Fetch(1, 0), Answer::Int(4)),
        (Call::Fetch(1, 1), Answer::Int(5)),
        (Call::Fetch(1, 2), Answer::Int(6)),
        (Call::Fetch(1, 3), Answer::Fault(RegionFault::Bounds)),
        (Call::Store(1, 3, 9), Answer::Fault(RegionFault::Bounds)),
        (Call::Store(1, 1, 9), Answer::Done),
        (Call::RemLow(1), Answer::Int(4)),
        (Call::Low(1), Answer::Int(1)),
        (Call::Fetch(1, 1), Answer::Int(9)),
        (Call::RemHigh(1), Answer::Int(6)),
        (Call::Fetch(1, 2), Answer::Fault(RegionFault::Bounds)),
        (Call::RemHigh(1), Answer::Int(9)),
        (Call::Low(1), Answer::Int(1)),
        (Call::Add(Kind::Record), Answer::Int(2)),
        (Call::SetField(2, 0, 8), Answer::Done),
        (Call::Field(2), Answer::Int(8)),
        (Call::Add(Kind::Oneof), Answer::Int(3)),
        (Call::Add(Kind::Lock), Answer::Int(4)),
        (Call::Add(Kind::Sem), Answer::Int(5)),
    ];
    answers(rt, alloc, store, &rows)
}

/// Low and high at their ends, on a store that holds six objects.
fn keeps_low_and_high_near<S: Store>(
    rt: &impl Abort,
    alloc: Global,
    store: &mut S,
) -> Result<(), Memory> {
    let last = 1i64 << 62;
    let rows = [
        (Call::Add(Kind::Highest), Answer::Int(6)),
        (Call::AddHigh(6, 1), Answer::Done),
        (Call::AddHigh(6, 2), Answer::Fault(RegionFault::Range)),
        (Call::RemLow(6), Answer::Fault(RegionFault::Range)),
        (Call::Fetch(6, last), Answer::Int(1)),
        (Call::Fetch(6, last + 1), Answer::Fault(RegionFault::Bounds)),
        (Call::RemHigh(6), Answer::Int(1)),
        (Call::AddLow(6, 3), Answer::Done),
        (Call::Low(6), Answer::Int(last - 1)),
        (Call::Add(Kind::Lowest), Answer::Int(7)),
        (Call::AddLow(7, 1), Answer::Fault(RegionFault::Range)),
        (Call::RemHigh(7), Answer::Fault(RegionFault::Range)),
        (Call::Fetch(7, i64::MIN), Answer::Fault(RegionFault::Bounds)),
        (Call::Fetch(7, -last), Answer::Int(7)),
        (Call::RemLow(7), Answer::Int(7)),
        (Call::Low(7), Answer::Int(1 - last)),
    ];
    answers(rt, alloc, store, &rows)
}

// Changes nothing but the objects, as a step of a program does.
fn adds_a_pair<S: Store>(alloc: Global, store: &mut S) -> Result<(), RegionFault>
    ensures { S.seen store.new ≡ holding (S.seen store.old) (S.seen store.new).objects }
{
    store.add(alloc, Obj::Lock)?;
    store.add(alloc, Obj::Sem)?;
    Ok(())
}

// Whatever is done in a scratch, the region is as it was, want of memory included.
fn adds_in_scratch(alloc: Global, region: &mut Region) -> Result<(), RegionFault>
    ensures { region.new ≡ region.old }
{
    let mut scratch = region.scratch();
    let added = adds_a_pair(alloc, &mut scratch);
    scratch.release();
    added
}

// Every object of a region may change.
fn sets_a_field(region: &mut Region, at: Addr, field: u16) -> Result<(), RegionFault>
    requires { field < length (fields_of (slice_get region.old at.0)) }
    ensures { IsOk result }
{
    region.set_field(at, field, Value::Nil)
}

#[test]
fn both_stores_answer_alike(rt: HostRuntime) -> Result<(), Fail> {
    let alloc = rt.alloc();
    let mut region = Region::new(alloc)?;
    answers(
        &rt,
        alloc,
        &mut region,
        &[(Call::Add(Kind::Lock), Answer::Int(0))],
    )?;
    let before = format!(in alloc; "{region:?}")?;
    let mut scratch = region.scratch();
    let grown = grows_and_shrinks(&rt, alloc, &mut scratch);
    let near = keeps_low_and_high_near(&rt, alloc, &mut scratch);
    scratch.release();
    grown?;
    near?;
    assert_eq!(rt; format!(in alloc; "{region:?}")?.as_str(), before.as_str());
    adds_in_scratch(alloc, &mut region)?;
    assert_eq!(rt; format!(in alloc; "{region:?}")?.as_str(), before.as_str());
    grows_and_shrinks(&rt, alloc, &mut region)?;
    keeps_low_and_high_near(&rt, alloc, &mut region)?;
    Ok(())
}

#[test]
fn objects_below_the_mark_stay(rt: HostRuntime) -> Result<(), Fail> {
    let alloc = rt.alloc();
    let mut region = Region::new(alloc)?;
    let made = [
        (Call::Add(Kind::Array), Answer::Int(0)),
        (Call::AddHigh(0, 5), Answer::Done),
    ];
    answers(&rt, alloc, &mut region, &made)?;
    assert_eq!(rt; region.mark(), 1);
    let before = format!(in alloc; "{region:?}")?;
    let mut scratch = region.scratch();
    let rows = [
        (Call::AddHigh(0, 5), Answer::Fault(RegionFault::Old)),
        (Call::Add(Kind::Record), Answer::Int(1)),
        (Call::SetField(1, 0, 3), Answer::Done),
        (Call::AddLow(0, 5), Answer::Fault(RegionFault::Old)),
        (Call::Store(0, 1, 4), Answer::Fault(RegionFault::Old)),
        (Call::Store(0, 2, 4), Answer::Fault(RegionFault::Old)),
        (Call::RemHigh(0), Answer::Fault(RegionFault::Old)),
        (Call::RemLow(0), Answer::Fault(RegionFault::Old)),
        (Call::Fetch(0, 1), Answer::Int(5)),
        (Call::Fetch(0, 2), Answer::Fault(RegionFault::Bounds)),
    ];
    let answered = answers(&rt, alloc, &mut scratch, &rows);
    let mark = scratch.mark();
    scratch.release();
    answered?;
    assert_eq!(rt; mark, 1);
    assert_eq!(rt; format!(in alloc; "{region:?}")?.as_str(), before.as_str());
    assert!(rt; region.get(Addr(1)).is_none());
    assert!(rt; region.get(Addr(0)).is_some());
    Ok(())
}

/// An old object refuses before all else: its bounds, and its range.
#[test]
fn old_comes_first(rt: HostRuntime) -> Result<(), Fail> {
    let alloc = rt.alloc();
    let mut region = Region::new(alloc)?;
    let made = [
        (Call::Add(Kind::Array), Answer::Int(0)),
        (Call::Add(Kind::Lowest), Answer::Int(1)),
        (Call::Add(Kind::Record), Answer::Int(2)),
    ];
    answers(&rt, alloc, &mut region, &made)?;
    let mut scratch = region.scratch();
    let rows = [
        (Call::RemHigh(0), Answer::Fault(RegionFault::Old)),
        (Call::RemLow(0), Answer::Fault(RegionFault::Old)),
        (Call::AddLow(1, 1), Answer::Fault(RegionFault::Old)),
        (Call::RemHigh(1), Answer::Fault(RegionFault::Old)),
        (Call::SetField(2, 0, 1), Answer::Fault(RegionFault::Old)),
        (Call::Field(3), Answer::Unmet),
    ];
    let answered = answers(&rt, alloc, &mut scratch, &rows);
    scratch.release();
    answered?;
    Ok(())
}

#[test]
fn a_region_has_room_for_so_many_objects(rt: HostRuntime) -> Result<(), Fail> {
    let alloc = rt.alloc();
    let mut region = Region::new(alloc)?;
    for _ in 0..MAX_OBJECTS {
        region.add(alloc, Obj::Lock)?;
    }
    let full = Answer::Fault(RegionFault::Full);
    let mut scratch = region.scratch();
    let answered = answers(&rt, alloc, &mut scratch, &[(Call::Add(Kind::Sem), full)]);
    scratch.release();
    answered?;
    assert!(rt; region.get(Addr(262_143)).is_some());
    assert!(rt; region.get(Addr(262_144)).is_none());
    Ok(())
}

fn nils(alloc: Global, count: usize) -> Result<Vec<Value>, Memory> {
    let mut values = Vec::new(alloc);
    for _ in 0..count {
        values.push(Value::Nil)?;
    }
    Ok(values)
}

#[test]
fn a_region_has_room_for_so_many_elements_and_fields(rt: HostRuntime) -> Result<(), Fail> {
    let alloc = rt.alloc();
    let mut region = Region::new(alloc)?;
    let fields = Values::from_vec(nils(alloc, MAX_CELLS - 2)?);
    region.add(alloc, Obj::Rec { fields })?;
    let full = Answer::Fault(RegionFault::Full);
    let rows = [
        (Call::Add(Kind::Highest), Answer::Int(1)),
        (Call::AddHigh(1, 1), Answer::Done),
        (Call::Add(Kind::Array), Answer::Int(2)),
        (Call::AddLow(2, 1), Answer::Done),
        (Call::AddLow(2, 2), full),
        (Call::AddHigh(2, 2), full),
        (Call::AddHigh(1, 2), Answer::Fault(RegionFault::Range)),
        (Call::Add(Kind::Record), full),
        (Call::Add(Kind::Lock), Answer::Int(3)),
        (Call::SetField(0, 65_535, 1), Answer::Done),
        (Call::RemHigh(2), Answer::Int(1)),
        (Call::AddHigh(2, 2), Answer::Done),
        (Call::AddHigh(2, 2), full),
    ];
    answers(&rt, alloc, &mut region, &rows)?;
    Ok(())
}

#[test]
fn values_come_from_a_vec_and_go_back(rt: HostRuntime) -> Result<(), Fail> {
    let alloc = rt.alloc();
    let values = Values::from_vec(nils(alloc, 2)?);
    assert_eq!(rt; values.len(), 2);
    assert!(rt; !values.is_empty());
    assert!(rt; matches!(values.get(1), Some(Value::Nil)));
    assert!(rt; values.get(2).is_none());
    assert_eq!(rt; values.into_vec().len(), 2);
    for (fault, text) in [
        (RegionFault::Full, "the store is full"),
        (RegionFault::Bounds, "the index is out of bounds"),
        (RegionFault::Range, "the array is out of range"),
        (RegionFault::Old, "the object may not change"),
        (RegionFault::Memory, "out of memory"),
    ] {
        assert_eq!(rt; format!(in alloc; "{fault}")?.as_str(), text);
    }
    Ok(())
}
