// Calls with a level less, as ops: which instructions stand together in one, and which only look
// so.

use crate::shorthand::{calc, first_op, load, store};
use std::test::Fail;
use tpal_syntax::{Alu, Instr, Op, Term, Value};

#[test]
fn a_callee_with_a_level_less_is_one_op(rt: HostRuntime) -> Result<(), Fail> {
    let way = store(31, 40, Value::Label(1));
    let alone = Op::TickLoad(0, 2);
    let cases = [
        (4, way, Op::LevelDown(2, 40, 1)),
        (4, store(31, 41, Value::Label(1)), alone),
        (4, store(30, 40, Value::Label(1)), alone),
        (4, store(31, 40, Value::Int(1)), alone),
        (3, store(31, 43, Value::Reg(1)), alone),
        (3, store(31, 42, Value::Reg(0)), alone),
        (3, store(31, 39, Value::Reg(1)), alone),
        (2, calc(1, 0, Alu::Sub, Value::Int(2)), alone),
        (2, calc(1, 0, Alu::Add, Value::Int(1)), alone),
        (2, calc(1, 1, Alu::Sub, Value::Int(1)), alone),
        (1, load(1, 31, 2), Op::TickLoad(1, 2)),
        (1, load(0, 31, 3), Op::TickLoad(0, 3)),
        (1, load(0, 30, 2), Op::Tick),
        (0, Instr::PrmDrop, Op::Leave),
    ];
    for (at, other, op) in cases {
        let mut body = [
            Instr::Tick,
            load(0, 31, 2),
            calc(1, 0, Alu::Sub, Value::Int(1)),
            store(31, 42, Value::Reg(1)),
            way,
        ];
        if let Some(changed) = body.get_mut(at) {
            *changed = other;
        }
        assert_eq!(rt; first_op(rt.alloc(), &body, Term::Halt)?, Some(op));
    }
    Ok(())
}

// A call with a level less, in an activation of 40 cells: of where the caller's levels are, and the
// callee's.
const fn call(off: u16, levels: u16) -> [Instr; 6] {
    [
        Instr::Tick,
        load(0, 31, off),
        calc(0, 0, Alu::Sub, Value::Int(1)),
        store(31, levels, Value::Reg(0)),
        store(31, 40, Value::Label(1)),
        calc(31, 31, Alu::Add, Value::Int(40)),
    ]
}

#[test]
fn a_call_with_a_level_less_is_one_op(rt: HostRuntime) -> Result<(), Fail> {
    let there = Term::Jump(Value::Label(0));
    let way = store(31, 40, Value::Label(1));
    let whole = Op::LevelCall(2, 40, 1, 0);
    let rest = Op::DownCall(2, 40, 1, 0);
    let less = Op::SubIntStore(0, 0, 1, 42);
    let further = calc(31, 31, Alu::Add, Value::Int(41));
    let two = calc(0, 0, Alu::Sub, Value::Int(2));
    let cases = [
        (4, way, there, whole, rest),
        (4, way, Term::Halt, Op::Tick, less),
        (5, further, there, Op::Tick, less),
        (4, store(31, 43, Value::Label(1)), there, Op::Tick, less),
        (2, two, there, Op::Tick, Op::SubIntStore(0, 0, 2, 42)),
        (1, load(0, 31, 3), there, Op::Tick, rest),
        (1, load(1, 31, 2), there, Op::TickLoad(1, 2), rest),
    ];
    for (at, other, term, first, third) in cases {
        let mut body = call(2, 42);
        if let Some(changed) = body.get_mut(at) {
            *changed = other;
        }
        assert_eq!(rt; first_op(rt.alloc(), &body, term)?, Some(first));
        let tail = body.get(2..).ok_or("a call")?;
        assert_eq!(rt; first_op(rt.alloc(), tail, term)?, Some(third));
    }
    assert_eq!(rt;
        first_op(rt.alloc(), &call(256, 296), there)?,
        Some(Op::Tick)
    );
    Ok(())
}
