// Short ways to write instructions.

use tpal_syntax::{Alu, Instr, Term, Value};

pub(crate) const fn set(to: u8, number: i64) -> Instr {
    Instr::Move {
        to,
        value: Value::Int(number),
    }
}

pub(crate) const fn nil(to: u8) -> Instr {
    Instr::Move {
        to,
        value: Value::Nil,
    }
}

pub(crate) const fn calc(to: u8, left: u8, alu: Alu, right: Value) -> Instr {
    Instr::Calc {
        to,
        left,
        alu,
        right,
    }
}

pub(crate) const fn load(to: u8, off: u16) -> Instr {
    Instr::Load { to, base: 31, off }
}

pub(crate) const fn store(off: u16, value: Value) -> Instr {
    Instr::Store {
        base: 31,
        off,
        value,
    }
}

pub(crate) const fn number_at(off: u16, number: i64) -> Instr {
    store(off, Value::Int(number))
}

pub(crate) const fn test(test: u8) -> Instr {
    Instr::IfJump { test, label: 5 }
}

// A mark of a call: where, and how many cells its activation has; the third block cuts it.
pub(crate) const fn mark(off: u16, cells: u16) -> Instr {
    Instr::PrmPush {
        base: 31,
        off,
        cells,
        split: 2,
    }
}

pub(crate) const fn unmark(off: u16) -> Instr {
    Instr::PrmPop { base: 31, off }
}

pub(crate) const ONE_CELL: Instr = Instr::Salloc(1);

pub(crate) const TO_HEAD: Term = Term::Jump(Value::Label(1));

pub(crate) const TO_SIDE: Term = Term::Jump(Value::Label(4));

pub(crate) const TO_BOTH: Term = Term::Jump(Value::Label(5));

pub(crate) const MARK: Instr = Instr::PrmPush {
    base: 31,
    off: 0,
    cells: 1,
    split: 1,
};

// A row number for the carried table, a cell and a mark: what goes on to the head is diverted.
pub(crate) const fn promoted() -> [Instr; 3] {
    [set(3, 1), ONE_CELL, MARK]
}
