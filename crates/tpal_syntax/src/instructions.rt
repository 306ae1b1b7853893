// Instructions and the ends of blocks. A register is a number below 32, a label the position of a
// block, a table its number in the code.

use tp_value::{Place, TrapKind};

/// An operand.
#[derive(Clone, Copy, PartialEq, Eq, Debug)]
pub enum Value {
    /// What a register holds.
    Reg(u8),
    /// A number.
    Int(i64),
    /// A block.
    Label(u32),
    /// Nothing.
    Nil,
}

/// An operator between a register and an operand.
#[derive(Clone, Copy, PartialEq, Eq, Debug)]
pub enum Alu {
    /// The wrapped sum.
    Add,
    /// The wrapped difference.
    Sub,
    /// The wrapped product.
    Mul,
    /// The quotient, truncated toward zero.
    Div,
    /// The remainder of that quotient.
    Rem,
    /// 1 where both words are the same, else 0.
    Eq,
    /// 1 where they differ, else 0.
    Ne,
    /// 1 where the left number is below the right one, else 0.
    Lt,
    /// 1 where it is at most the right one, else 0.
    Le,
    /// The lesser number.
    Min,
    /// The greater number.
    Max,
    /// The composition of two maps from x to m * x + c modulo 2^32.
    Affine,
}

/// An instruction.
#[derive(Clone, Copy, PartialEq, Eq, Debug)]
pub enum Instr {
    /// `rA := v`: a register gets an operand.
    Move {
        to: u8,
        value: Value,
    },
    /// `rA := rB OP v`: a register gets the result of a calculation.
    Calc {
        to: u8,
        left: u8,
        alu: Alu,
        right: Value,
    },
    /// `if-jump rA, @l`: enters the block where the register's number isn't 0.
    IfJump {
        test: u8,
        label: u32,
    },
    /// `rA := mem[rB+n]`: reads the cell `off` above the position in `base`.
    Load {
        to: u8,
        base: u8,
        off: u16,
    },
    /// `mem[rA+n] := v`: writes that cell.
    Store {
        base: u8,
        off: u16,
        value: Value,
    },
    /// `salloc n`: that many cells more on the stack.
    Salloc(u16),
    /// `sfree n`: that many fewer.
    Sfree(u16),
    /// `prmpush mem[rA+c], n, @l`: marks a cell as the start of work that may be cut off. The work
    /// has `cells` cells from the position in `base` on, and `split` is the block that cuts it.
    PrmPush {
        base: u8,
        off: u16,
        cells: u16,
        split: u32,
    },
    /// `prmpop mem[rA+c]`: removes the mark there, if any.
    PrmPop {
        base: u8,
        off: u16,
    },
    /// `prmdrop`: removes the oldest mark.
    PrmDrop,
    /// `prmempty rA`: 1 where no mark stands, else 0.
    PrmEmpty(u8),
    /// `prmsplit rA, rB`: the base of the oldest mark, and its split label.
    PrmSplit {
        base: u8,
        split: u8,
    },
    /// `rA := jralloc @l`: asks for a join record for the join target l, or gets nothing.
    JrAlloc {
        to: u8,
        target: u32,
    },
    /// `fork rA, @l`: cuts the oldest mark's work in two under the record in `rec`; the child
    /// starts at l.
    Fork {
        rec: u8,
        child: u32,
    },
    /// `rA := fetch tK, rB, rC`: reads a cell of a table.
    Fetch {
        to: u8,
        table: u8,
        row: u8,
        col: u8,
    },
    /// `put tK, rA, rB, rC`: writes a cell of a table.
    Put {
        table: u8,
        row: u8,
        col: u8,
        value: u8,
    },
    /// `rA := rows tK`: the number of rows of a table.
    Rows {
        to: u8,
        table: u8,
    },
    /// `rA := cols tK`: the number of columns.
    Cols {
        to: u8,
        table: u8,
    },
    /// `make tK, rA, rB, line, col`: makes a table of zeros, of the rows and columns in two
    /// registers.
    Make {
        table: u8,
        rows: u8,
        cols: u8,
        place: Place,
    },
    /// `tick`: counts a tick against the fuel.
    Tick,
    /// `trap KIND, line, col`: stops the run.
    Trap {
        kind: TrapKind,
        place: Place,
    },
    /// `print rA`: appends a number to the output.
    Print(u8),
    /// `emit tK`: appends a table to the output.
    Emit(u8),
}

/// The end of a block.
#[derive(Clone, Copy, PartialEq, Eq, Debug)]
pub enum Term {
    /// `jump v`: enters the block that the operand names.
    Jump(Value),
    /// `halt`: ends the task.
    Halt,
    /// `join rA`: ends a side, or goes on behind the join where both sides have ended.
    Join(u8),
    /// `leave rA, rB`: ends a side that is left with a number.
    Leave { rec: u8, value: u8 },
}
