// The code of functions.

ghost use Rattle.std.specs.Prelude.{◌≡◌, ◌+◌, ◌<◌, ◌≤◌, ◌++◌, ◌∷◌, [], length, IfOk, OnOk};
ghost use Rattle.std.specs.List.{AllByRecursion};
ghost use Rattle.tp_value.specs.declared.limits.TheConstants.{MAX_BLOCKS, MAX_DECLARED_VARIABLES};
ghost use Rattle.tp_value.specs.declared.limits.TheConstants.{MAX_TABLES};
ghost use Rattle.loop_rules.specs.Names.{texts};
ghost use Rattle.tpal_syntax.specs.Listing.{Listing};
ghost use Rattle.block_lower.specs.Bodies.{entries, HasRoomFor};
ghost use Rattle.scene_laws.specs.Code as codes;
ghost use Rattle.scene_laws.specs.Heights.{FuncIsLow};
ghost use Rattle.scene_laws.specs.Layout.{return_cell};
ghost use Rattle.scene_laws.specs.Names.{SeesAfter};
ghost use Rattle.block_lower.specs.Programs as programs;
ghost use Rattle.block_lower.specs.Programs.{LowersFunc, LowersFuncs, FuncIsSmall};
ghost use Rattle.block_lower.specs.Programs.{FuncsFitNow};
ghost use Rattle.scene_laws.specs.Sizes as sizes;
ghost use Rattle.block_lower.specs.Writing as writing;
ghost use Rattle.block_lower.specs.Writing.{IsFresh, Stands, Continues};
ghost use Rattle.block_lower.specs.Conforming.{Conforms};

use crate::body::Callee;
use crate::layout::{RETURN, value_cell};
use crate::lowering::Lowering;
use crate::round::outermost;
use crate::sizes::{added_by_func, declared_by_list, kept_by_list};
use loop_syntax::{Func, Name};
use std::alloc::Global;
use tp_value::NoMemory;
use tpal_syntax::{Term, Value};

/// How many variables the activation of a function has room for.
fn most_of(f: &Func) -> usize
    requires { FuncIsSmall f.now }
    ensures { result ≡ programs.most_of f.now }
{
    f.params.len() + declared_by_list(&f.body)
}

/// How many cells it has.
#[tactic(auto, using(scene_laws::proofs::Counts::Adding::few_kept_by_list))]
fn size_of(f: &Func) -> u16
    requires small { FuncIsSmall f.now }
    requires low { FuncIsLow f.now }
    ensures { result ≡ programs.size_of f.now }
{
    value_cell(most_of(f)) + kept_by_list(&f.body)
}

/// Functions whose blocks stand one behind the other from a label on.
pub fn callees_of(
    alloc: Global,
    fs: &[Func],
    first: u32,
    calls: bool,
) -> Result<Vec<Callee>, NoMemory>
    requires labels { first + programs.added_by_funcs calls fs.now ≤ MAX_BLOCKS }
    requires small { AllByRecursion FuncIsSmall fs.now }
    requires low { AllByRecursion FuncIsLow fs.now }
    ensures { IfOk result
        (λ callees. entries callees.items ≡ programs.entries_from calls first fs.now) }
{
    let mut callees = Vec::new(alloc);
    let mut label = first;
    for f in fs {
        let name = Vec::from_slice(alloc, &f.name.text)?;
        callees.push(Callee {
            name,
            label,
            parameters: f.params.len(),
            size: size_of(f),
        })?;
        label += added_by_func(calls, f);
    }
    Ok(callees)
}

impl Lowering {
    /// Makes the parameters visible.
    fn declare_all(&mut self, params: &[Name]) -> Result<(), NoMemory>
        requires { length self.old.scope.cells.items + length params.now
            ≤ MAX_DECLARED_VARIABLES }
        ensures sees { OnOk result
            (SeesAfter (λ names. names ++ texts params.now) self.old.scope self.new.scope) }
        ensures cells { OnOk result
            (length self.new.scope.cells.items
            ≡ length self.old.scope.cells.items + length params.now) }
        ensures tables { OnOk result (self.new.scope.tables ≡ self.old.scope.tables) }
        ensures regs { OnOk result (self.new.scope.regs ≡ self.old.scope.regs) }
        ensures on { OnOk result (self.new.on ≡ self.old.on) }
        ensures out { OnOk result (self.new.out ≡ self.old.out) }
        ensures fit { OnOk result (Conforms self.old → Conforms self.new) }
    {
        for x in params {
            self.declare(x)?;
        }
        Ok(())
    }

    /// The end of a function, whose result is in register 0: control returns. Its activation still
    /// stands, and goes behind the call.
    fn push_return(&mut self) -> Result<(), NoMemory>
        requires { writing.next_label self.old.out ≤ MAX_BLOCKS }
        ensures labels { OnOk result
            (writing.next_label self.new.out ≡ writing.next_label self.old.out + 1) }
        ensures fresh { OnOk result (IsFresh self.new.out) }
        ensures code { OnOk result
            ((code : Listing)
            → Stands code self.new.out
            → Continues code self.old.out (codes.load 1 return_cell ∷ [])
            (Term.Jump (Value.Reg 1))) }
        ensures on { OnOk result (self.new.on ≡ self.old.on) }
        ensures scope { OnOk result (self.new.scope ≡ self.old.scope) }
        ensures fit { OnOk result (Conforms self.old → Conforms self.new) }
    {
        self.load(1, RETURN)?;
        self.close(Term::Jump(Value::Reg(1)))?;
        Ok(())
    }

    /// The blocks of a function.
    fn lower_func(&mut self, f: &Func) -> Result<(), NoMemory>
        requires few_tables { length self.old.scope.tables.items ≤ MAX_TABLES }
        requires low { FuncIsLow f.now }
        requires small { FuncIsSmall f.now }
        requires labels { writing.next_label self.old.out
            + sizes.added_by_func self.old.on.quiet_calls f.now
            ≤ MAX_BLOCKS }
        requires room { HasRoomFor self.old.on (sizes.kept_by_list f.now.body.items) }
        requires most { self.old.on.most ≡ programs.most_of f.now }
        requires cells { self.old.scope.cells.items ≡ [] }
        requires fresh { IsFresh self.old.out }
        requires fits { FuncsFitNow self.old.on self.old.scope (f.now ∷ []) }
        ensures labels { OnOk result
            (writing.next_label self.new.out
            ≡ writing.next_label self.old.out + sizes.added_by_func self.old.on.quiet_calls f.now) }
        ensures cells { OnOk result (self.new.scope.cells.items ≡ []) }
        ensures tables { OnOk result (self.new.scope.tables ≡ self.old.scope.tables) }
        ensures regs { OnOk result (self.new.scope.regs ≡ self.old.scope.regs) }
        ensures fresh { OnOk result (IsFresh self.new.out) }
        ensures code { OnOk result
            (LowersFunc self.old.on self.old.scope f.now self.old.out self.new.out) }
        ensures on { OnOk result (self.new.on ≡ self.old.on) }
    {
        self.declare_all(&f.params)?;
        self.lower_list(outermost(), &f.body)?;
        self.value(&f.result, 0)?;
        self.push_return()?;
        self.leave(0);
        Ok(())
    }

    /// The blocks of functions, one behind the other.
    pub fn lower_funcs(&mut self, fs: &[Func]) -> Result<(), NoMemory>
        requires few_tables { length self.old.scope.tables.items ≤ MAX_TABLES }
        requires low { AllByRecursion FuncIsLow fs.now }
        requires small { AllByRecursion FuncIsSmall fs.now }
        requires labels { writing.next_label self.old.out
            + programs.added_by_funcs self.old.on.quiet_calls fs.now
            ≤ MAX_BLOCKS }
        requires cells { self.old.scope.cells.items ≡ [] }
        requires fresh { IsFresh self.old.out }
        requires fits { FuncsFitNow self.old.on self.old.scope fs.now }
        ensures labels { OnOk result
            (writing.next_label self.new.out
            ≡ writing.next_label self.old.out
            + programs.added_by_funcs self.old.on.quiet_calls fs.now) }
        ensures fresh { OnOk result (IsFresh self.new.out) }
        ensures code { OnOk result
            (LowersFuncs self.old.on self.old.scope fs.now self.old.out self.new.out) }
    {
        for f in fs {
            self.on.most = most_of(f);
            self.on.size = size_of(f);
            self.lower_func(f)?;
        }
        Ok(())
    }
}
