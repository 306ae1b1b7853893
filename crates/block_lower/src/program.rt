// The code of a program.

ghost use Rattle.std.specs.Prelude.{◌≡◌, ◌+◌, ◌≤◌, pos, max, map, ◌∷◌, [], length, IfOk, IfErr};
ghost use Rattle.std.specs.Prelude.{OnOk, true};
ghost use Rattle.tp_value.specs.declared.limits.TheConstants.{MAX_BLOCKS, MAX_TABLES};
ghost use Rattle.tpal_syntax.specs.Listing.{Listing};
ghost use Rattle.expr_lower.specs.Standing.{AreAt};
ghost use Rattle.block_lower.specs.Bodies.{entries, HasRoomFor};
ghost use Rattle.scene_laws.specs.Built.{program_is_built};
ghost use Rattle.scene_laws.specs.Code as codes;
ghost use Rattle.scene_laws.specs.Count.{blocks_of_program};
ghost use Rattle.code_laws.specs.Fitting.{ProgramFits};
ghost use Rattle.scene_laws.specs.Layout.{levels_cell, value_cell};
ghost use Rattle.code_laws.specs.Main.{IsProgram};
ghost use Rattle.form_laws.specs.Functions.{table_name};
ghost use Rattle.scene_laws.specs.Names.{SeesBare};
ghost use Rattle.scene_laws.specs.Tables.{AreDeclared};
ghost use Rattle.code_laws.specs.Owing.{OwesMeaning};
ghost use Rattle.block_lower.specs.Programs as programs;
ghost use Rattle.block_lower.specs.Programs.{LowersMain};
ghost use Rattle.block_lower.specs.Refusing.{IsCause};
ghost use Rattle.scene_laws.specs.Sizes as sizes;
ghost use Rattle.block_lower.specs.Writing as writing;
ghost use Rattle.block_lower.specs.Writing.{IsFresh, Pushes};
ghost use Rattle.block_lower.specs.Conforming.{Conforms};

use crate::body::Body;
use crate::count::block_count;
use crate::fault::LowerFault;
use crate::function::callees_of;
use crate::layout::{LEVELS, value_cell};
use crate::lowering::Lowering;
use crate::output::{Output, no_output};
use crate::quiet::functions_are_quiet;
use crate::round::outermost;
use crate::sizes::{
    added_by_decls, added_by_func, added_by_list, declared_by_list, kept_by_decls, kept_by_list,
};
use expr_lower::Scope;
use handler_gen::dispatch;
use loop_check::Checked;
use loop_syntax::{Program, TableDecl};
use std::alloc::Global;
use tp_value::{Items, MAX_BLOCKS, MAX_CALL_DEPTH, NoMemory};
use tpal_syntax::{Block, Code, CodeTable, Instr, Term, Value};

/// The tables of a code are those that the program declares.
fn code_tables(alloc: Global, tables: &[TableDecl]) -> Result<Vec<CodeTable>, NoMemory>
    ensures { IfOk result (λ all. AreDeclared tables.now all.items) }
{
    let mut all = Vec::new(alloc);
    for table in tables {
        match table {
            TableDecl::Input(x) => {
                let name = Vec::from_slice(alloc, &x.text)?;
                all.push(CodeTable::Input(Items::new(name)))?;
            }
            TableDecl::Made(_, _, _) => all.push(CodeTable::Made)?,
        }
    }
    Ok(all)
}

/// How many blocks main has, with those of the sizes of the tables.
fn added_by_main(program: &Program, calls: bool) -> u32
    requires calls { calls ≡ programs.quiet_calls program.now }
    requires labels { programs.added_by_main program.now ≤ MAX_BLOCKS }
    ensures { result ≡ programs.added_by_main program.now }
{
    added_by_decls(&program.tables) + added_by_list(calls, &program.main) + 1
}

/// The label of the block behind those of main and of the functions, to which each beat goes.
fn dispatch_label(program: &Program, calls: bool) -> u32
    requires calls { calls ≡ programs.quiet_calls program.now }
    requires labels { programs.added_by_program program.now ≤ MAX_BLOCKS }
    ensures { result ≡ programs.dispatch_of program.now }
{
    let mut label = added_by_main(program, calls);
    for f in &program.funcs {
        label += added_by_func(calls, f);
    }
    label
}

/// What the code of main's statements stands on.
fn main_body(alloc: Global, program: &Program) -> Result<Body, NoMemory>
    requires fits { ProgramFits program.now }
    requires labels { programs.added_by_program program.now ≤ MAX_BLOCKS }
    ensures callees { IfOk result
        (λ on. entries on.callees.items
        ≡ programs.entries_from (programs.quiet_calls program.now)
        (programs.added_by_main program.now) program.now.funcs.items) }
    ensures most { IfOk result
        (λ on. on.most ≡ sizes.declared_by_list program.now.main.items) }
    ensures size { IfOk result
        (λ on. on.size
        ≡ value_cell (sizes.declared_by_list program.now.main.items)
        + max (sizes.kept_by_list program.now.main.items)
        (sizes.kept_by_decls program.now.tables.items)) }
    ensures calls { IfOk result (λ on. on.quiet_calls ≡ programs.quiet_calls program.now) }
    ensures dispatch { IfOk result (λ on. on.dispatch ≡ programs.dispatch_of program.now) }
    ensures tables { IfOk result (λ on. on.tables ≡ length program.now.tables.items) }
{
    let quiet_calls = functions_are_quiet(&program.funcs);
    let first = added_by_main(program, quiet_calls);
    let most = declared_by_list(&program.main);
    let kept = kept_by_list(&program.main).max(kept_by_decls(&program.tables));
    let size = value_cell(most) + kept;
    let dispatch = dispatch_label(program, quiet_calls);
    let callees = callees_of(alloc, &program.funcs, first, quiet_calls)?;
    Ok(Body {
        callees,
        most,
        size,
        quiet_calls,
        dispatch,
        tables: program.tables.len(),
    })
}

impl Lowering {
    /// The first instructions of main: its activation, with all levels of calls left.
    fn push_first_activation(&mut self) -> Result<(), NoMemory>
        ensures pushed { OnOk result
            (Pushes
            (Instr.Salloc self.old.on.size
            ∷ codes.store levels_cell (Value.Int (pos MAX_CALL_DEPTH)) ∷ [])
            self.old.out self.new.out) }
        ensures labels { OnOk result
            (writing.next_label self.new.out ≡ writing.next_label self.old.out) }
        ensures on { OnOk result (self.new.on ≡ self.old.on) }
        ensures scope { OnOk result (self.new.scope ≡ self.old.scope) }
        ensures fit { OnOk result (Conforms self.old → Conforms self.new) }
    {
        let size = self.on.size;
        self.push(Instr::Salloc(size))?;
        self.store(LEVELS, Value::Int(MAX_CALL_DEPTH as i64))?;
        Ok(())
    }

    /// The blocks of main, which declares the tables on its way.
    fn lower_main(&mut self, program: &Program) -> Result<(), NoMemory>
        requires fits { ProgramFits program.now }
        requires labels { writing.next_label self.old.out + programs.added_by_main program.now
            ≤ MAX_BLOCKS }
        requires most { self.old.on.most ≡ sizes.declared_by_list program.now.main.items }
        requires room { HasRoomFor self.old.on
            (max (sizes.kept_by_list program.now.main.items)
            (sizes.kept_by_decls program.now.tables.items)) }
        requires nothing { (self.old.scope.cells.items ≡ []) × (self.old.scope.regs.items ≡ [])
            × (self.old.scope.tables.items ≡ []) }
        requires fresh { IsFresh self.old.out }
        requires calls { self.old.on.quiet_calls ≡ programs.quiet_calls program.now }
        requires callees { entries self.old.on.callees.items
            ≡ programs.entries_from (programs.quiet_calls program.now)
            (programs.added_by_main program.now) program.now.funcs.items }
        ensures labels { OnOk result
            (writing.next_label self.new.out
            ≡ writing.next_label self.old.out + programs.added_by_main program.now) }
        ensures fresh { OnOk result (IsFresh self.new.out) }
        ensures cells { OnOk result (self.new.scope.cells.items ≡ []) }
        ensures tables { OnOk result (length self.new.scope.tables.items ≤ MAX_TABLES) }
        ensures sees { OnOk result
            (SeesBare self.new.scope [] (map table_name program.now.tables.items)) }
        ensures code { OnOk result (LowersMain self.old.on program.now self.old.out self.new.out) }
        ensures on { OnOk result (self.new.on ≡ self.old.on) }
    {
        self.push_first_activation()?;
        self.push_makes(&program.tables)?;
        self.lower_list(outermost(), &program.main)?;
        self.close(Term::Halt)?;
        self.leave(0);
        Ok(())
    }
}

/// A code in which nothing is written.
fn no_code(alloc: Global, on: Body) -> Lowering
    ensures blocks { result.out.blocks.items ≡ [] }
    ensures fresh { IsFresh result.out }
    ensures nothing { (result.scope.cells.items ≡ []) × (result.scope.regs.items ≡ [])
        × (result.scope.tables.items ≡ []) }
    ensures on { result.on ≡ on }
{
    Lowering {
        alloc,
        out: no_output(alloc),
        scope: Scope {
            cells: Vec::new(alloc),
            regs: Vec::new(alloc),
            tables: Vec::new(alloc),
            next_label: 0,
        },
        on,
    }
}

/// The blocks of a program, by their labels: those of main, those of its functions, and the one to
/// which each beat goes.
fn program_blocks(alloc: Global, program: &Program) -> Result<Vec<Block>, NoMemory>
    requires fits { ProgramFits program.now }
    requires built { program_is_built program.now ≡ true }
    requires labels { programs.added_by_program program.now + 1 ≤ MAX_BLOCKS }
    ensures count { IfOk result
        (λ blocks. length blocks.items ≡ programs.added_by_program program.now) }
    ensures code { IfOk result
        (λ blocks. (code : Listing)
        → AreDeclared program.now.tables.items code.tables
        → AreAt code 0 blocks.items
        → IsProgram code program.now) }
{
    let on = main_body(alloc, program)?;
    let last = dispatch(alloc, on.dispatch)?;
    let mut lowering = no_code(alloc, on);
    lowering.lower_main(program)?;
    lowering.lower_funcs(&program.funcs)?;
    let Lowering {
        alloc: _,
        out,
        scope: _,
        on: _,
    } = lowering;
    let Output {
        mut blocks,
        body: _,
        traps: _,
        note: _,
    } = out;
    blocks.push(last)?;
    Ok(blocks)
}

/// The code of a program for which there is code. Its first task owes the program's meaning, where
/// nothing is diverted and whatever is promoted. `Blocks` comes exactly where the blocks that are
/// counted are more than 65,536.
pub fn lower(alloc: Global, program: &Checked) -> Result<Code, LowerFault>
    requires built { program_is_built program.now ≡ true }
    ensures owes { IfOk result (λ code. OwesMeaning program.now code) }
    ensures fits { IfOk result (λ code. blocks_of_program program.now ≤ MAX_BLOCKS) }
    ensures count { IfOk result (λ code. length code.blocks ≤ blocks_of_program program.now) }
    ensures cause { IfErr result (IsCause program.now) }
{
    let count = block_count(program);
    if count > MAX_BLOCKS as u64 {
        return Err(LowerFault::Blocks(count));
    }
    let program = program.program();
    let blocks = program_blocks(alloc, program)?;
    let tables = code_tables(alloc, &program.tables)?;
    match Code::new(alloc, tables, blocks)? {
        Some(code) => Ok(code),
        // A trap may name no line and no column 0, and no program that was read from a text has
        // such a place.
        None => Err(LowerFault::NoMemory),
    }
}
