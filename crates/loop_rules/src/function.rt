// The walk over functions and main.

ghost use Rattle.std.specs.Prelude.{◌≡◌, ◌∷◌, ◌++◌, IfOk};
ghost use Rattle.loop_rules.specs.Declarations.{declared_list};
ghost use Rattle.loop_rules.specs.Limits.{past};
ghost use Rattle.loop_rules.specs.Sites.{site, in_params, in_list, in_whole, spot_of_list};
ghost use Rattle.loop_rules.specs.Sites.{DeclaresAll};
ghost use Rattle.loop_rules.specs.Search.{lowest, lowest_in, resolved_rules};
ghost use Rattle.loop_rules.specs.Walk.{named, spot_of, spot_of_params, Walked};

use crate::declaration::push_all;
use crate::expression::in_whole;
use crate::fault::{Fault, note};
use crate::rule::Rule;
use crate::spot::Spot;
use crate::statement::{declares, in_list};
use loop_syntax::{Func, Name, Stmt};
use std::alloc::Global;
use tp_value::{MAX_DECLARED_VARIABLES, MAX_PARAMETERS, NoMemory};

/// The parameters of a function, each visible from the next one on.
fn in_params<'a>(
    spot: &mut Spot<'a, '_>,
    found: &mut Option<Fault>,
    params: &'a [Name],
) -> Result<(), NoMemory>
    ensures { IfOk result (λ u.
        Walked found.old found.new (in_params (spot_of spot.old) params.now) spot.new
        (spot_of_params (spot_of spot.old) params.now)) }
{
    for x in params {
        declares(spot, found, x);
        spot.scope.declare(&x.text)?;
    }
    Ok(())
}

/// The first parameter past the limit.
pub fn ninth_parameter(found: &mut Option<Fault>, params: &[Name])
    ensures { found.new ≡ lowest found.old Rule.Limits (past MAX_PARAMETERS params.now) }
{
    if params.len() > MAX_PARAMETERS {
        note(found, Rule::Limits, params[MAX_PARAMETERS].place);
    }
}

/// The first variable past the limit.
fn past_variables(found: &mut Option<Fault>, names: &[&Name])
    ensures { found.new
        ≡ lowest found.old Rule.Limits (past MAX_DECLARED_VARIABLES (named names.now)) }
{
    if names.len() > MAX_DECLARED_VARIABLES {
        note(found, Rule::Limits, names[MAX_DECLARED_VARIABLES].place);
    }
}

/// What a function or main declares: its parameters and the variables of its body.
pub fn declares_all(
    alloc: Global,
    found: &mut Option<Fault>,
    params: &[Name],
    body: &[Stmt],
) -> Result<(), NoMemory>
    ensures { IfOk result (λ u.
        found.new
        ≡ lowest found.old Rule.Limits (past MAX_DECLARED_VARIABLES (params.now
        ++ declared_list body.now))) }
{
    let mut names = Vec::new(alloc);
    for x in params {
        names.push(x)?;
    }
    push_all(&mut names, body)?;
    past_variables(found, &names);
    Ok(())
}

/// The parameters, the body and the result of a function.
pub fn in_func<'a>(
    spot: &mut Spot<'a, '_>,
    found: &mut Option<Fault>,
    func: &'a Func,
) -> Result<(), NoMemory>
    ensures { IfOk result (λ u.
        let s = spot_of_params (spot_of spot.old) func.now.params.items in found.new
        ≡ lowest_in resolved_rules found.old (in_params (spot_of spot.old) func.now.params.items
        ++ (in_list s func.now.body.items
        ++ in_whole (spot_of_list s func.now.body.items) func.now.result))) }
{
    in_params(spot, found, &func.params)?;
    in_list(spot, found, &func.body)?;
    in_whole(spot, found, &func.result);
    Ok(())
}
