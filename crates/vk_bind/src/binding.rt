//! From a checked module and a launch to where the run begins.

ghost use Rattle.std.specs.Prelude.{◌≡◌, ℕ, ◌<◌, ◌^◌, List, length, Some, [], ◌++◌, IfOk, IfErr, OnOk, option_to_list};
ghost use Rattle.launch_text.specs.Readable.{IsReadable};
ghost use Rattle.launch_text.specs.Rules.{loaded, buffer_given, broken, Taken, required_by};
ghost use Rattle.spv_reflect.specs.Reflection.{rows_of};
ghost use Rattle.vk_bind.specs.Answers.{taken_from, start_from, bounds_from, specs_from, rule_from, IsStopOf, IsAccepted, Keeps, Decides, FindsWhole, Suits, UnbrokenIsKept, KeptIsUnbroken};
ghost use Rattle.vk_bind.specs.Binding.{taken_of, BindsTo, takes_in, bound_by, bound_from, specialised_by};
ghost use Rattle.launch_text.specs.WorkItems.{sizes_of};

use crate::parameters::{Parameter, kernel_row, parameters};
use crate::rules::{
    ArgumentRule, fills_grid, first_breaking, first_of_other_size, first_unmatched, is_as_required,
    is_too_much_local, is_within_limits,
};
use crate::start::{BindStop, Bound, Spec, Start};
use clv_place::{List, NoMemory, Text};
use launch_text::{ArgKind, ArgLine, Launch};
use spv_module::Inst;
use spv_reflect::{ArgKindRow, ArgRow, KernelRow, Reflection};
use spv_types_rules::Checked;
use std::alloc::Global;

// A rule that a launch breaks, at an argument where the rule names one.
struct Broken {
    number: u8,
    arg: Option<u32>,
}

/// Binds a launch to a module: the buffers to the variables that the rows of the kernel's arguments name,
/// and the sizes of a work-group to the specialisation constants of the module's SpecIds. A launch that
/// breaks a rule is refused by the least rule that it breaks, at the least argument that breaks it. It
/// also fails for want of memory. The reflection is the module's, and the buffers are those of the
/// launch's files, in their order.
pub fn bind(
    alloc: Global,
    checked: Checked,
    reflection: &Reflection,
    launch: &Launch,
    buffers: List<Text>,
) -> Result<Start, BindStop>
    requires rows { rows_of checked.body ≡ Some reflection.now }
    requires readable { IsReadable launch.now }
    requires loaded { length buffers ≡ length launch.now.files }
    ensures ok { IfOk result (λ start. BindsTo checked.body (loaded launch.now buffers) (start_from start)) }
    ensures kept { IfOk result (λ start. Keeps checked buffers start) }
    ensures fault { IfErr result (IsStopOf (loaded launch.now buffers) (takes_in checked.body launch.now.kernel)) }
{
    let body = checked.module().body.as_slice();
    let kernel = accepted(alloc, body, reflection, launch, buffers.as_slice())?;
    let bound = bound_rows(alloc, kernel.args.as_slice(), launch.args.as_slice())?;
    let specs = specialised(alloc, reflection.sizes, launch.local)?;
    Ok(Start {
        checked,
        function: kernel.function,
        global: launch.global,
        local: launch.local,
        named: buffers.len() as u32,
        buffers,
        bound,
        push: Text::new(alloc),
        specs,
    })
}

// The row of the launch's kernel, where the launch keeps all rules.
fn accepted<'a>(
    alloc: Global,
    body: &[Inst],
    reflection: &'a Reflection,
    launch: &Launch,
    buffers: &[Text],
) -> Result<&'a KernelRow, BindStop>
    requires few { length body.now < 2 ^ 32 }
    requires rows { rows_of body.now ≡ Some reflection.now }
    requires readable { IsReadable launch.now }
    ensures ok { IfOk result (λ row. IsAccepted body.now reflection.now (loaded launch.now buffers.now) row.now) }
    ensures fault { IfErr result (IsStopOf (loaded launch.now buffers.now) (takes_in body.now launch.now.kernel)) }
{
    match kernel_row(reflection.kernels.as_slice(), launch.kernel.as_slice()) {
        Some(row) => {
            judged(alloc, body, row, launch, buffers)?;
            Ok(row)
        }
        None => Err(BindStop::Fault {
            number: 10,
            arg: None,
        }),
    }
}

/// Whether a launch keeps all rules on what a kernel takes.
pub fn judged(
    alloc: Global,
    body: &[Inst],
    row: &KernelRow,
    launch: &Launch,
    buffers: &[Text],
) -> Result<(), BindStop>
    requires few { length row.now.args < 2 ^ 32 }
    requires readable { IsReadable launch.now }
    ensures ok { OnOk result (Suits body.now row.now (loaded launch.now buffers.now)) }
    ensures fault { IfErr result (IsStopOf (loaded launch.now buffers.now) (taken_of body.now row.now)) }
{
    match parameters(alloc, body, row.args.as_slice())? {
        Some(parameters) => {
            match least_broken(parameters.as_slice(), row.required, launch, buffers) {
                Some(Broken { number, arg }) => Err(BindStop::Fault { number, arg }),
                None => Ok(()),
            }
        }
        None => Err(BindStop::Fault {
            number: 10,
            arg: None,
        }),
    }
}

// The least rule that a launch breaks, at the least argument.
fn least_broken(
    parameters: &[Parameter],
    required: Option<[u32; 3]>,
    launch: &Launch,
    buffers: &[Text],
) -> Option<Broken>
    requires few { length parameters.now < 2 ^ 32 }
    requires readable { IsReadable launch.now }
    ensures { Decides (loaded launch.now buffers.now) (taken_from parameters.now required) result }
{
    if let Some(ordinal) = first_unmatched(parameters, launch) {
        return Some(at(11, ordinal));
    }
    if let Some(ordinal) = first_breaking(ArgumentRule::Kind, parameters, launch) {
        return Some(at(12, ordinal));
    }
    if let Some(ordinal) = first_of_other_size(parameters, launch, buffers) {
        return Some(at(14, ordinal));
    }
    if let Some(ordinal) = first_breaking(ArgumentRule::Elements, parameters, launch) {
        return Some(at(15, ordinal));
    }
    if let Some(ordinal) = first_breaking(ArgumentRule::Restricted, parameters, launch) {
        return Some(at(16, ordinal));
    }
    match broken_whole(required, launch) {
        Some(number) => Some(Broken { number, arg: None }),
        None => None,
    }
}

// A rule that an argument breaks.
fn at(number: u8, ordinal: u32) -> Broken
    ensures { rule_from result ≡ broken number (Some ordinal) }
{
    Broken {
        number,
        arg: Some(ordinal),
    }
}

// The least rule from 18 on that the launch as a whole breaks.
fn broken_whole(required: Option<[u32; 3]>, launch: &Launch) -> Option<u8>
    requires readable { IsReadable launch.now }
    ensures { (buffers : List (List ℕ)) (t : Taken) → t.required ≡ required_by required → FindsWhole (loaded launch.now buffers) t result }
{
    if !fills_grid(launch) {
        return Some(18);
    }
    if !is_within_limits(launch) {
        return Some(19);
    }
    if !is_as_required(required, launch.local) {
        return Some(20);
    }
    if is_too_much_local(launch.args.as_slice()) {
        return Some(21);
    }
    None
}

/// What the rows of the arguments are bound to.
pub fn bound_rows(alloc: Global, rows: &[ArgRow], args: &[ArgLine]) -> Result<List<Bound>, NoMemory>
    ensures { IfOk result (λ bound. bounds_from bound ≡ bound_from args.now 0 rows.now) }
{
    let mut bound = List::new(alloc);
    for ordinal in 0..rows.len() {
        let row = &rows[ordinal];
        let found = bound_at(row.kind, args, ordinal);
        add(&mut bound, found)?;
    }
    Ok(bound)
}

/// A launch that breaks no rule on what a kernel takes keeps the rules, and one that keeps them breaks
/// none: so a launch is bound or refused, and never both.
pub fn kept_or_broken()
    ensures kept { UnbrokenIsKept }
    ensures broken { KeptIsUnbroken }
{}

// Adds what there is.
fn add(bound: &mut List<Bound>, found: Option<Bound>) -> Result<(), NoMemory>
    ensures { OnOk result (bound.new ≡ bound.old ++ option_to_list found) }
{
    match found {
        Some(found) => bound.push(found),
        None => Ok(()),
    }
}

// What an argument is bound to, if it is given a buffer.
fn bound_at(kind: ArgKindRow, args: &[ArgLine], ordinal: usize) -> Option<Bound>
    ensures { bound_by kind (buffer_given ordinal args.now) [] ≡ bounds_from (option_to_list result) }
{
    match kind {
        ArgKindRow::Buffer { set, binding } => match buffer(args, ordinal) {
            Some(buffer) => Some(Bound {
                set,
                binding,
                buffer,
            }),
            None => None,
        },
        _ => None,
    }
}

// The buffer that an argument is given.
fn buffer(args: &[ArgLine], ordinal: usize) -> Option<u32>
    ensures { result ≡ buffer_given ordinal args.now }
{
    let mut rest = args;
    while let [arg, others @ ..] = rest {
        if let ArgKind::Buffer { file } = arg.kind {
            if arg.ordinal as usize == ordinal {
                return Some(file);
            }
        }
        rest = others;
    }
    None
}

// The values of the constants that make a group's size.
fn specialised(
    alloc: Global,
    sizes: Option<[u32; 3]>,
    local: [u32; 3],
) -> Result<List<Spec>, NoMemory>
    ensures { IfOk result (λ specs. specs_from specs ≡ specialised_by sizes (sizes_of local)) }
{
    let mut specs = List::new(alloc);
    if let Some(ids) = sizes {
        specs.push(Spec {
            id: ids[0],
            value: local[0],
        })?;
        specs.push(Spec {
            id: ids[1],
            value: local[1],
        })?;
        specs.push(Spec {
            id: ids[2],
            value: local[2],
        })?;
    }
    Ok(specs)
}
