//! The rules that a launch keeps for what a kernel takes, each by itself. Parameters of today's modules
//! are pointers into buffers, which can break neither rule 13 nor rule 17.

ghost use Rattle.std.specs.Prelude.{◌≡◌, ℕ, ◌+◌, ◌<◌, ◌≤◌, ◌^◌, nat_lt, List, length, Option, Some, None, option_map, option_copied, MatchBool};
ghost use Rattle.std.specs.List.{list_all, list_any};
ghost use Rattle.launch_text.specs.declared.launch.ArgKind.{ArgKind};
ghost use Rattle.launch_text.specs.Readable.{IsReadable};
ghost use Rattle.launch_text.specs.Rules as spec;
ghost use Rattle.launch_text.specs.Rules.{loaded, required_by};
ghost use Rattle.launch_text.specs.WorkItems.{sizes_of, volume};
ghost use Rattle.vk_bind.specs.Answers.{scalars_of, parameter_from, parameters_from, taken_from, alone_by, alone_at, Finds, FindsMissing, FindsPast, SumAfter, number_by, sooner, sum_within};

use crate::elements::Scalar;
use crate::parameters::Parameter;
use clv_place::Text;
use launch_text::{ArgKind, ArgLine, Launch};

/// The most bytes of a buffer: 16 MiB.
pub const MAX_BUFFER: usize = 16 << 20;

/// The most bytes of all buffers: 64 MiB.
const MAX_BUFFERS: u64 = 64 << 20;

/// The most bytes of local memory that the arguments have.
const MAX_LOCAL: u32 = 32_768;

/// The most work-items of a work-group.
pub const MAX_GROUP: u128 = 1024;

/// The most work-items of a grid.
pub const MAX_GRID: u128 = 16_384;

/// What a launch gives an argument, if there is a line for it.
pub fn line(args: &[ArgLine], ordinal: u32) -> Option<&ArgKind>
    ensures { option_copied result ≡ spec.given_to ordinal args.now }
{
    let mut rest = args;
    while let [arg, others @ ..] = rest {
        if arg.ordinal == ordinal {
            return Some(&arg.kind);
        }
        rest = others;
    }
    None
}

// Whether there is a line for an argument.
fn has_line(args: &[ArgLine], ordinal: u32) -> bool
    ensures { MatchBool result ((kind : ArgKind) × (spec.given_to ordinal args.now ≡ Some kind)) (spec.given_to ordinal args.now ≡ None) }
{
    match line(args, ordinal) {
        Some(_) => true,
        None => false,
    }
}

/// The least argument that breaks rule 11: one without a line, or a line past the arguments.
pub fn first_unmatched(parameters: &[Parameter], launch: &Launch) -> Option<u32>
    requires few { length parameters.now < 2 ^ 32 }
    ensures { (buffers : List (List ℕ)) (required : Option (List ℕ)) → Finds (loaded launch.now buffers) (taken_from parameters.now required) 11 result }
{
    let count = parameters.len() as u32;
    let args = launch.args.as_slice();
    match first_missing(count, args) {
        Some(ordinal) => Some(ordinal),
        None => first_past(count, args),
    }
}

// The first of so many arguments that has no line.
fn first_missing(count: u32, args: &[ArgLine]) -> Option<u32>
    ensures { FindsMissing count args.now result }
{
    for ordinal in 0..count {
        if !has_line(args, ordinal) {
            return Some(ordinal);
        }
    }
    None
}

// The least ordinal of a line past so many arguments.
fn first_past(count: u32, args: &[ArgLine]) -> Option<u32>
    ensures { FindsPast count args.now result }
{
    let mut least = None;
    for arg in args {
        least = sooner(least, count, arg.ordinal);
    }
    least
}

// The lesser of an ordinal found and another, if that is past so many arguments.
fn sooner(least: Option<u32>, count: u32, ordinal: u32) -> Option<u32>
    ensures { result ≡ sooner least count ordinal }
{
    match least {
        Some(found) => {
            if ordinal < count || found <= ordinal {
                Some(found)
            } else {
                Some(ordinal)
            }
        }
        None => { if ordinal < count { None } else { Some(ordinal) } }
    }
}

/// The rules on one argument that are looked for in the same way.
#[derive(Clone, Copy, PartialEq, Eq, Debug)]
pub enum ArgumentRule {
    /// Rule 12: an argument of another kind.
    Kind,
    /// Rule 15: one buffer for two arguments with other elements.
    Elements,
    /// Rule 16: one buffer for two arguments, of which one is `restrict`.
    Restricted,
}

impl ArgumentRule {
    /// Its number.
    pub fn number(self) -> u8
        ensures { result ≡ number_by self }
    {
        match self {
            ArgumentRule::Kind => 12,
            ArgumentRule::Elements => 15,
            ArgumentRule::Restricted => 16,
        }
    }
}

/// The least argument that breaks a rule.
pub fn first_breaking(rule: ArgumentRule, parameters: &[Parameter], launch: &Launch) -> Option<u32>
    requires few { length parameters.now < 2 ^ 32 }
    ensures { (buffers : List (List ℕ)) (required : Option (List ℕ)) → Finds (loaded launch.now buffers) (taken_from parameters.now required) (number_by rule) result }
{
    let args = launch.args.as_slice();
    for ordinal in 0..parameters.len() as u32 {
        if breaks(rule, parameters, args, ordinal) {
            return Some(ordinal);
        }
    }
    None
}

// Whether an argument breaks a rule.
fn breaks(rule: ArgumentRule, parameters: &[Parameter], args: &[ArgLine], ordinal: u32) -> bool
    ensures { result ≡ alone_at (parameters_from parameters.now) args.now rule ordinal }
{
    let Some(parameter) = parameters.get(ordinal as usize) else {
        return false;
    };
    match line(args, ordinal) {
        Some(kind) => breaks_given(rule, parameters, args, ordinal, parameter, kind),
        None => false,
    }
}

// Whether it does, with this parameter and being given this.
fn breaks_given(
    rule: ArgumentRule,
    parameters: &[Parameter],
    args: &[ArgLine],
    ordinal: u32,
    parameter: &Parameter,
    kind: &ArgKind,
) -> bool
    ensures { result ≡ alone_by (parameters_from parameters.now) args.now rule ordinal (parameter_from parameter.now) kind.now }
{
    match rule {
        ArgumentRule::Kind => !is_of_kind(parameter, kind),
        ArgumentRule::Elements => has_other_elements(parameters, args, parameter, kind),
        ArgumentRule::Restricted => {
            parameter.restricted && has_buffer_of_another(args, ordinal, kind)
        }
    }
}

// Whether what an argument is given is of its parameter's kind.
fn is_of_kind(parameter: &Parameter, kind: &ArgKind) -> bool
    ensures { result ≡ spec.is_of_kind (parameter_from parameter.now) kind.now }
{
    match kind {
        ArgKind::Buffer { .. } => true,
        ArgKind::Local { .. } => false,
        ArgKind::Plain { .. } => false,
    }
}

// Whether an argument is given this file.
fn is_file(file: u32, kind: &ArgKind) -> bool
    ensures { result ≡ spec.is_file file kind.now }
{
    match kind {
        ArgKind::Buffer { file: given } => *given == file,
        _ => false,
    }
}

// Whether another argument has the buffer, with other elements.
fn has_other_elements(
    parameters: &[Parameter],
    args: &[ArgLine],
    parameter: &Parameter,
    kind: &ArgKind,
) -> bool
    ensures { result ≡ spec.has_other_elements (parameters_from parameters.now) args.now (parameter_from parameter.now) kind.now }
{
    match kind {
        ArgKind::Buffer { file } => are_other_elements(parameters, args, parameter, *file),
        _ => false,
    }
}

// Whether a line gives this file to an argument with other elements.
fn are_other_elements(
    parameters: &[Parameter],
    args: &[ArgLine],
    parameter: &Parameter,
    file: u32,
) -> bool
    ensures { result ≡ list_any (spec.gives_other_elements (parameters_from parameters.now) (parameter_from parameter.now) file) args.now }
{
    let mut rest = args;
    while let [arg, others @ ..] = rest {
        if is_file(file, &arg.kind)
            && !same_elements(parameter, parameters.get(arg.ordinal as usize))
        {
            return true;
        }
        rest = others;
    }
    false
}

// Whether the elements are the same, where there is another parameter.
fn same_elements(parameter: &Parameter, other: Option<&Parameter>) -> bool
    ensures { result ≡ spec.same_elements (parameter_from parameter.now) (option_map parameter_from (option_copied other.entry)) }
{
    match other {
        Some(other) => {
            parameter.stride == other.stride
                && same_scalars(parameter.scalars.as_slice(), other.scalars.as_slice())
        }
        None => true,
    }
}

fn same_scalars(scalars: &[Scalar], others: &[Scalar]) -> bool
    ensures { result ≡ spec.same_scalars (scalars_of scalars.now) (scalars_of others.now) }
{
    let mut rest = scalars;
    let mut other_rest = others;
    while let [scalar, behind @ ..] = rest {
        match other_rest {
            [other, other_behind @ ..] => {
                if scalar.offset != other.offset || scalar.bits != other.bits {
                    return false;
                }
                rest = behind;
                other_rest = other_behind;
            }
            [] => return false,
        }
    }
    other_rest.is_empty()
}

// Whether another argument has the buffer.
fn has_buffer_of_another(args: &[ArgLine], ordinal: u32, kind: &ArgKind) -> bool
    ensures { result ≡ spec.has_buffer_of_another args.now ordinal kind.now }
{
    match kind {
        ArgKind::Buffer { file } => is_given_to_another(args, ordinal, *file),
        _ => false,
    }
}

// Whether a line gives this file to another argument.
fn is_given_to_another(args: &[ArgLine], ordinal: u32, file: u32) -> bool
    ensures { result ≡ list_any (spec.gives_another file ordinal) args.now }
{
    let mut rest = args;
    while let [arg, others @ ..] = rest {
        if is_file(file, &arg.kind) && arg.ordinal != ordinal {
            return true;
        }
        rest = others;
    }
    false
}

/// The least argument that breaks rule 14: a buffer of another size, or one at which all buffers
/// together become too large.
pub fn first_of_other_size(
    parameters: &[Parameter],
    launch: &Launch,
    buffers: &[Text],
) -> Option<u32>
    requires few { length parameters.now < 2 ^ 32 }
    ensures { (required : Option (List ℕ)) → Finds (loaded launch.now buffers.now) (taken_from parameters.now required) 14 result }
{
    let mut sum = 0;
    for ordinal in 0..parameters.len() as u32 {
        match sum_after(parameters, launch, buffers, ordinal, sum) {
            Some(after) => sum = after,
            None => return Some(ordinal),
        }
    }
    None
}

// The sum of the buffers up to an argument, by the sum before it. None where the argument breaks rule 14.
fn sum_after(
    parameters: &[Parameter],
    launch: &Launch,
    buffers: &[Text],
    ordinal: u32,
    sum: u64,
) -> Option<u64>
    requires sum { sum ≡ spec.sum_before (loaded launch.now buffers.now) ordinal }
    requires within { sum ≤ 67108864 }
    requires taken { ordinal < length parameters.now }
    ensures { (required : Option (List ℕ)) → SumAfter (loaded launch.now buffers.now) (taken_from parameters.now required) ordinal result }
{
    let args = launch.args.as_slice();
    match line(args, ordinal) {
        Some(kind) => {
            if !is_of_size(buffers, &parameters[ordinal as usize], kind) {
                return None;
            }
            with_added(sum, added(args, buffers, ordinal, kind))
        }
        None => Some(sum),
    }
}

// The sum with more bytes. None where it is over the limit.
fn with_added(sum: u64, added: u64) -> Option<u64>
    requires within { sum ≤ 67108864 }
    ensures { result ≡ sum_within (sum + added) }
{
    if added > MAX_BUFFERS - sum {
        None
    } else {
        Some(sum + added)
    }
}

// The bytes that an argument adds to the sum: each file counts once.
fn added(args: &[ArgLine], buffers: &[Text], ordinal: u32, kind: &ArgKind) -> u64
    ensures { result ≡ spec.added_by buffers.now args.now ordinal (Some kind.now) }
{
    match kind {
        ArgKind::Buffer { file } => {
            if is_given_before(args, ordinal, *file) {
                0
            } else {
                bytes_in(buffers, *file) as u64
            }
        }
        _ => 0,
    }
}

// Whether a line gives this file to an argument before this one.
fn is_given_before(args: &[ArgLine], ordinal: u32, file: u32) -> bool
    ensures { result ≡ list_any (spec.gives_before file ordinal) args.now }
{
    let mut rest = args;
    while let [arg, others @ ..] = rest {
        if is_file(file, &arg.kind) && arg.ordinal < ordinal {
            return true;
        }
        rest = others;
    }
    false
}

// The bytes of a buffer.
fn bytes_in(buffers: &[Text], file: u32) -> usize
    ensures { result ≡ spec.bytes_in buffers.now file }
{
    match buffers.get(file as usize) {
        Some(bytes) => bytes.len(),
        None => 0,
    }
}

// Whether a buffer is of the right size for its parameter.
fn is_of_size(buffers: &[Text], parameter: &Parameter, kind: &ArgKind) -> bool
    ensures { result ≡ spec.is_of_size buffers.now (parameter_from parameter.now) kind.now }
{
    match kind {
        ArgKind::Buffer { file } => is_buffer_size(parameter.stride, bytes_in(buffers, *file)),
        _ => true,
    }
}

// Whether so many bytes are a positive multiple of an element's size, and at most 16 MiB.
fn is_buffer_size(element: u32, bytes: usize) -> bool
    ensures { result ≡ spec.is_buffer_size element bytes }
{
    if element == 0 {
        return false;
    }
    bytes > 0 && bytes % element as usize == 0 && bytes <= MAX_BUFFER
}

/// Whether work-groups fill the grid (rule 18).
pub fn fills_grid(launch: &Launch) -> bool
    requires readable { IsReadable launch.now }
    ensures { result ≡ spec.fills_grid (sizes_of launch.now.global) (sizes_of launch.now.local) }
{
    divides(launch.local[0], launch.global[0])
        && divides(launch.local[1], launch.global[1])
        && divides(launch.local[2], launch.global[2])
}

fn divides(part: u32, whole: u32) -> bool
    requires { 1 ≤ part }
    ensures { result ≡ spec.divides part whole }
{
    whole % part == 0
}

/// Whether a work-group has at most 1,024 work-items and the grid at most 16,384 (rule 19).
pub fn is_within_limits(launch: &Launch) -> bool
    ensures { result ≡ spec.is_within_limits (sizes_of launch.now.global) (sizes_of launch.now.local) }
{
    volume(launch.local) <= MAX_GROUP && volume(launch.global) <= MAX_GRID
}

// The number of work-items in sizes.
fn volume(sizes: [u32; 3]) -> u128
    ensures { result ≡ volume (sizes_of sizes) }
{
    sizes[0] as u128 * sizes[1] as u128 * sizes[2] as u128
}

/// Whether a work-group has the size that the kernel requires, where it does (rule 20).
pub fn is_as_required(required: Option<[u32; 3]>, local: [u32; 3]) -> bool
    ensures { result ≡ list_all (spec.same_sizes (sizes_of local)) (required_by required) }
{
    match required {
        Some(sizes) => { local[0] == sizes[0] && local[1] == sizes[1] && local[2] == sizes[2] }
        None => true,
    }
}

/// Whether the bytes of the local lines, summed, are over 32,768 (rule 21).
pub fn is_too_much_local(args: &[ArgLine]) -> bool
    ensures { result ≡ nat_lt 32768 (spec.local_sum args.now) }
{
    let mut left = MAX_LOCAL;
    let mut rest = args;
    while let [arg, others @ ..] = rest {
        let bytes = local_bytes(&arg.kind);
        if bytes > left {
            return true;
        }
        left -= bytes;
        rest = others;
    }
    false
}

fn local_bytes(kind: &ArgKind) -> u32
    ensures { result ≡ spec.local_bytes kind.now }
{
    match kind {
        ArgKind::Local { bytes } => *bytes,
        _ => 0,
    }
}
