//! The work-item functions (OpenCL C 1.2, 6.12.1).

ghost use Rattle.std.specs.Prelude.{◌≡◌, ◌/◌, ◌%◌, ◌<◌, if◌then◌else◌};
ghost use Rattle.cl_common.specs.Operators.{arguments_of, grid_value};
ghost use Rattle.cl_meaning.specs.Views.{beyond, is_dimensional};
ghost use Rattle.launch_text.specs.WorkItems.{along, place_of, sizes_of};

use cl_types::Builtin;
use launch_text::LaunchSizes;

// The number along a dimension, of which there are three; 0 past them.
fn along(d: u64, sizes: [u32; 3]) -> u32
    ensures { result ≡ along d (sizes_of sizes) }
{
    if d < 3 { sizes[d as usize] } else { 0 }
}

fn quotient(a: u64, b: u64) -> u64
    ensures { result ≡ a / b }
{
    if b == 0 { 0 } else { a / b }
}

fn remainder(a: u64, b: u64) -> u64
    ensures { result ≡ a % b }
{
    if b == 0 { a } else { a % b }
}

// Where an item stands along a dimension of the grid.
fn place_along(launch: &LaunchSizes, item: u32, d: u64) -> u64
    ensures { result ≡ along d (place_of launch.now item) }
{
    let [x, y, _z] = launch.global;
    match d {
        0 => remainder(item as u64, x as u64),
        1 => remainder(quotient(item as u64, x as u64), y as u64),
        2 => quotient(item as u64, x as u64 * y as u64),
        _ => 0,
    }
}

fn within(function: Builtin, launch: &LaunchSizes, item: u32, d: u64) -> u64
    requires { d < launch.now.dims }
    ensures { result ≡ (if is_dimensional function then grid_value launch.now item function d else 0) }
{
    let global = along(d, launch.global) as u64;
    let local = along(d, launch.local) as u64;
    match function {
        Builtin::GetGlobalSize => global,
        Builtin::GetGlobalId => place_along(launch, item, d),
        Builtin::GetLocalSize => local,
        Builtin::GetLocalId => remainder(place_along(launch, item, d), local),
        Builtin::GetNumGroups => quotient(global, local),
        Builtin::GetGroupId => quotient(place_along(launch, item, d), local),
        _ => 0,
    }
}

// At or past the work dimension.
fn beyond(function: Builtin) -> u64
    ensures { result ≡ beyond function }
{
    match function {
        Builtin::GetGlobalSize | Builtin::GetLocalSize | Builtin::GetNumGroups => 1,
        _ => 0,
    }
}

/// The value of a work-item function, by its argument.
pub fn grid_value(launch: &LaunchSizes, item: u32, function: Builtin, d: u64) -> u64
    ensures { result ≡ grid_value launch.now item function d }
{
    match function {
        Builtin::GetWorkDim => launch.dims as u64,
        _ => {
            if d < launch.dims as u64 {
                within(function, launch, item, d)
            } else {
                beyond(function)
            }
        }
    }
}

/// How many arguments it has.
pub fn arguments_of(function: Builtin) -> usize
    ensures { result ≡ arguments_of function }
{
    match function {
        Builtin::GetWorkDim => 0,
        _ => 1,
    }
}
