//! What an invocation holds between two steps.

ghost use Rattle.std.specs.Prelude.{◌≡◌, ◌<◌, ◌^◌, option_copied, option_map, Some, [], ◌∷◌};
ghost use Rattle.spv_meaning.specs.Invocation.{value_among, scalar_by, as_scalar, extracted};
ghost use Rattle.run_machine.specs.Views.{values_by, value_by};

use crate::spot::Spot;

/// A place in a grid.
#[derive(Clone, Copy)]
pub struct Point {
    pub x: u32,
    pub y: u32,
    pub z: u32,
}

/// A value: a scalar, the scalars of a composite, or a pointer to one scalar of a buffer.
#[derive(Drop)]
pub enum Value {
    One(u32),
    Many(Vec<u32>),
    PointsAt(Spot),
}

/// The value of an id.
#[derive(Drop)]
pub struct Named {
    pub id: u32,
    pub value: Value,
}

/// A call of a function: its id, the place of the next instruction in the module, the scalars that a
/// load has moved so far, and the values of the block, the newest last.
#[derive(Drop)]
pub struct Frame {
    pub function: u32,
    pub place: usize,
    pub part: Vec<u32>,
    pub values: Vec<Named>,
}

/// An invocation: in its entry function, or behind its return.
#[derive(Drop)]
pub enum Run {
    At(Frame),
    Over,
}

impl Frame {
    /// The newest value of an id.
    #[tactic(auto, using(crate::proofs::Values::newest))]
    pub fn value(&self, id: u32) -> Option<&Value>
        ensures { option_map value_by (option_copied result) ≡ value_among (values_by self.now) id }
    {
        let mut left = self.values.len();
        while left > 0 {
            left -= 1;
            let named = &self.values[left];
            if named.id == id {
                return Some(&named.value);
            }
        }
        None
    }
}

impl Value {
    /// The scalar, where there is just one.
    pub fn scalar(&self) -> Option<u32>
        ensures { result ≡ scalar_by (Some (value_by self.now)) }
    {
        match self {
            Value::One(n) => Some(*n),
            Value::Many(ns) => match ns.as_slice() {
                [n] => Some(*n),
                _ => None,
            },
            Value::PointsAt(_) => None,
        }
    }

    /// The scalar at a place in a composite.
    pub fn part(&self, at: u32) -> Option<u32>
        ensures { as_scalar result ≡ extracted (Some (value_by self.now)) (at ∷ []) }
    {
        match self {
            Value::One(n) => { if at == 0 { Some(*n) } else { None } }
            Value::Many(ns) => ns.get(at as usize).copied(),
            Value::PointsAt(_) => None,
        }
    }
}
