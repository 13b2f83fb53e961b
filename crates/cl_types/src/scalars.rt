//! The scalars of a type, in order.

ghost use Rattle.std.specs.Prelude.{◌≡◌, ◌+◌, ◌*◌, ◌<◌, ◌≤◌, ◌^◌, ◌++◌, ◌∷◌, [], true, length, slice_get, Some, IfOk, OnOk};
ghost use Rattle.cl_types.specs.Layout.{size_of, scalars_at, scalars_of, spread};
ghost use Rattle.cl_types.specs.Rows.{members_at};
ghost use Rattle.cl_types.specs.Table.{tree_of, is_sized};

use crate::table::{TypeTable, round_up};
use crate::types::{ClType, Member, TypeId};
use clv_place::{List, NoMemory};
use std::alloc::Global;

/// A scalar of a type: the numbers of the components, elements and members that lead to it, from the
/// outermost on and from 0; its offset in bytes; and its width in bits.
#[derive(Drop)]
pub struct Scalar {
    pub path: List<u32>,
    pub offset: u32,
    pub bits: u8,
}

// A path, with one number more.
fn longer(alloc: Global, path: &[u32], last: u32) -> Result<Vec<u32>, NoMemory>
    ensures { IfOk result (λ p. p.items ≡ path.now ++ last ∷ []) }
{
    let mut longer = path.to_vec(alloc)?;
    longer.push(last)?;
    Ok(longer)
}

fn put(
    alloc: Global,
    path: &[u32],
    offset: u32,
    bits: u8,
    out: &mut List<Scalar>,
) -> Result<(), NoMemory>
    ensures { OnOk result (out.new ≡ out.old ++ record { path = path.now; offset = offset; bits = bits } ∷ []) }
{
    let path = List::from_vec(path.to_vec(alloc)?);
    out.push(Scalar { path, offset, bits })
}

impl TypeTable {
    /// The scalars of a type in the order of their offsets, with the widths 8 for a bool and 32 for a
    /// pointer. The padding of a vector of three components or of a struct is none of them. The one refusal
    /// is want of memory.
    pub fn scalars(&self, t: TypeId) -> Result<List<Scalar>, NoMemory>
        requires { is_sized (slice_get self.now t.0) ≡ true }
        ensures { IfOk result (λ ss. ss ≡ scalars_of (tree_of self.now t.0)) }
    {
        self.is_table();
        let mut out = List::new(self.alloc());
        self.put_scalars(t, &[], 0, &mut out)?;
        Ok(out)
    }

    // The scalars of a part that a path leads to.
    #[cycle(scalars)]
    fn put_scalars(
        &self,
        t: TypeId,
        path: &[u32],
        base: u32,
        out: &mut List<Scalar>,
    ) -> Result<(), NoMemory>
        requires known { t.0 < length self.now }
        requires low { base + size_of (tree_of self.now t.0) ≤ 65536 }
        ensures { OnOk result (out.new ≡ out.old ++ scalars_at (tree_of self.now t.0) path.now base) }
    {
        self.is_table();
        match self.get(t) {
            ClType::Void => Ok(()),
            ClType::Bool => put(self.alloc(), path, base, 8, out),
            ClType::Int { bits, .. } => put(self.alloc(), path, base, *bits, out),
            ClType::Pointer { .. } => put(self.alloc(), path, base, 32, out),
            ClType::Vector { elem, n } => self.put_elements(*elem, *n as u32, path, base, out),
            ClType::Array { elem, len } => self.put_elements(*elem, *len, path, base, out),
            ClType::Struct { members, .. } => {
                self.put_members(t, members.as_slice(), path, base, out)
            }
        }
    }

    // Those of so many components or elements of a type.
    #[cycle(scalars)]
    fn put_elements(
        &self,
        elem: TypeId,
        n: u32,
        path: &[u32],
        base: u32,
        out: &mut List<Scalar>,
    ) -> Result<(), NoMemory>
        requires known { elem.0 < length self.now }
        requires low { base + n * size_of (tree_of self.now elem.0) ≤ 65536 }
        ensures { OnOk result (out.new ≡ out.old ++ spread (λ i o. scalars_at (tree_of self.now elem.0) (path.now ++ i ∷ []) o) (size_of (tree_of self.now elem.0)) n 0 base) }
    {
        let size = self.row(elem).size;
        for i in 0..n {
            let path = longer(self.alloc(), path, i)?;
            self.put_scalars(elem, &path, base + i * size, out)?;
        }
        Ok(())
    }

    // Those of a struct's members.
    #[cycle(scalars)]
    fn put_members(
        &self,
        t: TypeId,
        members: &[Member],
        path: &[u32],
        base: u32,
        out: &mut List<Scalar>,
    ) -> Result<(), NoMemory>
        requires members { members_at (slice_get self.now t.0) ≡ Some members.now }
        requires low { base + size_of (tree_of self.now t.0) ≤ 65536 }
        ensures { OnOk result (out.new ≡ out.old ++ scalars_at (tree_of self.now t.0) path.now base) }
    {
        self.is_table();
        let mut end = 0;
        for (k, member) in members.iter().enumerate() {
            let row = self.row(member.ty);
            let at = round_up(row.align, end);
            let path = longer(self.alloc(), path, k as u32)?;
            self.put_scalars(member.ty, &path, base + at, out)?;
            end = at + row.size;
        }
        Ok(())
    }
}
