//! When the types of a block were last written.
ghost use Rattle.std.specs.Prelude.{◌≡◌, map, IfOk};
ghost use Rattle.chunk_block.specs.Blocks.{marks_of, new_mark, mark_at, with_mark};

use ent_types::{Memory, SystemVersion, TypeId, TypeSet};
use std::alloc::Global;

/// The version at which a type of a block was last written.
#[derive(Clone, Copy, Debug)]
pub struct TypeMark {
    /// The type.
    pub ty: TypeId,
    /// The version; 0 until the type is marked.
    pub version: u32,
}

/// Returns a mark for each type of a set.
pub(crate) fn new_marks(alloc: Global, types: &TypeSet) -> Result<Vec<TypeMark>, Memory>
    ensures { IfOk result (λ v. marks_of v.items ≡ map new_mark types.now) }
{
    let mut marks = Vec::new(alloc);
    for ty in types.iter() {
        marks.push(TypeMark { ty, version: 0 })?;
    }
    Ok(marks)
}

/// Returns the version of a type's mark.
fn version_in(marks: &[TypeMark], ty: TypeId) -> SystemVersion
    ensures { result.0 ≡ mark_at ty.0 (marks_of marks.now) }
{
    match marks.split_first() {
        None => SystemVersion(0),
        Some((mark, rest)) => {
            if mark.ty == ty {
                SystemVersion(mark.version)
            } else {
                version_in(rest, ty)
            }
        }
    }
}

/// Returns the version of a type's mark.
pub(crate) fn version_of(marks: &Vec<TypeMark>, ty: TypeId) -> SystemVersion
    ensures { result.0 ≡ mark_at ty.0 (marks_of marks.now.items) }
{
    version_in(marks, ty)
}

/// Marks a type.
fn mark_in(marks: &mut [TypeMark], ty: TypeId, version: SystemVersion)
    ensures { marks_of marks.new ≡ with_mark ty.0 version.0 (marks_of marks.old) }
{
    match marks.split_first_mut() {
        None => {}
        Some((mark, rest)) => {
            if mark.ty == ty {
                mark.version = version.0;
            } else {
                mark_in(rest, ty, version);
            }
        }
    }
}

/// Marks a type.
pub(crate) fn mark_type(marks: &mut Vec<TypeMark>, ty: TypeId, version: SystemVersion)
    ensures { marks_of marks.new.items ≡ with_mark ty.0 version.0 (marks_of marks.old.items) }
{
    mark_in(marks, ty, version);
}
