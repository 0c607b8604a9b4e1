//! The data sets that a plan asks for.

ghost use Rattle.std.specs.Prelude.{◌≡◌, ◌++◌, [], IfOk, OnOk};
ghost use Rattle.std.specs.List.{cons_option};
ghost use Rattle.qsg_devices.specs.Shapes.{shape_of, shape_at, shapes_of};

use qsg_num::StructNo;
use qsg_objects::{Cfstruct, Objects, Size};
use std::alloc::{AllocError, Global};

/// The data set of each member for a structure: so many blocks of so many bytes.
#[derive(Clone, Copy, Debug, PartialEq, Eq)]
pub struct Shape {
    /// Bytes of a block.
    pub block_size: u32,
    pub blocks: u32,
}

fn shape_of(size: Size, structure: &Cfstruct) -> Shape
    ensures { result ≡ shape_of size structure.now }
{
    Shape {
        block_size: structure.definition.dsblock,
        blocks: size.blocks,
    }
}

/// That of the structure of a number, if there is a size and a definition of it.
fn shape_at(sizes: &[Size], objects: &Objects, number: StructNo) -> Option<Shape>
    ensures { result ≡ shape_at sizes.now objects.now number }
{
    match (sizes.get(number.index()), objects.structure(number)) {
        (Some(size), Some(structure)) => Some(shape_of(*size, structure)),
        _ => None,
    }
}

fn push_shape(
    shapes: &mut Vec<Shape>,
    sizes: &[Size],
    objects: &Objects,
    number: StructNo,
) -> Result<(), AllocError>
    ensures { OnOk result (shapes.new.items ≡ shapes.old.items ++ cons_option (shape_at sizes.now objects.now number) []) }
{
    if let Some(shape) = shape_at(sizes, objects, number) {
        shapes.push(shape)?;
    }
    Ok(())
}

/// Those of all structures, in order of their numbers.
pub fn shapes_of(alloc: Global, sizes: &[Size], objects: &Objects) -> Result<Vec<Shape>, AllocError>
    ensures { IfOk result (λ shapes. shapes.items ≡ shapes_of sizes.now objects.now) }
{
    let mut shapes = Vec::new(alloc);
    push_shape(&mut shapes, sizes, objects, StructNo::One)?;
    push_shape(&mut shapes, sizes, objects, StructNo::Two)?;
    push_shape(&mut shapes, sizes, objects, StructNo::Three)?;
    push_shape(&mut shapes, sizes, objects, StructNo::Four)?;
    Ok(shapes)
}
