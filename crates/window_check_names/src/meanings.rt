ghost use Rattle.std.specs.Prelude.{◌≡◌};
ghost use Rattle.os_ast.specs.Meanings.{what_declared};

use os_ast::{Entity, What};

/// What a declaration means where its function, task or `main` names it.
pub fn meaning(entity: Entity) -> What
    ensures { result ≡ what_declared entity }
{
    match entity {
        Entity::Constant(value) => What::Constant(value),
        Entity::Function(number, _) => What::Function(number),
        Entity::Scalar(slot) | Entity::Control(slot) => What::Scalar(slot),
        Entity::InputLength => What::Scalar(0),
        Entity::Array(first, size) => What::Array { first, size },
        Entity::Window(slot) => What::Window(slot),
        Entity::Stream(number) => What::Stream {
            first: number,
            count: 1,
        },
        Entity::Streams(first, count) => What::Stream { first, count },
        Entity::Element(item, _) => What::Element(item),
        Entity::View(item, _) => What::View(item),
    }
}
