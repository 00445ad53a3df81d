//! The sizes of arrays.

ghost use Rattle.std.specs.Prelude.{◌≡◌};
ghost use Rattle.cddf_meaning.specs.Run.{array_size};

use os_ast::SIZE_LIMIT;

/// The size of a local array or of a stream array, from 1 to 65,536 elements or streams; 0 where the number is no size.
pub fn array_size(number: i32) -> u32
    ensures { result ≡ array_size number }
{
    match u32::try_from(number) {
        Ok(size) if 1 <= size && size <= SIZE_LIMIT => size,
        _ => 0,
    }
}
