//! What a name stands for where it is evaluated: in the body, and else in the file.

ghost use Rattle.std.specs.Prelude.{◌≡◌, Ok, Some, false, map, pos};
ghost use Rattle.cddf_meaning.specs.File.{unsigned_name, variable};
ghost use Rattle.cddf_meaning.specs.Functions.{file_of, item_unsigned, item_variable};
ghost use Rattle.cddf_meaning.specs.BodyState as states;
ghost use Rattle.cddf_meaning.specs.Value.{scalar_value};
ghost use Rattle.cddf_meaning.specs.Variables.{find, flag_or};
ghost use Rattle.os_ast.specs.Notes.Programs.{global_id};
ghost use Rattle.os_ast.specs.Views.{item_tree};
ghost use Rattle.cddf_meaning_plain_state.specs.Seen.{seen};
ghost use Rattle.cddf_meaning_plain_state.specs.Stops.{Comes};

use crate::body_state::BodyState;
use crate::stop::Stop;
use os_ast::Item;

/// What a name stands for where it is evaluated.
#[derive(Clone, Copy, Debug, PartialEq, Eq)]
pub enum Seen {
    /// A constant, a scalar, or an item's one element.
    Number(i32),
    /// A function, by its place among the items of the file.
    Function(usize),
    /// Nothing that can be evaluated.
    Other,
}

/// A number of the text as an `int`; `Memory` where it is past one.
pub fn int(number: u32) -> Result<i32, Stop>
    ensures { Comes result (Ok (pos number)) }
{
    match i32::try_from(number) {
        Ok(number) => Ok(number),
        Err(_) => Err(Stop::Memory),
    }
}

/// The number of the name that an item declares.
pub fn item_id(item: &Item) -> u32
    ensures { result ≡ global_id (item_tree item.now) }
{
    match item {
        Item::Constant(constant) => constant.name.id,
        Item::Function(function) => function.name.id,
    }
}

/// Whether what an item declares is of the type `unsigned`.
pub fn item_unsigned(item: &Item) -> bool
    ensures { result ≡ item_unsigned (item_tree item.now) }
{
    match item {
        Item::Constant(constant) => constant.ty.is_unsigned(),
        Item::Function(function) => function.ty.is_unsigned(),
    }
}

/// What the item at a place of the file is seen as.
fn seen_item(place: usize, item: &Item) -> Result<Seen, Stop>
    ensures { (s : states.BodyState) → Comes result (Ok (seen s (Some (item_variable place (item_tree item.now))))) }
{
    match item {
        Item::Constant(constant) => Ok(Seen::Number(constant.value())),
        Item::Function(_) => Ok(Seen::Function(place)),
    }
}

/// What the file declares with a name, the last declaration first.
fn seen_in_file(file: &[Item], id: u32) -> Result<Seen, Stop>
    ensures { (s : states.BodyState) → Comes result (Ok (seen s (find (file_of (map item_tree file.now)).names id))) }
{
    let mut place = file.len();
    while place > 0 {
        place -= 1;
        let item = &file[place];
        if item_id(item) == id {
            return seen_item(place, item);
        }
    }
    Ok(Seen::Other)
}

/// What a name is seen as.
pub fn seen_as(file: &[Item], state: &BodyState, id: u32) -> Result<Seen, Stop>
    ensures { Comes result (Ok (seen state.now (variable (file_of (map item_tree file.now)) state.now id))) }
{
    match state.find(id) {
        Some(variable) => Ok(state.seen(variable)),
        None => seen_in_file(file, id),
    }
}

/// Whether the last declaration of a name in the file is of the type `unsigned`.
fn unsigned_in_file(file: &[Item], id: u32) -> bool
    ensures { result ≡ flag_or false (file_of (map item_tree file.now)).names id }
{
    let mut place = file.len();
    while place > 0 {
        place -= 1;
        let item = &file[place];
        if item_id(item) == id {
            return item_unsigned(item);
        }
    }
    false
}

/// Whether what a name stands for is of the type `unsigned`.
pub fn is_unsigned(file: &[Item], state: &BodyState, id: u32) -> bool
    ensures { result ≡ unsigned_name (file_of (map item_tree file.now)) state.now id }
{
    match state.flag(id) {
        Some(unsigned) => unsigned,
        None => unsigned_in_file(file, id),
    }
}

/// The value of a name without an index; 0 where the name has none.
pub fn scalar(file: &[Item], state: &BodyState, id: u32) -> Result<i32, Stop>
    ensures { Comes result (Ok (scalar_value state.now (variable (file_of (map item_tree file.now)) state.now id))) }
{
    match seen_as(file, state, id)? {
        Seen::Number(number) => Ok(number),
        Seen::Function(_) | Seen::Other => Ok(0),
    }
}
