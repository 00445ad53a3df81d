ghost use Rattle.std.specs.Prelude.{◌≡◌};
ghost use Rattle.os_ast.specs.Names.{constant_value};
ghost use Rattle.os_ast.specs.Notes.Programs.{param_list};

use crate::expr::Name;
use crate::stmt::Stmt;
use crate::ty::Ty;
use os_io::List;

#[derive(Drop)]
pub struct Program {
    pub items: List<Item>,
}

#[derive(Drop)]
pub enum Item {
    Constant(Constant),
    Function(Function),
}

/// `const TYPE NAME = SIZE;`, with a `-` before the size or without.
#[derive(Drop)]
pub struct Constant {
    pub ty: Ty,
    pub name: Name,
    pub minus: bool,
    /// At most 2,147,483,647, where the size isn't wide.
    pub size: u32,
    /// Whether the size is a number of the type `unsigned`.
    pub wide: bool,
}

impl Constant {
    /// Its 32 bits as an `int`.
    #[tactic(auto, using(crate::proofs::Constants::constant_bits))]
    pub fn value(&self) -> i32
        ensures { result ≡ constant_value self.now }
    {
        let size = self.size.cast_signed();
        if self.minus {
            size.wrapping_neg()
        } else {
            size
        }
    }
}

#[derive(Clone, Copy, Debug, PartialEq, Eq)]
pub struct Param {
    pub ty: Ty,
    pub name: Name,
}

/// What stands between the parentheses of a function: nothing, `void` or parameters.
#[derive(Drop)]
pub enum Params {
    Empty,
    Void,
    Names(List<Param>),
}

impl Params {
    /// The parameters, in the order of the text.
    pub fn list(&self) -> &[Param]
        ensures { result.now ≡ param_list self.now }
    {
        match self {
            Params::Empty | Params::Void => &[],
            Params::Names(params) => params.as_slice(),
        }
    }
}

#[derive(Drop)]
pub struct Function {
    /// The type of its result.
    pub ty: Ty,
    pub name: Name,
    pub params: Params,
    pub body: List<Stmt>,
}
