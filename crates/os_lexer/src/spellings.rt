use crate::token::Kind;
use os_io::Memory;
use std::alloc::Global;
use std::collections::BTreeMap;

/// The spellings of the names so far, each with the index of the first token that has it. The map is ordered,
/// so that no choice of names makes it slow.
#[derive(Drop)]
pub(crate) struct Spellings<'a> {
    first: BTreeMap<&'a [u8], u32>,
}

impl<'a> Spellings<'a> {
    ghost use Rattle.std.specs.Prelude.{◌≡◌, List, ℕ, Some, None, ◌&&◌, if◌then◌else◌, bytes_eq, unwrap_or, OnOk};
    ghost use Rattle.os_lexer.specs.Spellings.{first_of};
    ghost use Rattle.os_lexer.specs.States.{is_name};

    /// A map without spellings.
    pub(crate) fn new(alloc: Global) -> Spellings<'a>
        ensures { (name : List ℕ) → first_of result name ≡ None }
    {
        Spellings {
            first: BTreeMap::new(alloc),
        }
    }

    /// The index of the first name with this spelling.
    pub(crate) fn first_of(&self, name: &[u8]) -> Option<u32>
        ensures { result ≡ first_of self.now name.now }
    {
        self.first.get(name).copied()
    }

    /// Notes the spelling of the token with this index, where its kind is that of a name.
    pub(crate) fn note_token(
        &mut self,
        kind: Kind,
        spelling: &'a [u8],
        index: u32,
    ) -> Result<(), Memory>
        ensures { OnOk result ((name : List ℕ) → first_of self.new name
            ≡ (if is_name kind && bytes_eq spelling.now name then Some (unwrap_or (first_of self.old name) index)
            else first_of self.old name)) }
    {
        match kind {
            Kind::Name(_) => self.note(spelling, index),
            Kind::Number(_)
            | Kind::Wide(_)
            | Kind::Key(_)
            | Kind::Punct(_)
            | Kind::PragmaStart
            | Kind::PragmaEnd => Ok(()),
        }
    }

    /// Notes the spelling of the name with this index.
    fn note(&mut self, spelling: &'a [u8], index: u32) -> Result<(), Memory>
        ensures { OnOk result ((name : List ℕ) → first_of self.new name
            ≡ (if bytes_eq spelling.now name then Some (unwrap_or (first_of self.old name) index)
            else first_of self.old name)) }
    {
        if self.first.get(spelling).is_none() {
            self.first.insert(spelling, index)?;
        }
        Ok(())
    }
}
