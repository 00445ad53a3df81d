ghost use Rattle.std.specs.Prelude.{◌≡◌, ◌∷◌, ◌-◌, [], OnErr, OnOk, length, drop};
ghost use Rattle.os_ast.specs.Names.{lookup};

use os_ast::Entry;
use os_io::Memory;
use std::alloc::Global;
use std::collections::BTreeMap;
use std::marker::Model;

/// A declaration in scope, and the one that it hides.
#[derive(Clone, Copy)]
struct HidingEntry {
    entry: Entry,
    hidden: Option<Entry>,
}

/// The declarations in scope, from the innermost on.
#[derive(Drop)]
pub(crate) struct Declared {
    rows: Vec<HidingEntry>,
    newest: BTreeMap<u32, Entry>,
}

impl Model for Declared {
    ghost use Rattle.std.specs.Prelude.{◌≡◌, ℕ, List};
    ghost use Rattle.std.specs.BTreeMap.{get};
    ghost use Rattle.std.specs.Ordering.{nat_cmp};
    ghost use Rattle.os_ast.specs.Names.{lookup};
    ghost use Rattle.os_ast.specs.declared.names.Entry.{Entry};
    ghost use Rattle.window_check_names.specs.HidingEntries.{entries, Hides};

    ghost Value = { List Entry };

    ghost view = { λ d. entries d.rows.items };

    ghost invariant = { λ d. Hides d.rows.items × ((id : ℕ) → get nat_cmp d.newest id ≡ lookup (entries d.rows.items) id) };
}

impl Declared {
    /// Nothing is declared.
    pub(crate) fn new(alloc: Global) -> Declared
        ensures { result ≡ [] }
    {
        Declared {
            rows: Vec::new(alloc),
            newest: BTreeMap::new(alloc),
        }
    }

    /// How many declarations there are, hidden ones included.
    #[tactic(auto, using(crate::proofs::HidingEntries::length_entries))]
    pub(crate) fn len(&self) -> usize
        ensures { result ≡ length self.now }
    {
        self.rows.len()
    }

    /// The innermost declaration of a name.
    pub(crate) fn entry(&self, id: u32) -> Option<Entry>
        ensures { result ≡ lookup self.now id }
    {
        self.newest.get(&id).copied()
    }

    /// Adds a declaration, which is the innermost now. After `Memory` the list is what it was.
    pub(crate) fn declare(&mut self, entry: Entry) -> Result<(), Memory>
        ensures ok { OnOk result (self.new ≡ entry ∷ self.old) }
        ensures err { OnErr result (self.new ≡ self.old) }
    {
        self.rows.reserve(1)?;
        let hidden = self.newest.insert(entry.id, entry)?;
        self.rows.push_reserved(HidingEntry { entry, hidden });
        Ok(())
    }

    /// Takes the innermost declarations away until `len` are left.
    pub(crate) fn drop_to(&mut self, len: usize)
        ensures { self.new ≡ drop (length self.old - len) self.old }
    {
        while self.len() > len {
            self.undo();
        }
    }

    /// Takes the innermost declaration away, and the one that it hid is in scope again.
    fn undo(&mut self)
        ensures { self.new ≡ drop 1 self.old }
    {
        let Some(row) = self.rows.pop() else {
            return;
        };
        match row.hidden {
            Some(hidden) => {
                if let Some(newest) = self.newest.get_mut(&row.entry.id) {
                    *newest = hidden;
                }
            }
            None => {
                self.newest.remove(&row.entry.id);
            }
        }
    }
}
