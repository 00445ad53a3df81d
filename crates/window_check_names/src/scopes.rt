ghost use Rattle.std.specs.Prelude.{◌≡◌, ◌+◌, ◌≤◌, OnOk, length};
ghost use Rattle.os_ast.specs.Meanings.{meaning_in};
ghost use Rattle.os_ast.specs.Names.{Scope, lookup, entity_of, flag_of, is_declared, flagged, declare, enter, in_loop, in_unit};
ghost use Rattle.os_ast.specs.Notes.Clauses.{in_task};
ghost use Rattle.os_ast.specs.Notes.Declarators.{form_entity, taken, scalar_entity, with_array, with_streams};
ghost use Rattle.os_ast.specs.Notes.Programs.{file, round_body};
ghost use Rattle.os_ast.specs.Rules.{when};
ghost use Rattle.os_ast.specs.declared.names.Form.TheVariants as form_of;
ghost use Rattle.os_ast.specs.declared.names.Owner.TheVariants as owners;
ghost use Rattle.window_check_names.specs.BrokenRules.{least_rule};
ghost use Rattle.os_ast.specs.declared.rule.Rule.TheVariants.{WrongSize};
ghost use Rattle.window_check_laws.specs.Room.{HasRoom, form_weight, room_end};
ghost use Rattle.window_check_names.specs.Sizes.{passes_limit};
ghost use Rattle.window_check_names.specs.Scopes.{outer_of, around_of, returned, ended, with_function, with_totals};

use crate::broken_rules::when;
use crate::captures::Slots;
use crate::declared::Declared;
use crate::meanings::meaning;
use os_ast::{ARRAYS_LIMIT, ELEMENTS_LIMIT, Entity, Entry, Form, Owner, Rule, STREAMS_LIMIT, What};
use os_io::Memory;
use os_lexer::names::{OSIN, OSIN_LEN, OSOUT};
use std::alloc::Global;
use std::marker::Model;
use std::mem;

/// A place of the program: what is in scope there, and what the declarations before it took.
#[derive(Drop)]
pub struct Scopes {
    declared: Declared,
    depth: u32,
    owner: Owner,
    in_loop: bool,
    captured: Slots,
    slots: u32,
    elements: u32,
    arrays: u32,
    streams: u32,
    functions: u32,
    unsigned: bool,
}

impl Model for Scopes {
    ghost use Rattle.os_ast.specs.Names.{Scope};

    ghost Value = { Scope };

    ghost view = { λ s. record {
      entries = s.declared;
      depth = s.depth;
      owner = s.owner;
      loop = s.in_loop;
      captured = s.captured;
      slots = s.slots;
      elements = s.elements;
      arrays = s.arrays;
      streams = s.streams;
      functions = s.functions;
      unsigned = s.unsigned;
    } };
}

/// What leaving a scope restores.
#[derive(Clone, Copy)]
pub struct Outer {
    declared: usize,
    depth: u32,
    in_loop: bool,
}

/// What the end of a function's or a task's body restores.
#[derive(Drop)]
pub struct EnclosingBody {
    outer: Outer,
    owner: Owner,
    captured: Slots,
    slots: u32,
    elements: u32,
}

/// What a walk over a body takes of the whole program.
#[derive(Clone, Copy)]
pub struct Totals {
    arrays: u32,
    streams: u32,
    functions: u32,
}

impl Scopes {
    /// The scope of the file, before its first item.
    pub fn new(alloc: Global) -> Scopes
        ensures { result ≡ file }
    {
        Scopes {
            declared: Declared::new(alloc),
            depth: 0,
            owner: Owner::OfFunction,
            in_loop: false,
            captured: Slots::none(alloc),
            slots: 0,
            elements: 0,
            arrays: 0,
            streams: 0,
            functions: 0,
            unsigned: false,
        }
    }

    /// Whose body this is.
    pub fn owner(&self) -> Owner
        ensures { result ≡ self.now.owner }
    {
        self.owner
    }

    /// Whether a loop of this body is round the place.
    pub fn in_loop(&self) -> bool
        ensures { result ≡ self.now.loop }
    {
        self.in_loop
    }

    /// How many scopes are open.
    pub fn depth(&self) -> u32
        ensures { result ≡ self.now.depth }
    {
        self.depth
    }

    /// How many streams the program declared so far.
    pub fn streams(&self) -> u32
        ensures { result ≡ self.now.streams }
    {
        self.streams
    }

    /// Whether the last declaration is of the type `unsigned`.
    pub fn unsigned(&self) -> bool
        ensures { result ≡ self.now.unsigned }
    {
        self.unsigned
    }

    /// Notes the type of the declaration that begins: whether it is `unsigned`.
    pub fn set_unsigned(&mut self, unsigned: bool)
        ensures { self.new ≡ flagged unsigned self.old }
    {
        self.unsigned = unsigned;
    }

    /// The declaration of a name that counts here, which is the innermost one.
    pub fn entry(&self, id: u32) -> Option<Entry>
        ensures { result ≡ lookup self.now.entries id }
    {
        self.declared.entry(id)
    }

    /// Whether what a name is declared as is of the type `unsigned`.
    pub fn is_unsigned(&self, id: u32) -> bool
        ensures { result ≡ flag_of (lookup self.now.entries id) }
    {
        match self.declared.entry(id) {
            Some(entry) => entry.unsigned,
            None => false,
        }
    }

    /// What a name is declared as: the innermost declaration counts.
    pub fn entity(&self, id: u32) -> Option<Entity>
        ensures { result ≡ entity_of (lookup self.now.entries id) }
    {
        let entry = self.declared.entry(id)?;
        Some(entry.entity)
    }

    /// What a name means here that is declared as this.
    pub fn meaning(&self, entity: Entity) -> What
        ensures { result ≡ meaning_in self.now.owner self.now.captured entity }
    {
        match self.owner {
            Owner::OfTask => self.captured.meaning(entity),
            Owner::OfMain | Owner::OfFunction => meaning(entity),
        }
    }

    /// Whether a name is declared already in the innermost scope.
    pub fn is_declared(&self, id: u32) -> bool
        ensures { result ≡ is_declared self.now id }
    {
        match self.declared.entry(id) {
            Some(entry) => entry.depth == self.depth,
            None => false,
        }
    }

    /// Adds a declaration to the innermost scope, of the type that was noted last.
    pub fn declare(&mut self, id: u32, entity: Entity) -> Result<(), Memory>
        ensures { OnOk result (self.new ≡ declare self.old id entity) }
    {
        self.declared.declare(Entry {
            id,
            depth: self.depth,
            entity,
            unsigned: self.unsigned,
        })
    }

    /// Enters a new innermost scope. The answer is what leaving it restores.
    pub fn enter(&mut self) -> Outer
        requires { self.old.depth + 1 ≤ room_end }
        ensures scope { self.new ≡ enter self.old }
        ensures outer { result ≡ outer_of self.old }
    {
        let outer = Outer {
            declared: self.declared.len(),
            depth: self.depth,
            in_loop: self.in_loop,
        };
        self.depth += 1;
        outer
    }

    /// Leaves the scopes that were entered since then, with what was declared since then.
    pub fn leave(&mut self, outer: Outer)
        ensures { self.new ≡ returned outer self.old }
    {
        self.declared.drop_to(outer.declared);
        self.depth = outer.depth;
        self.in_loop = outer.in_loop;
    }

    /// Enters a loop: a loop of this body is round what follows. The answer is whether one was round the place before.
    pub fn enter_loop(&mut self) -> bool
        ensures scope { self.new ≡ in_loop self.old }
        ensures before { result ≡ self.old.loop }
    {
        let before = self.in_loop;
        self.in_loop = true;
        before
    }

    /// Leaves a loop: whether one is round the place is again as it was before.
    pub fn leave_loop(&mut self, before: bool)
        ensures { self.new ≡ record self.old { loop = before } }
    {
        self.in_loop = before;
    }

    /// Begins the body of a function or of `main`, with a new scope. The answer is what its end restores.
    pub fn begin(&mut self, alloc: Global, owner: Owner) -> EnclosingBody
        requires { self.old.depth + 1 ≤ room_end }
        ensures scope { self.new ≡ enter (in_unit owner self.old) }
        ensures around { result ≡ around_of self.old }
    {
        self.begin_with(owner, Slots::none(alloc), 0)
    }

    /// Begins the body of a task, with a new scope: the scalars that it captures have its first slots. The answer is what its end restores.
    pub fn begin_task(&mut self, captured: Slots) -> EnclosingBody
        requires depth { self.old.depth + 1 ≤ room_end }
        requires few { length captured ≤ room_end }
        ensures scope { self.new ≡ in_task self.old captured }
        ensures around { result ≡ around_of self.old }
    {
        let slots = captured.len() as u32;
        self.begin_with(Owner::OfTask, captured, slots)
    }

    fn begin_with(&mut self, owner: Owner, captured: Slots, slots: u32) -> EnclosingBody
        requires { self.old.depth + 1 ≤ room_end }
        ensures scope { self.new ≡ enter (record (in_unit owner self.old) { captured = captured; slots = slots }) }
        ensures around { result ≡ around_of self.old }
    {
        let around = EnclosingBody {
            outer: Outer {
                declared: self.declared.len(),
                depth: self.depth,
                in_loop: self.in_loop,
            },
            owner: self.owner,
            captured: mem::replace(&mut self.captured, captured),
            slots: self.slots,
            elements: self.elements,
        };
        self.depth += 1;
        self.owner = owner;
        self.in_loop = false;
        self.slots = slots;
        self.elements = 0;
        around
    }

    /// Ends a body, and restores what stood before it.
    pub fn end(&mut self, around: EnclosingBody)
        ensures { self.new ≡ ended around self.old }
    {
        let EnclosingBody {
            outer,
            owner,
            captured,
            slots,
            elements,
        } = around;
        self.leave(outer);
        self.owner = owner;
        self.captured = captured;
        self.slots = slots;
        self.elements = elements;
    }

    /// What was taken of the program so far.
    pub fn totals(&self) -> Totals
        ensures { self.now ≡ with_totals result self.now }
    {
        Totals {
            arrays: self.arrays,
            streams: self.streams,
            functions: self.functions,
        }
    }

    /// Sets what was taken of the program so far.
    pub fn set_totals(&mut self, totals: Totals)
        ensures { self.new ≡ with_totals totals self.old }
    {
        self.arrays = totals.arrays;
        self.streams = totals.streams;
        self.functions = totals.functions;
    }

    /// What the scalar is that is declared next: its slot.
    pub fn scalar(&self) -> Entity
        ensures { result ≡ scalar_entity self.now.owner self.now.slots }
    {
        match self.owner {
            Owner::OfMain => Entity::Control(self.slots),
            Owner::OfFunction | Owner::OfTask => Entity::Scalar(self.slots),
        }
    }

    /// What the name is that is declared next, by the form of its declarator.
    pub fn form_entity(&self, form: Form) -> Entity
        requires { HasRoom self.now (form_weight form) }
        ensures { result ≡ form_entity self.now form }
    {
        match form {
            Form::Scalar => self.scalar(),
            Form::Array(size) => Entity::Array(self.slots, size.unwrap_or(0)),
            Form::Window => Entity::Window(self.slots),
            Form::Stream => Entity::Stream(2 + self.streams),
            Form::Streams(size) => Entity::Streams(2 + self.streams, size.unwrap_or(0)),
        }
    }

    /// Counts what a declarator of this form takes: slots, elements of arrays or streams.
    pub fn take(&mut self, form: Form)
        requires { HasRoom self.old (form_weight form) }
        ensures { self.new ≡ taken self.old form }
    {
        match form {
            Form::Scalar | Form::Window => self.slots += 1,
            Form::Array(size) => self.take_array(size.unwrap_or(0)),
            Form::Stream => self.streams += 1,
            Form::Streams(size) => self.streams += size.unwrap_or(0),
        }
    }

    fn take_array(&mut self, size: u32)
        requires { HasRoom self.old size }
        ensures { self.new ≡ with_array self.old size }
    {
        self.slots += size;
        self.elements += size;
        self.arrays += size;
    }

    /// The rule that a declarator of this form violates: its size is no size, or passes a limit together with what was taken before it.
    pub fn rule_with(&self, form: Form) -> Option<Rule>
        requires { HasRoom self.now (form_weight form) }
        ensures { result ≡ least_rule (when (passes_limit (taken self.now form) form) WrongSize) }
    {
        when(self.passes_limit(form), Rule::WrongSize)
    }

    fn passes_limit(&self, form: Form) -> bool
        requires { HasRoom self.now (form_weight form) }
        ensures { result ≡ passes_limit (taken self.now form) form }
    {
        match form {
            Form::Scalar | Form::Window => false,
            Form::Array(None) | Form::Streams(None) => true,
            Form::Array(Some(size)) => self.arrays_pass(size),
            Form::Stream => STREAMS_LIMIT < self.streams + 1,
            Form::Streams(Some(count)) => STREAMS_LIMIT < self.streams + count,
        }
    }

    /// With a local array of this size the arrays of the function or task, or those of the program, pass their limit.
    fn arrays_pass(&self, size: u32) -> bool
        requires { HasRoom self.now size }
        ensures { result ≡ passes_limit (taken self.now (form_of.Array (Some size))) (form_of.Array (Some size)) }
    {
        ELEMENTS_LIMIT < self.elements + size || ARRAYS_LIMIT < self.arrays + size
    }

    /// What the scope round a function's body declares: that of `main` has `osin`, `osout` and `osin_len`.
    pub fn declare_round(&mut self, owner: Owner) -> Result<(), Memory>
        ensures { OnOk result (self.new ≡ round_body owner self.old) }
    {
        match owner {
            Owner::OfMain => self.declare_main(),
            Owner::OfFunction | Owner::OfTask => Ok(()),
        }
    }

    fn declare_main(&mut self) -> Result<(), Memory>
        ensures { OnOk result (self.new ≡ round_body owners.OfMain self.old) }
    {
        self.unsigned = false;
        self.declare(OSIN, Entity::Stream(0))?;
        self.declare(OSOUT, Entity::Stream(1))?;
        self.declare(OSIN_LEN, Entity::InputLength)?;
        self.slots = 1;
        Ok(())
    }

    /// Declares the next function of the program, by how many parameters it has and whether its result is of the type `unsigned`.
    pub fn declare_function(&mut self, id: u32, params: u32, unsigned: bool) -> Result<(), Memory>
        requires { self.old.functions + 1 ≤ room_end }
        ensures { OnOk result (self.new ≡ with_function self.old unsigned id params) }
    {
        let number = self.functions;
        self.functions += 1;
        self.unsigned = unsigned;
        self.declare(id, Entity::Function(number, params))
    }
}
