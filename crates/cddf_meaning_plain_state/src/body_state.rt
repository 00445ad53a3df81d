//! What a body works on: its variables, the elements of its items, and what it did to streams.

ghost use Rattle.std.specs.Option.{option_copied};
ghost use Rattle.std.specs.Prelude.{◌≡◌, ◌-◌, ◌^◌, Bool, [], ◌∷◌, IfOk, IfSome, OnErr, OnOk, drop};
ghost use Rattle.std.specs.Prelude.{get_or, length, min, pos, replicate, reverse, set, unwrap_or};
ghost use Rattle.cddf_meaning.specs.Answers.{and_then};
ghost use Rattle.cddf_meaning.specs.Claims.{limit, moves_behind, since_read, with_skip, with_skips};
ghost use Rattle.cddf_meaning.specs.Run.{window_size, with_streams, after_store};
ghost use Rattle.cddf_meaning.specs.BodyState as states;
ghost use Rattle.cddf_meaning.specs.Streams.{horizon_of, moved};
ghost use Rattle.cddf_meaning.specs.Value.{checked, elements};
ghost use Rattle.cddf_meaning.specs.Variables.{find, flag_or};
ghost use Rattle.cddf_meaning.specs.declared.cursor_move.Move.TheVariants.{Take};
ghost use Rattle.cddf_meaning.specs.declared.variable.Variable.TheVariants as variables;
ghost use Rattle.cddf_meaning_plain_state.specs.Claimed.{stream_at, streams_of, with_created};
ghost use Rattle.cddf_meaning_plain_state.specs.Moving.{is_read, skipped};
ghost use Rattle.cddf_meaning_plain_state.specs.Places.{IsInnermost};
ghost use Rattle.cddf_meaning_plain_state.specs.Seen.{seen};
ghost use Rattle.cddf_meaning_plain_state.specs.Stops.{Comes, Limits, Made, Now};
ghost use Rattle.flow_core_laws.specs.Window.{horizon_sum};

use crate::names::Seen;
use crate::stop::Stop;
use c_int::{ControlLimit, Trap};
use cddf_meaning::{Aim, Binding, Ending, Move, Variable};
use flow_core_laws::{ACTIVATIONS_LIMIT, Activation, Claim, HORIZON_LIMIT, POSITIONS_LIMIT};
use os_io::{List, Memory};
use std::alloc::Global;
use std::marker::Model;

/// The numbers of a stream or an array of streams.
#[derive(Clone, Copy, Debug, PartialEq, Eq)]
pub struct Streams {
    /// The number of the first stream.
    pub first: u32,
    /// How many streams there are, of numbers one behind another.
    pub count: u32,
}

impl Streams {
    /// The stream at an index, with the line that a trap has.
    pub fn at(&self, line: u32, index: i32) -> Result<u32, Stop>
        ensures { Comes result (stream_at self.now line index) }
    {
        match u32::try_from(index) {
            Ok(place) if place < self.count => self.first.checked_add(place).ok_or(Stop::Memory),
            _ => Err(Stop::trap(Trap::Index, line)),
        }
    }
}

/// The sum of the horizons of claims, or the greatest number where it is more.
fn horizon_sum(claims: &[Claim]) -> u64
    ensures { result ≡ min (horizon_sum claims.now) (2 ^ 64 - 1) }
{
    let mut sum: u64 = 0;
    for claim in claims {
        sum = sum.saturating_add(u64::from(claim.horizon));
    }
    sum
}

/// What a body works on.
#[derive(Drop)]
pub struct BodyState {
    /// The declarations in scope within those of the file, the innermost last.
    bound: Vec<Binding>,
    items: Vec<List<i32>>,
    activations: List<Activation>,
    /// How many streams there are so far.
    streams: u32,
    /// What was done to their read cursors, the last move last.
    moves: Vec<Move>,
    /// The sum of the horizons of all claims so far.
    horizons: u64,
}

impl Model for BodyState {
    ghost use Rattle.std.specs.Prelude.{reverse};
    ghost use Rattle.cddf_meaning.specs.Claims.{all_horizons};
    ghost use Rattle.cddf_meaning.specs.BodyState as states;
    ghost use Rattle.std.specs.Prelude.{◌≡◌};

    ghost Value = { states.BodyState };

    ghost view = { λ s. record {
      bound = reverse s.bound.items;
      items = s.items.items;
      activations = s.activations;
      streams = s.streams;
      moves = reverse s.moves.items;
    } };

    ghost invariant = { λ s. s.horizons ≡ all_horizons s.activations };
}

/// The place of the innermost declaration of a name.
fn innermost(bound: &[Binding], id: u32) -> Option<usize>
    ensures { IsInnermost bound.now id result }
{
    let mut place = bound.len();
    while place > 0 {
        place -= 1;
        if bound[place].id == id {
            return Some(place);
        }
    }
    None
}

/// Sets an element of a list, where it is there.
fn set(list: &mut List<i32>, place: usize, number: i32)
    ensures { list.new ≡ set list.old place number }
{
    let elements = list.as_mut_slice();
    if place < elements.len() {
        elements[place] = number;
    }
}

/// The first number of a list, or 0.
fn first(numbers: &[i32]) -> i32
    ensures { result ≡ get_or numbers.now 0 (pos 0) }
{
    match numbers.first() {
        Some(number) => *number,
        None => 0,
    }
}

/// Whether a move is a claim that reads a stream.
fn is_read(stream: u32, next: Move) -> bool
    ensures { result ≡ is_read stream next }
{
    match next {
        Move::Tick { .. } => false,
        Move::Take(claim) => !claim.write && claim.stream == stream,
    }
}

/// How many positions of a stream a move skips, where it isn't a claim that reads the stream.
fn skipped(stream: u32, next: Move) -> u32
    ensures { result ≡ skipped stream next }
{
    match next {
        Move::Tick {
            stream: ticked,
            amount,
        } if ticked == stream => amount,
        Move::Tick { .. } | Move::Take(_) => 0,
    }
}

/// The sum of the ticks on a stream since the last claim that reads it; none where it is too large a number.
fn since_read(moves: &[Move], stream: u32) -> Option<u64>
    ensures { IfSome result (λ sum. sum ≡ since_read stream (reverse moves.now)) }
{
    let mut sum: u64 = 0;
    let mut place = moves.len();
    while place > 0 {
        place -= 1;
        if is_read(stream, moves[place]) {
            return Some(sum);
        }
        sum = sum.checked_add(u64::from(skipped(stream, moves[place])))?;
    }
    Some(sum)
}

/// A read claim skips what ticks took from its stream since the last read claim on it; none where that is too large a number.
fn with_skip(moves: &[Move], claim: Claim) -> Option<Claim>
    ensures { IfSome result (λ c. c ≡ with_skip (reverse moves.now) claim) }
{
    if claim.write {
        return Some(claim);
    }
    let skip = since_read(moves, claim.stream)?;
    Some(Claim { skip, ..claim })
}

impl BodyState {
    /// The state of a function's or a task's body, with these items and no name in scope.
    pub fn new(alloc: Global, items: Vec<List<i32>>) -> BodyState
        ensures { result ≡ states.state_of [] items.items }
    {
        BodyState {
            bound: Vec::new(alloc),
            items,
            activations: List::new(alloc),
            streams: 0,
            moves: Vec::new(alloc),
            horizons: 0,
        }
    }

    /// What the innermost declaration of a name declares.
    pub(crate) fn find(&self, id: u32) -> Option<&Variable>
        ensures { option_copied result ≡ find self.now.bound id }
    {
        let place = innermost(&self.bound, id)?;
        Some(&self.bound[place].variable)
    }

    /// Whether the innermost declaration of a name is of the type `unsigned`.
    #[tactic(auto, using(crate::proofs::Places::flag_none))]
    pub(crate) fn flag(&self, id: u32) -> Option<bool>
        ensures { (elsewhere : Bool) → unwrap_or result elsewhere ≡ flag_or elsewhere self.now.bound id }
    {
        let place = innermost(&self.bound, id)?;
        Some(self.bound[place].unsigned)
    }

    /// What a variable of this state is seen as.
    pub(crate) fn seen(&self, variable: &Variable) -> Seen
        ensures { result ≡ seen self.now (Some variable.now) }
    {
        match variable {
            Variable::Constant(number) | Variable::Scalar(number) => Seen::Number(*number),
            Variable::Item(item) => Seen::Number(self.first_element(*item)),
            Variable::Function(place) => Seen::Function(*place),
            Variable::Array(_) | Variable::Window(_) | Variable::Stream { .. } => Seen::Other,
        }
    }

    /// The one element of an item.
    fn first_element(&self, item: usize) -> i32
        ensures { result ≡ get_or (states.item_elements self.now item) 0 (pos 0) }
    {
        if item < self.items.len() {
            first(self.items[item].as_slice())
        } else {
            0
        }
    }

    /// The elements of an array or a view; none of anything else.
    fn elements(&self, id: u32) -> &[i32]
        ensures { result.now ≡ elements self.now (find self.now.bound id) }
    {
        match self.find(id) {
            Some(Variable::Array(elements)) => elements.as_slice(),
            Some(Variable::Item(item)) => self.item_elements(*item),
            _ => &[],
        }
    }

    /// The elements of the items, each item by its number.
    pub fn items(&self) -> &[List<i32>]
        ensures { result.now ≡ self.now.items }
    {
        self.items.as_slice()
    }

    /// The activations that were created.
    pub fn into_activations(self) -> List<Activation>
        ensures { result ≡ self.activations }
    {
        self.activations
    }

    /// The elements of an item.
    fn item_elements(&self, item: usize) -> &[i32]
        ensures { result.now ≡ states.item_elements self.now item }
    {
        if item < self.items.len() {
            self.items[item].as_slice()
        } else {
            &[]
        }
    }

    /// Checks an index of an array or a view, with the line of its `[`.
    pub fn checked(&self, id: u32, line: u32, index: i32) -> Result<usize, Stop>
        ensures { Comes result (checked (length (elements self.now (find self.now.bound id))) line index) }
    {
        match usize::try_from(index) {
            Ok(place) if place < self.elements(id).len() => Ok(place),
            _ => Err(Stop::trap(Trap::Index, line)),
        }
    }

    /// The element at an index that was checked.
    pub fn element(&self, id: u32, place: usize) -> i32
        ensures { result ≡ get_or (elements self.now (find self.now.bound id)) place (pos 0) }
    {
        match self.elements(id).get(place) {
            Some(element) => *element,
            None => 0,
        }
    }

    /// Declares a name: it is in scope from here on, of the type `unsigned` or `int`.
    pub fn declare(&mut self, id: u32, unsigned: bool, variable: Variable) -> Result<(), Memory>
        ensures ok { OnOk result (self.new ≡ states.declared id unsigned variable self.old) }
        ensures err { OnErr result (self.new ≡ self.old) }
    {
        self.bound.push(Binding {
            id,
            variable,
            unsigned,
        })?;
        Ok(())
    }

    /// How many declarations are in scope.
    pub fn declared(&self) -> usize
        ensures { result ≡ length self.now.bound }
    {
        self.bound.len()
    }

    /// Behind a scope, what was declared in it is gone: there are as many declarations as before it.
    pub fn leave(&mut self, outer: usize)
        ensures { self.new ≡ record self.old { bound = drop (length self.old.bound - outer) self.old.bound } }
    {
        self.bound.truncate(outer);
    }

    /// Sets a scalar, or an item's one element.
    #[tactic(auto, using(crate::proofs::Places::scalar_set))]
    pub fn store(&mut self, id: u32, number: i32)
        ensures { self.new ≡ states.stored self.old id number }
    {
        let Some(place) = innermost(&self.bound, id) else {
            return;
        };
        match &mut self.bound[place].variable {
            Variable::Scalar(old) => *old = number,
            Variable::Item(item) => {
                let item = *item;
                self.store_in_item(item, 0, number);
            }
            _ => {}
        }
    }

    /// Sets the target of a change.
    pub(crate) fn write(&mut self, aim: Aim, number: i32)
        ensures { self.new ≡ after_store self.old aim number }
    {
        match aim {
            Aim::Name(id) => self.store(id, number),
            Aim::Element(id, place) => self.store_at(id, place, number),
        }
    }

    /// Sets an element of an item.
    fn store_in_item(&mut self, item: usize, place: usize, number: i32)
        ensures { self.new ≡ states.with_element self.old item place number }
    {
        if item < self.items.len() {
            set(&mut self.items[item], place, number);
        }
    }

    /// Sets an element of a local array or of an item.
    #[tactic(auto, using(crate::proofs::Places::array_set))]
    pub(crate) fn store_at(&mut self, id: u32, place: usize, number: i32)
        ensures { self.new ≡ states.stored_at self.old id place number }
    {
        let Some(innermost) = innermost(&self.bound, id) else {
            return;
        };
        match &mut self.bound[innermost].variable {
            Variable::Array(elements) => set(elements, place, number),
            Variable::Item(item) => {
                let item = *item;
                self.store_in_item(item, place, number);
            }
            _ => {}
        }
    }

    /// Declares a scalar, which is 0 until it is set.
    pub fn declare_scalar(&mut self, id: u32, unsigned: bool) -> Result<(), Stop>
        ensures { Made result self.new (states.declared id unsigned (variables.Scalar (pos 0)) self.old) }
    {
        self.declare(id, unsigned, Variable::Scalar(0))?;
        Ok(())
    }

    /// Declares a local array of `size` zeros.
    pub fn declare_array(
        &mut self,
        alloc: Global,
        id: u32,
        unsigned: bool,
        size: u32,
    ) -> Result<(), Stop>
        ensures { Made result self.new (states.declared id unsigned (variables.Array (replicate size (pos 0))) self.old) }
    {
        let elements = List::filled(alloc, 0, size as usize)?;
        self.declare(id, unsigned, Variable::Array(elements))?;
        Ok(())
    }

    /// Declares a window, with the line that a trap of its size has.
    pub fn declare_window(
        &mut self,
        id: u32,
        unsigned: bool,
        line: u32,
        size: i32,
    ) -> Result<(), Stop>
        ensures { Now result self.new self.old
            (and_then (window_size line size) (λ horizon. Ok (states.declared id unsigned (variables.Window horizon) self.old))) }
    {
        match u32::try_from(size) {
            Ok(horizon) if 1 <= horizon && horizon <= HORIZON_LIMIT => {
                self.declare(id, unsigned, Variable::Window(horizon))?;
                Ok(())
            }
            _ => Err(Stop::trap(Trap::WindowSize, line)),
        }
    }

    /// Declares a stream or an array of streams.
    pub fn declare_streams(&mut self, id: u32, unsigned: bool, count: u32) -> Result<(), Stop>
        ensures { Made result self.new (with_streams id unsigned count self.old) }
    {
        let first = self.streams;
        self.streams = first.checked_add(count).ok_or(Stop::Memory)?;
        self.declare(id, unsigned, Variable::Stream { first, count })?;
        Ok(())
    }

    /// The streams that a name stands for; none where it stands for no stream.
    pub fn streams(&self, id: u32) -> Streams
        ensures { result ≡ streams_of (find self.now.bound id) }
    {
        match self.find(id) {
            Some(Variable::Stream { first, count }) => Streams {
                first: *first,
                count: *count,
            },
            _ => Streams { first: 0, count: 0 },
        }
    }

    /// The horizon of a window, in positions; a scalar has horizon 1.
    pub fn horizon(&self, id: u32) -> u32
        ensures { result ≡ horizon_of (find self.now.bound id) }
    {
        match self.find(id) {
            Some(Variable::Window(horizon)) => *horizon,
            _ => 1,
        }
    }

    /// A tick moves the read cursor of a stream by `amount` positions.
    #[tactic(auto, using(crate::proofs::Moving::reverse_last))]
    pub fn tick(&mut self, stream: u32, amount: u32) -> Result<(), Stop>
        ensures { Made result self.new (moved stream amount self.old) }
    {
        self.moves.push(Move::Tick { stream, amount })?;
        Ok(())
    }

    /// The control program ends where an activation with these claims passes a limit.
    pub fn look_at_limits(&self, claims: &[Claim]) -> Result<(), Stop>
        ensures { Limits result (limit self.now.activations claims.now) }
    {
        if self.activations.len() >= ACTIVATIONS_LIMIT as usize {
            return Err(Stop::Ended(Ending::Limited(ControlLimit::Activations)));
        }
        if self.horizons.saturating_add(horizon_sum(claims)) > POSITIONS_LIMIT as u64 {
            return Err(Stop::Ended(Ending::Limited(ControlLimit::Elements)));
        }
        Ok(())
    }

    /// Adds an activation of the task with this number, whose claims pass no limit.
    #[tactic(auto, using(crate::proofs::Horizons::all_with, crate::proofs::Horizons::within))]
    pub fn create(
        &mut self,
        alloc: Global,
        site: u32,
        captured: List<i32>,
        claims: &[Claim],
    ) -> Result<(), Stop>
        requires { limit self.old.activations claims.now ≡ None }
        ensures { Made result self.new (with_created site captured claims.now self.old) }
    {
        let sum = horizon_sum(claims);
        let claims = self.with_skips(alloc, claims)?;
        self.activations.push(Activation {
            site,
            captured,
            claims,
        })?;
        self.horizons += sum;
        Ok(())
    }

    /// The claims of one activation, with what ticks took from their streams.
    fn with_skips(&mut self, alloc: Global, claims: &[Claim]) -> Result<List<Claim>, Memory>
        ensures claims { IfOk result (λ cs. cs ≡ with_skips self.old.moves claims.now) }
        ensures state { OnOk result (self.new ≡ record self.old { moves = moves_behind self.old.moves claims.now }) }
    {
        let mut skipping = List::new(alloc);
        for claim in claims {
            let taken = self.take(*claim)?;
            skipping.push(taken)?;
        }
        Ok(skipping)
    }

    /// A claim is taken, with what ticks took from its stream.
    #[tactic(auto, using(crate::proofs::Moving::reverse_last))]
    fn take(&mut self, claim: Claim) -> Result<Claim, Memory>
        ensures claim { IfOk result (λ c. c ≡ with_skip self.old.moves claim) }
        ensures state { OnOk result (self.new ≡ record self.old { moves = Take claim ∷ self.old.moves }) }
    {
        let taken = with_skip(&self.moves, claim).ok_or(Memory)?;
        self.moves.push(Move::Take(claim))?;
        Ok(taken)
    }
}
