//! Programs with their violations, or with what their names mean, written down by hand. They take nothing and do nothing.

ghost use Rattle.std.specs.Prelude.{◌≡◌, [], ◌∷◌};
ghost use Rattle.os_ast.specs.Examples.Capturing as capturing;
ghost use Rattle.os_ast.specs.Examples.Refused as refused;
ghost use Rattle.os_ast.specs.Examples.Rules as rules_of;
ghost use Rattle.os_ast.specs.Examples.Several as several;
ghost use Rattle.os_ast.specs.Examples.Shadowing as shadowing;
ghost use Rattle.os_ast.specs.Examples.Smooth as smooth;
ghost use Rattle.os_ast.specs.Examples.SmoothNames as smooth_names;
ghost use Rattle.os_ast.specs.Examples.Spreading as spreading;
ghost use Rattle.os_ast.specs.Examples.Stages as stages;
ghost use Rattle.os_ast.specs.Examples.Unsigned as unsigned;
ghost use Rattle.os_ast.specs.Violations.{names, streams, violated, violations};
ghost use Rattle.os_ast.specs.declared.rule.Rule.TheVariants as rule;

/// Programs that are refused, with their violations.
pub fn refused_programs()
    ensures second_parameter { violations refused.second_parameter ≡ violated 7 rule.DeclaredTwice 1 ∷ [] }
    ensures missing_argument { violations refused.missing_argument ≡ violated 17 rule.ArgumentCount 1 ∷ [] }
    ensures break_outside_a_loop { violations refused.break_outside_a_loop ≡ violated 6 rule.OutsideLoop 1 ∷ [] }
    ensures window_in_the_control_program { violations refused.window_in_the_control_program ≡ violated 12 rule.MisplacedWindow 1 ∷ [] }
    ensures changed_stream { violations refused.changed_stream ≡ violated 15 rule.FixedChanged 1 ∷ [] }
    ensures return_in_a_task { violations refused.return_in_a_task ≡ violated 10 rule.ReturnInTask 3 ∷ [] }
    ensures written_input { violations refused.written_input ≡ violated 11 rule.WrongEnd 2 ∷ violated 13 rule.Unknown 2 ∷ [] }
{}

/// A program for each other rule, with its violations.
pub fn broken_rules()
    ensures unknown_name { violations rules_of.unknown_name ≡ violated 6 rule.Unknown 1 ∷ [] }
    ensures function_as_value { violations rules_of.function_as_value ≡ violated 8 rule.Unknown 1 ∷ [] }
    ensures call_of_main { violations rules_of.call_of_main ≡ violated 14 rule.WrongKind 1 ∷ [] }
    ensures changed_constant { violations rules_of.changed_constant ≡ violated 12 rule.FixedChanged 1 ∷ [] }
    ensures size_of_a_scalar { violations rules_of.size_of_a_scalar ≡ violated 8 rule.WrongSize 1 ∷ [] }
    ensures size_of_zero { violations rules_of.size_of_zero ≡ violated 7 rule.WrongSize 1 ∷ [] }
    ensures arrays_beyond_the_limit { violations rules_of.arrays_beyond_the_limit ≡ violated 12 rule.WrongSize 1 ∷ [] }
    ensures streams_beyond_the_limit { violations rules_of.streams_beyond_the_limit ≡ violated 18 rule.WrongSize 1 ∷ [] }
    ensures stream_in_an_inner_block { violations rules_of.stream_in_an_inner_block ≡ violated 8 rule.Misplaced 1 ∷ [] }
    ensures pragma_in_a_function { violations rules_of.pragma_in_a_function ≡ violated 6 rule.Misplaced 2 ∷ [] }
    ensures stream_as_a_value { violations rules_of.stream_as_a_value ≡ violated 9 rule.MisplacedStream 1 ∷ [] }
    ensures read_output { violations rules_of.read_output ≡ violated 10 rule.WrongEnd 2 ∷ [] }
    ensures item_twice { violations rules_of.item_twice ≡ violated 22 rule.ListedTwice 2 ∷ [] }
    ensures items_beyond_the_limit { violations rules_of.items_beyond_the_limit ≡ violated 25 rule.TaskLimit 2 ∷ [] }
    ensures changed_input { violations rules_of.changed_input ≡ violated 19 rule.FixedChanged 3 ∷ [] }
    ensures no_main { violations rules_of.no_main ≡ violated 10 rule.NoMain 1 ∷ [] }
    ensures main_of_unsigned { violations rules_of.main_of_unsigned ≡ violated 6 rule.NoMain 1 ∷ [] }
    ensures main_with_a_parameter { violations rules_of.main_with_a_parameter ≡ violated 8 rule.NoMain 1 ∷ [] }
    ensures function_in_its_own_body { violations rules_of.function_in_its_own_body ≡ violated 7 rule.Unknown 1 ∷ [] }
    ensures variable_of_a_loop_behind_it { violations rules_of.variable_of_a_loop_behind_it ≡ violated 21 rule.Unknown 1 ∷ [] }
    ensures name_of_a_function { violations rules_of.name_of_a_function ≡ violated 19 rule.WrongKind 1 ∷ [] }
    ensures window_in_a_task { violations rules_of.window_in_a_task ≡ violated 16 rule.MisplacedWindow 3 ∷ [] }
    ensures called_scalar { violations rules_of.called_scalar ≡ violated 9 rule.WrongKind 1 ∷ [] }
{}

/// Programs with several violations, which the list gives in any order.
pub fn several_violations()
    ensures single_stream_with_index { violations several.single_stream_with_index ≡ violated 15 rule.WrongKind 1 ∷ violated 15 rule.FixedChanged 1 ∷ [] }
    ensures wrong_name_behind_too_many_items { violations several.wrong_name_behind_too_many_items
        ≡ violated 25 rule.TaskLimit 2 ∷ violated 67 rule.Unknown 3 ∷ [] }
    ensures no_main_and_others { violations several.no_main_and_others ≡ violated 6 rule.OutsideLoop 1 ∷ violated 12 rule.NoMain 1 ∷ [] }
{}

/// Declarations in inner scopes hide those of outer ones, and have slots of their own.
pub fn names_of_shadowing()
    ensures lawful { violations shadowing.program ≡ [] }
    ensures meanings { names shadowing.program ≡ shadowing.meanings }
    ensures streams { streams shadowing.program ≡ 2 }
{}

/// What a task captures comes first among its slots, in the order of the declarations.
pub fn names_of_capturing()
    ensures lawful { violations capturing.program ≡ [] }
    ensures meanings { names capturing.program ≡ capturing.meanings }
    ensures streams { streams capturing.program ≡ 2 }
{}

/// What the names mean in a program of two tasks with a stream between them.
pub fn names_of_stages()
    ensures lawful { violations stages.program ≡ [] }
    ensures meanings { names stages.program ≡ stages.meanings }
    ensures streams { streams stages.program ≡ 3 }
{}

/// What the names mean in a program with an array of three streams.
pub fn names_of_spreading()
    ensures lawful { violations spreading.program ≡ [] }
    ensures meanings { names spreading.program ≡ spreading.meanings }
    ensures streams { streams spreading.program ≡ 5 }
{}

/// What the names mean in a program with a window of three elements that moves by one.
pub fn names_of_smoothing()
    ensures lawful { violations smooth.program ≡ [] }
    ensures meanings { names smooth.program ≡ smooth_names.meanings }
{}

/// The names of `unsigned` constants, parameters and variables are told to be so.
pub fn names_of_unsigned()
    ensures lawful { violations unsigned.program ≡ [] }
    ensures meanings { names unsigned.program ≡ unsigned.meanings }
{}
