// The grammar of rules, and that no token list has two readings. The definitions stand in `specs`; each function here
// carries one law.

#![tactic(auto)]

ghost use Rattle.grammar.specs.Rewriting.{CoreLaw, GoodFull, StepsShrink};
ghost use Rattle.grammar.specs.Productions.{Units, Productions, Lists};
ghost use Rattle.grammar.specs.Contexts.{Lookaheads, BeforeElse, WithoutIn};
ghost use Rattle.grammar.specs.Examples.{ExamplesHold, CoresHold};
ghost use Rattle.grammar.specs.Claim.{Unambiguous, ReadDerives, DerivedGood, GoodDerives, PartGood, PartDerives, PartsPlaced, ScriptsPlaced, SizesBounded, FoundWritten};

/// No token list has two readings.
pub fn unambiguous()
    ensures { Unambiguous }
{}

/// The reader of the specification accepts exactly the token lists that have a reading, and gives it.
pub fn reader_is_exact()
    ensures { ReadDerives }
{}

/// What is derived is a good script, and writing it gives its tokens back.
pub fn derived_is_good()
    ensures { DerivedGood }
{}

/// Tokens that are spelled as a good script is written have a reading, with the script's shape.
pub fn good_is_derived()
    ensures { GoodDerives }
{}

/// The worked examples read as they are written down, and have the core forms that are.
pub fn examples_hold()
    ensures readings { ExamplesHold }
    ensures cores { CoresHold }
{}

/// The core form of a tree is what its rules come to, in whatever order they are applied, and nothing changes it any
/// more.
pub fn core_form_law()
    ensures { CoreLaw }
{}

/// Each step of the core form's rules makes a tree smaller, so applying them comes to an end.
pub fn core_steps_shrink()
    ensures { StepsShrink }
{}

/// No good tree has an empty sequence, so the law of the core form speaks of every good tree.
pub fn good_is_full()
    ensures { GoodFull }
{}

/// The productions of ECMA-262 that are in scope hold of the grammar, each under its name there.
pub fn productions_hold()
    ensures units { Units }
    ensures productions { Productions }
    ensures lists { Lists }
    ensures lookaheads { Lookaheads }
    ensures before_else { BeforeElse }
    ensures without_in { WithoutIn }
{}

/// The place of a record runs from its first token's `lo` to its last token's `hi`; a script without tokens has the
/// place 0 to 0.
pub fn places_law()
    ensures parts { PartsPlaced }
    ensures scripts { ScriptsPlaced }
{}

/// The laws of `derived_is_good` and of `good_is_derived` hold of every part of a script too, at the site where it
/// stands and with what follows it: a derived part is good and writes its tokens, and tokens spelled as a good part is
/// written derive one of its shape.
pub fn parts_are_good()
    ensures good { PartGood }
    ensures derives { PartDerives }
{}

/// A reading has at most one record more than tokens, and nests at most as deep as it has records: fewer than 512
/// tokens never nest deeper than 512.
pub fn sizes_law()
    ensures { SizesBounded }
{}

/// What the reader of the specification finds for a goal is written with exactly the tokens that it ate, also where the
/// tree is not good.
pub fn found_is_written()
    ensures { FoundWritten }
{}
