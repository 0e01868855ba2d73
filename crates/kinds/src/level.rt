// How tightly an expression holds together, and which slots it may stand in bare.

ghost use Rattle.std.specs.Prelude.{◌≡◌, Bool};
ghost use Rattle.kinds.specs.Levels.{form_level, binary_level, class_of, target_of, standing, fits, slot_of, left_slot, right_slot};
ghost use Rattle.kinds.specs.Tables.{TablesAgree};

use crate::form::{Arguments, Binding, Form};
use crate::operator::BinaryOperator;

/// The four classes of level 16, the tightest. Every looser expression is of no class.
#[derive(Clone, Copy, PartialEq, Eq, Debug)]
pub enum Class {
    /// `new` without a list of arguments.
    N,
    /// A call, or a member of one.
    C,
    /// A link of an optional chain.
    O,
    /// All others.
    M,
}

/// A place for an expression, named after the nonterminal of the language's standard that it is.
#[derive(Clone, Copy, PartialEq, Eq, Debug)]
pub enum Slot {
    /// Level 0 up: every expression.
    Expression,
    /// Level 1 up.
    Assignment,
    /// Level 3 up.
    ShortCircuit,
    /// `||`, or level 4 up.
    LogicalOr,
    /// `??`, or level 5 up.
    Coalesce,
    /// Level 4 up.
    LogicalAnd,
    /// Level 5 up.
    BitwiseOr,
    /// Level 6 up.
    BitwiseXor,
    /// Level 7 up.
    BitwiseAnd,
    /// Level 8 up.
    Equality,
    /// Level 9 up.
    Relational,
    /// Level 10 up.
    Shift,
    /// Level 11 up.
    Additive,
    /// Level 12 up.
    Multiplicative,
    /// Level 13 up.
    Exponentiation,
    /// Level 14 up.
    Unary,
    /// Level 15 up.
    Update,
    /// Class M or N.
    New,
    /// Class M.
    Member,
    /// Class M or C.
    Call,
    /// Class M, C or O.
    Optional,
    /// Class O: what a tail stands on.
    Chain,
    /// What can be assigned to.
    Target,
    /// A plain Name.
    Identifier,
    /// A plain Name, a string or a number.
    PropertyName,
}

/// The level of a binary operator, 3 to 13.
pub fn binary_level(op: BinaryOperator) -> u8
    ensures { result ≡ binary_level op }
{
    match op {
        BinaryOperator::Coalesce | BinaryOperator::Or => 3,
        BinaryOperator::And => 4,
        BinaryOperator::BitOr => 5,
        BinaryOperator::BitXor => 6,
        BinaryOperator::BitAnd => 7,
        BinaryOperator::Equal
        | BinaryOperator::NotEqual
        | BinaryOperator::StrictEqual
        | BinaryOperator::StrictNotEqual => 8,
        BinaryOperator::Less
        | BinaryOperator::LessOrEqual
        | BinaryOperator::Greater
        | BinaryOperator::GreaterOrEqual
        | BinaryOperator::In
        | BinaryOperator::Instanceof => 9,
        BinaryOperator::LeftShift
        | BinaryOperator::RightShift
        | BinaryOperator::UnsignedRightShift => 10,
        BinaryOperator::Add | BinaryOperator::Subtract => 11,
        BinaryOperator::Multiply | BinaryOperator::Divide | BinaryOperator::Remainder => 12,
        BinaryOperator::Exponent => 13,
    }
}

/// The level of a form, 0 to 16.
// A number and no enum of levels: it is counted one up (`right_slot`) and compared with bounds (`fits`, `class_of`).
pub fn level(form: Form) -> u8
    ensures { result ≡ form_level form }
{
    match form {
        Form::Seq => 0,
        Form::Assign(_) | Form::Arrow | Form::Yield => 1,
        Form::Cond => 2,
        Form::Bin(op) => binary_level(op),
        Form::Unary(_) | Form::Await => 14,
        Form::Update(_, _) => 15,
        _ => 16,
    }
}

/// The class of an expression of level 16, told whether its first child is of the class C; looser ones have none. It is
/// asked of expressions only: any other form counts as level 16, so its answer is `Some(Class::M)` and means nothing.
// Not None for those: `class_of` of specs/Levels, which the contract cites, gives them `Some(class.M)`, as it asks the
// level alone; None would take a list of the forms that are no expressions, here and there.
pub fn class_of(form: Form, over_call: bool) -> Option<Class>
    ensures { result ≡ class_of form over_call }
{
    match (form, level(form)) {
        (_, 0..=15) => None,
        (Form::New(Arguments::Unlisted), _) => Some(Class::N),
        (Form::Call, _) => Some(Class::C),
        (Form::Member(_), _) if over_call => Some(Class::C),
        (Form::Chain(_, _), _) => Some(Class::O),
        _ => Some(Class::M),
    }
}

/// Whether an expression can be assigned to, told whether its first child can.
pub fn target(form: Form, over_target: bool) -> bool
    ensures { result ≡ target_of form over_target }
{
    match form {
        Form::Name(Binding::Plain) | Form::Member(_) => true,
        Form::Paren => over_target,
        _ => false,
    }
}

/// Whether an expression may stand bare in a slot, told whether its first child is of the class C, and a target. It is
/// asked of expressions only: any other form counts as level 16 and class M, so it seems to fit most slots.
// The form and what is asked of its first child are three parameters: this is the only function that takes them all,
// and a struct of them would have to be built and named at each call.
// The least levels are arms here and no second table: eight of the slots have none, and two take an operator besides.
pub fn fits(slot: Slot, form: Form, over_call: bool, over_target: bool) -> bool
    ensures { result ≡ fits slot (standing form over_call over_target) }
{
    match (slot, form, level(form)) {
        (Slot::Expression, _, _) => true,
        (Slot::Assignment, _, 1..=16) => true,
        (Slot::ShortCircuit, _, 3..=16) => true,
        (Slot::LogicalOr, Form::Bin(BinaryOperator::Or), _) => true,
        (Slot::LogicalOr, _, 4..=16) => true,
        (Slot::Coalesce, Form::Bin(BinaryOperator::Coalesce), _) => true,
        (Slot::Coalesce, _, 5..=16) => true,
        (Slot::LogicalAnd, _, 4..=16) => true,
        (Slot::BitwiseOr, _, 5..=16) => true,
        (Slot::BitwiseXor, _, 6..=16) => true,
        (Slot::BitwiseAnd, _, 7..=16) => true,
        (Slot::Equality, _, 8..=16) => true,
        (Slot::Relational, _, 9..=16) => true,
        (Slot::Shift, _, 10..=16) => true,
        (Slot::Additive, _, 11..=16) => true,
        (Slot::Multiplicative, _, 12..=16) => true,
        (Slot::Exponentiation, _, 13..=16) => true,
        (Slot::Unary, _, 14..=16) => true,
        (Slot::Update, _, 15..=16) => true,
        (Slot::New, _, _) => matches!(class_of(form, over_call), Some(Class::M | Class::N)),
        (Slot::Member, _, _) => class_of(form, over_call) == Some(Class::M),
        (Slot::Call, _, _) => matches!(class_of(form, over_call), Some(Class::M | Class::C)),
        (Slot::Optional, _, _) => matches!(
            class_of(form, over_call),
            Some(Class::M | Class::C | Class::O)
        ),
        (Slot::Chain, _, _) => class_of(form, over_call) == Some(Class::O),
        (Slot::Target, _, _) => target(form, over_target),
        (Slot::Identifier, Form::Name(Binding::Plain), _) => true,
        (Slot::PropertyName, Form::Name(Binding::Plain) | Form::Num | Form::Str, _) => true,
        _ => false,
    }
}

/// The slot that an operator's level opens, 4 to 13: what is of this level fits, and all that is tighter.
fn slot_of(level: u8) -> Slot
    ensures { result ≡ slot_of level }
{
    match level {
        4 => Slot::LogicalAnd,
        5 => Slot::BitwiseOr,
        6 => Slot::BitwiseXor,
        7 => Slot::BitwiseAnd,
        8 => Slot::Equality,
        9 => Slot::Relational,
        10 => Slot::Shift,
        11 => Slot::Additive,
        12 => Slot::Multiplicative,
        _ => Slot::Exponentiation,
    }
}

/// The slot of the left operand. Operators of one level lean to the left, so it takes the operator's own level; only
/// `**` leans to the right, and `||` and `??` do not mix.
pub fn left_slot(op: BinaryOperator) -> Slot
    ensures { result ≡ left_slot op }
{
    match op {
        BinaryOperator::Coalesce => Slot::Coalesce,
        BinaryOperator::Or => Slot::LogicalOr,
        BinaryOperator::Exponent => Slot::Update,
        _ => slot_of(binary_level(op)),
    }
}

/// The slot of the right operand: one level up, but for `**`, and for `??`, which takes no `&&`.
pub fn right_slot(op: BinaryOperator) -> Slot
    ensures { result ≡ right_slot op }
{
    match op {
        BinaryOperator::Coalesce => Slot::BitwiseOr,
        BinaryOperator::Exponent => Slot::Exponentiation,
        _ => slot_of(binary_level(op) + 1),
    }
}

/// The tables by which levels, classes and targets are answered agree with the standings that the grammar is stated
/// with.
pub fn tables_agree()
    ensures { TablesAgree }
{}
