// What a tree is, from its root's form and the summary of its children.

ghost use Rattle.std.specs.Prelude.{◌≡◌, ◌&&◌, ◌||◌, List, map};
ghost use Rattle.kinds.specs.Levels.{is_c, is_o, is_target};
ghost use Rattle.grammar.specs.Site.{Attr};
ghost use Rattle.grammar.specs.Layout.{attr_of, is_in};
ghost use Rattle.fitting.specs.Traits.{traits_of, begin_of};
ghost use Rattle.fitting.specs.Summary.{Sums};
ghost use Rattle.fitting.specs.Derived.{open_of, head_parts, for_open, marked, bare, opening_of, begins as begins_of, tail_of, dangling, whole_of, declares, one_name};

use crate::summary::Summary;
use crate::traits::{Begin, Traits};
use kinds::{BinaryOperator, Binding, Form, Key, Own, Side, Slot};

/// Which children are in the open, so that an `in` in the open in one of them is in the open in the record.
#[derive(Clone, Copy, PartialEq, Eq, Debug)]
pub enum Open {
    /// Of the first four, those that are marked.
    Marked([bool; 4]),
    /// The last.
    Last,
    /// All of them.
    All,
}

/// What a record begins with.
#[derive(Clone, Copy, PartialEq, Eq, Debug)]
pub enum Opening {
    /// A token of its own.
    Token(Begin),
    /// Its first child.
    Child,
}

/// Whether an `else` behind a record could be its own.
#[derive(Clone, Copy, PartialEq, Eq, Debug)]
pub enum Tail {
    /// Never.
    Nothing,
    /// If it could be that of its last child.
    Body,
    /// The same, and where it has no `else` yet.
    Else,
}

impl Traits {
    // Three functions, since each carries the clause that ties it to a definition of its own.

    /// Whether it is a link of an optional chain.
    pub fn is_chain(self) -> bool
        ensures { result ≡ is_o (traits_of self).standing }
    {
        self.suits(Slot::Chain)
    }

    /// Whether it is a call, or a member of one.
    pub fn is_call(self) -> bool
        ensures { result ≡ is_c (traits_of self).standing }
    {
        self.suits(Slot::Call) && !self.suits(Slot::Member)
    }

    /// Whether it can be assigned to.
    pub fn is_target(self) -> bool
        ensures { result ≡ is_target (traits_of self).standing }
    {
        self.suits(Slot::Target)
    }
}

// Three flags and no struct of them: they are the fields of `Form::For`, and the grammar's definitions match on those.

/// How many of a For's init, test and update are there.
pub fn head_parts(init: bool, test: bool, update: bool) -> usize
    ensures { result ≡ head_parts init test update }
{
    usize::from(init) + usize::from(test) + usize::from(update)
}

/// The parts of a For's head that are there, and its body behind them: all are in the open.
fn open_in_for(init: bool, test: bool, update: bool) -> Open
    ensures { result ≡ for_open init test update }
{
    let parts = head_parts(init, test, update);
    Open::Marked([true, parts > 0, parts > 1, parts > 2])
}

/// Which children of a record of this form are in the open.
fn open_children(form: Form) -> Open
    ensures { result ≡ open_of form }
{
    match form {
        Form::Prop(Key::Fixed)
        | Form::Fn(Own::Named)
        | Form::Unary(_)
        | Form::Update(_, _)
        | Form::Call
        | Form::New(_)
        | Form::Member(_)
        | Form::Chain(_, _)
        | Form::Await
        | Form::Yield
        | Form::ExprStmt
        | Form::Return => Open::Marked([true, false, false, false]),
        Form::While => Open::Marked([false, true, false, false]),
        Form::Arrow => Open::Last,
        Form::Bin(_) | Form::Assign(_) | Form::Labeled => Open::Marked([true, true, false, false]),
        Form::Cond | Form::ForIn => Open::Marked([true, false, true, false]),
        Form::If => Open::Marked([false, true, true, false]),
        Form::For { init, test, update } => open_in_for(init, test, update),
        Form::Seq | Form::Var => Open::All,
        _ => Open::Marked([false; 4]),
    }
}

/// Whether an `in` stands in the open in one of the children that are marked.
fn bare_in_marked(children: &[Traits], marks: &[bool]) -> bool
    ensures { result ≡ marked marks.now (map traits_of children.now) }
{
    children
        .iter()
        .zip(marks)
        .any(|(child, open)| *open && child.bare_in)
}

/// Whether an `in` stands in the open in one of the children that are in the open.
fn open_in(parts: Open, children: Summary) -> bool
    ensures { (cs : List Attr) → Sums cs children → result ≡ bare parts cs }
{
    match parts {
        Open::Marked(marks) => bare_in_marked(&children.leading, &marks),
        Open::Last => children.last.bare_in,
        Open::All => children.bare_in,
    }
}

/// What a record of this form begins with.
fn opens_with(form: Form) -> Opening
    ensures { result ≡ opening_of form }
{
    match form {
        Form::Object | Form::Block => Opening::Token(Begin::Brace),
        Form::Fn(_) => Opening::Token(Begin::Function),
        Form::Prop(Key::Fixed)
        | Form::Update(_, Side::After)
        | Form::Bin(_)
        | Form::Assign(_)
        | Form::Cond
        | Form::Seq
        | Form::Call
        | Form::Member(_)
        | Form::Chain(_, _)
        | Form::Script
        | Form::ExprStmt
        | Form::Labeled => Opening::Child,
        _ => Opening::Token(Begin::Other),
    }
}

/// The first token of a record that begins so.
fn begins(opening: Opening, children: Summary) -> Begin
    ensures { (cs : List Attr) → Sums cs children → begin_of result ≡ begins_of opening cs }
{
    match opening {
        Opening::Token(begin) => begin,
        Opening::Child => children.leading[0].begin,
    }
}

/// When an `else` behind a record of this form could be its own.
fn tail_of(form: Form) -> Tail
    ensures { result ≡ tail_of form }
{
    match form {
        Form::If => Tail::Else,
        Form::While | Form::For { .. } | Form::ForIn | Form::Labeled => Tail::Body,
        _ => Tail::Nothing,
    }
}

/// Whether an `else` behind the record could be its own.
fn dangles(tail: Tail, children: Summary) -> bool
    ensures { (cs : List Attr) → Sums cs children → result ≡ dangling tail cs }
{
    match tail {
        Tail::Nothing => false,
        Tail::Body => children.last.dangles,
        Tail::Else => children.number < 3 || children.last.dangles,
    }
}

/// Whether the record is a plain Name, a Num or a Str.
fn is_whole(form: Form) -> bool
    ensures { result ≡ whole_of form }
{
    matches!(form, Form::Name(Binding::Plain) | Form::Num | Form::Str)
}

/// Whether the only child is a Name without a value.
fn one_name(children: Summary) -> bool
    ensures { (cs : List Attr) → Sums cs children → result ≡ one_name cs }
{
    children.number == 1 && !children.leading[0].is_valued()
}

/// Whether an `in` stands in the open in the record: its own, or that of a child that is in the open.
fn has_bare_in(form: Form, children: Summary) -> bool
    ensures { (cs : List Attr) → Sums cs children → result ≡ (is_in form || bare (open_of form) cs) }
{
    form == Form::Bin(BinaryOperator::In) || open_in(open_children(form), children)
}

/// Whether the record is a single Name, Num or Str, or a Var of a single Name.
fn is_single(form: Form, children: Summary) -> bool
    ensures { (cs : List Attr) → Sums cs children → result ≡ (whole_of form || (declares form && one_name cs)) }
{
    is_whole(form) || form == Form::Var && one_name(children)
}

/// What a tree is whose root has this form, and its children that summary.
pub fn traits_of(form: Form, children: Summary) -> Traits
    ensures form { result.form ≡ form }
    ensures attributes { (cs : List Attr) → Sums cs children → traits_of result ≡ attr_of form cs }
{
    Traits {
        form,
        over_call: children.leading[0].is_call(),
        over_target: children.leading[0].is_target(),
        bare_in: has_bare_in(form, children),
        begin: begins(opens_with(form), children),
        dangles: dangles(tail_of(form), children),
        single: is_single(form, children),
    }
}
