// What the place where a tree stands can ask of it.

ghost use Rattle.std.specs.Prelude.{◌≡◌};
ghost use Rattle.kinds.specs.Levels as levels;
ghost use Rattle.grammar.specs.Site.{ok, is_sort, is_expression, is_statement, is_other, is_brace, block, declaration, property, valued};
ghost use Rattle.fitting.specs.Traits.{traits_of, begin_of, site_of};

use crate::site::Site;
use kinds::level::fits;
use kinds::{Binding, Form, Slot};

/// The first token, as far as start rules ask.
#[derive(Clone, Copy, PartialEq, Eq, Debug)]
pub enum Begin {
    Brace,
    Function,
    Other,
}

/// What is kept of a tree: its root's form, whether its first child is a call (class C) and whether that is a target,
/// whether an `in` stands in the open in it, what it begins with, whether an `else` behind it would be its own, and
/// whether it is a single Name, Num or Str, or a Var of a single Name.
#[derive(Clone, Copy, PartialEq, Eq, Debug)]
pub struct Traits {
    pub form: Form,
    pub over_call: bool,
    pub over_target: bool,
    pub bare_in: bool,
    pub begin: Begin,
    pub dangles: bool,
    pub single: bool,
}

// `is_brace`, `is_other`, `is_block`, `is_declaration`, `is_property` and `is_valued` are functions, and no `==` at
// each use: each carries the clause that ties it to the grammar's beginning or sort.
impl Begin {
    /// Whether it is `{`.
    pub fn is_brace(self) -> bool
        ensures { result ≡ is_brace (begin_of self) }
    {
        self == Begin::Brace
    }

    /// Whether it is neither `{` nor `function`.
    pub fn is_other(self) -> bool
        ensures { result ≡ is_other (begin_of self) }
    {
        self == Begin::Other
    }
}

impl Traits {
    /// What stands for a child that is not there: the traits of no form.
    // No Option: the grammar's `first_begin []`, `first_standing []` and `last_dangles []` are its values, so that no
    // read needs a test.
    pub const ABSENT: Traits = Traits {
        form: Form::Free,
        over_call: false,
        over_target: false,
        bare_in: false,
        begin: Begin::Other,
        dangles: false,
        single: false,
    };

    /// Whether it is an expression.
    pub fn is_expression(self) -> bool
        ensures { result ≡ is_expression (traits_of self) }
    {
        !matches!(
            self.form,
            Form::Free
                | Form::Name(Binding::Valued)
                | Form::Prop(_)
                | Form::Script
                | Form::ExprStmt
                | Form::Var
                | Form::Return
                | Form::If
                | Form::While
                | Form::For { .. }
                | Form::ForIn
                | Form::Block
                | Form::Labeled
                | Form::Empty
                | Form::Hole(_)
        )
    }

    /// Whether it is a statement; a Block and a Var are.
    pub fn is_statement(self) -> bool
        ensures { result ≡ is_statement (traits_of self) }
    {
        matches!(
            self.form,
            Form::ExprStmt
                | Form::Var
                | Form::Return
                | Form::If
                | Form::While
                | Form::For { .. }
                | Form::ForIn
                | Form::Block
                | Form::Labeled
                | Form::Empty
        )
    }

    /// Whether it is a Block.
    pub fn is_block(self) -> bool
        ensures { result ≡ is_sort block (traits_of self) }
    {
        self.form == Form::Block
    }

    /// Whether it is a Var.
    pub fn is_declaration(self) -> bool
        ensures { result ≡ is_sort declaration (traits_of self) }
    {
        self.form == Form::Var
    }

    /// Whether it is a Prop.
    pub fn is_property(self) -> bool
        ensures { result ≡ is_sort property (traits_of self) }
    {
        matches!(self.form, Form::Prop(_))
    }

    /// Whether it is a Name of a Var that a value follows.
    pub fn is_valued(self) -> bool
        ensures { result ≡ is_sort valued (traits_of self) }
    {
        self.form == Form::Name(Binding::Valued)
    }

    /// Whether it may stand bare in the slot, if it is an expression.
    pub fn suits(self, slot: Slot) -> bool
        ensures { result ≡ levels.fits slot (traits_of self).standing }
    {
        fits(slot, self.form, self.over_call, self.over_target)
    }

    /// Whether it may stand at the site.
    pub fn may_stand(self, site: Site) -> bool
        ensures { result ≡ ok (site_of site) (traits_of self) }
    {
        match site {
            Site::At(slot) => self.is_expression() && self.suits(slot),
            Site::Start => self.is_expression() && self.begin.is_other(),
            Site::Body => {
                self.is_block()
                    || self.is_expression()
                        && self.suits(Slot::Assignment)
                        && !self.begin.is_brace()
            }
            Site::FunctionBody => self.is_block(),
            Site::Statement => self.is_statement(),
            Site::Closed => self.is_statement() && !self.dangles,
            Site::Init => self.is_expression() && !self.bare_in,
            Site::VarInit => self.is_declaration() && !self.bare_in,
            Site::VarIn => self.is_declaration() && self.single,
            Site::Property => self.is_property(),
            Site::PlainName => self.is_expression() && self.single && self.suits(Slot::Identifier),
            Site::ValuedName => self.is_valued(),
            Site::KeyName => self.is_expression() && self.single && self.suits(Slot::PropertyName),
        }
    }
}
