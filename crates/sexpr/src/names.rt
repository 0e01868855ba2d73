// What a record is called in an S-expression: names of this format alone, so they are no `Display` of the kinds.
use kinds::{Arguments, Entry, Form, Key, Link, Own, Side, Sort};
use spelling::spelling_of;
use token::{Code, Word};

/// What stands for a record without children; none for one that may have some. Records do not keep how a name, a number or a
/// string is spelled, so a letter stands for it, and its place says which word it was.
pub fn atom_name(form: Form) -> Option<&'static str> {
    match form {
        Form::Name(_) => Some("a"),
        Form::Num => Some("1"),
        Form::Str => Some("\"s\""),
        Form::Word(constant) => spelling_of(constant.into()),
        Form::This => spelling_of(Code::Word(Word::This)),
        _ => None,
    }
}

/// The name of a form, without its operator.
pub fn kind_name(form: Form) -> &'static str {
    match form {
        Form::Free => "Free",
        Form::Name(_) => "Name",
        Form::Num => "Num",
        Form::Str => "Str",
        Form::Word(_) => "Word",
        Form::This => "This",
        Form::Array => "Array",
        Form::Object => "Object",
        Form::Prop(Key::Fixed) => "Prop",
        Form::Prop(Key::Computed) => "PropC",
        Form::Fn(Own::Nameless) => "Fn",
        Form::Fn(Own::Named) => "FnN",
        Form::Arrow => "Arrow",
        Form::Unary(_) => "Unary",
        Form::Update(_, Side::Before) => "Pre",
        Form::Update(_, Side::After) => "Post",
        Form::Bin(_) => "Bin",
        Form::Assign(_) => "Assign",
        Form::Cond => "Cond",
        Form::Seq => "Seq",
        Form::Paren => "Paren",
        Form::Call => "Call",
        Form::New(Arguments::Listed) => "New",
        Form::New(Arguments::Unlisted) => "NewB",
        Form::Member(Key::Fixed) => "Member",
        Form::Member(Key::Computed) => "MemberC",
        Form::Chain(link, entry) => chain_name(link, entry),
        Form::Await => "Await",
        Form::Yield => "Yield",
        Form::Script => "Script",
        Form::ExprStmt => "Expr",
        Form::Var => "Var",
        Form::Return => "Return",
        Form::If => "If",
        Form::While => "While",
        Form::For { .. } => "For",
        Form::ForIn => "ForIn",
        Form::Block => "Block",
        Form::Labeled => "Labeled",
        Form::Empty => "Empty",
        Form::Hole(Sort::Expression) => "HoleE",
        Form::Hole(Sort::Statement) => "HoleS",
    }
}

fn chain_name(link: Link, entry: Entry) -> &'static str {
    match (link, entry) {
        (Link::Name, Entry::Optional) => "ODot",
        (Link::Key, Entry::Optional) => "OKey",
        (Link::Call, Entry::Optional) => "OCall",
        (Link::Name, Entry::Tail) => "TDot",
        (Link::Key, Entry::Tail) => "TKey",
        (Link::Call, Entry::Tail) => "TCall",
    }
}

/// How the operator of a form is spelled; none where it has none.
pub fn operator_name(form: Form) -> Option<&'static str> {
    spelling_of(match form {
        Form::Unary(operator) => operator.into(),
        Form::Update(operator, _) => operator.into(),
        Form::Bin(operator) => operator.into(),
        Form::Assign(operator) => Code::AssignOperator(operator),
        _ => return None,
    })
}
