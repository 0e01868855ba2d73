// Whether the children of a record may stand where they stand, for every form.

ghost use Rattle.std.specs.Prelude.{◌≡◌, ◌≤◌, ◌||◌, List, length, map};
ghost use Rattle.grammar.specs.Site.{Attr, init, stmt};
ghost use Rattle.grammar.specs.Layout.{layout, fit_kids, init_site, left_site};
ghost use Rattle.fitting.specs.Traits.{site_of, traits_of};
ghost use Rattle.fitting.specs.Summary.{Sums};
ghost use Rattle.fitting.specs.Sites.{stand, fit_sites, none as none_of, one as one_of, heads as heads_of, ends as ends_of, asks_key, asks_link, asks, is_complete, entry_site};
ghost use Rattle.kinds.specs.declared.form.Form.TheVariants as form;

use crate::derived::head_parts;
use crate::site::Site;
use crate::summary::{Declared, Summary};
use crate::traits::Traits;
use kinds::level::{left_slot, right_slot};
use kinds::{Arguments, Entry, Form, Key, Link, Own, Slot};

/// Where every expression fits.
const ANY: Site = Site::At(Slot::Expression);

/// Where a value stands: a sequence does not fit there.
const VALUE: Site = Site::At(Slot::Assignment);

impl Declared {
    /// Whether these are all Names and values of a Var.
    // No `==` at its use: it carries the clause that ties it to `is_complete` of specs/Sites.
    pub fn is_complete(self) -> bool
        ensures { result ≡ is_complete self }
    {
        self == Declared::Complete
    }
}

/// Whether each child may stand at the site of its place, as far as there are children and sites.
fn stand(children: &[Traits], sites: &[Site]) -> bool
    ensures { result ≡ stand (map site_of sites.now) (map traits_of children.now) }
{
    children
        .iter()
        .zip(sites)
        .all(|(child, site)| child.may_stand(*site))
}

impl Summary {
    /// Whether there are as many children as sites, and each may stand at its site.
    fn exactly(self, sites: &[Site]) -> bool
        requires { length sites.now ≤ 4 }
        ensures { (cs : List Attr) → Sums cs self → result ≡ fit_sites (map site_of sites.now) cs }
    {
        usize::from(self.number) == sites.len() && stand(&self.leading, sites)
    }

    /// Whether the first child may stand at the site, and each other where a value does.
    fn heads(self, first: Site) -> bool
        ensures { (cs : List Attr) → Sums cs self → result ≡ heads_of (site_of first) cs }
    {
        self.number > 0 && self.leading[0].may_stand(first) && self.arguments
    }

    /// Whether the last child may stand at the site, and each other is a plain Name.
    fn ends(self, last: Site) -> bool
        ensures { (cs : List Attr) → Sums cs self → result ≡ ends_of (site_of last) cs }
    {
        self.number > 0 && self.parameters && self.last.may_stand(last)
    }

    /// Where the first child of a For stands, if it is its init.
    fn init_site(self) -> Site
        ensures { (cs : List Attr) → Sums cs self → site_of result ≡ init_site cs }
    {
        if self.leading[0].is_declaration() {
            Site::VarInit
        } else {
            Site::Init
        }
    }

    /// Where the first child of a ForIn stands.
    fn left_site(self) -> Site
        ensures { (cs : List Attr) → Sums cs self → site_of result ≡ left_site cs }
    {
        if self.leading[0].is_declaration() {
            Site::VarIn
        } else {
            Site::At(Slot::Target)
        }
    }
}

/// Behind an object or a callee: a Name, a key, or arguments.
fn link_fits(link: Link, children: Summary, before: Site) -> bool
    ensures { (cs : List Attr) → Sums cs children → result ≡ asks_link (site_of before) link cs }
{
    match link {
        Link::Name => children.exactly(&[before, Site::PlainName]),
        Link::Key => children.exactly(&[before, ANY]),
        Link::Call => children.heads(before),
    }
}

/// The parts of a For's head that are there, and its body behind them.
fn for_fits(init: bool, test: bool, update: bool, children: Summary) -> bool
    ensures { (cs : List Attr) → Sums cs children → result ≡ asks (form.For init test update) cs }
{
    let parts = head_parts(init, test, update);
    let mut sites = [ANY; 4];
    if init {
        sites[0] = children.init_site();
    }
    sites[parts] = Site::Statement;
    children.exactly(&sites[..=parts])
}

/// What is walked, the object, and the body.
fn for_in_fits(children: Summary) -> bool
    ensures { (cs : List Attr) → Sums cs children → result ≡ asks form.ForIn cs }
{
    children.exactly(&[children.left_site(), ANY, Site::Statement])
}

/// No child, or one at the site.
fn at_most_one(children: Summary, only: Site) -> bool
    ensures { (cs : List Attr) → Sums cs children → result ≡ (none_of cs || one_of (site_of only) cs) }
{
    children.exactly(&[]) || children.exactly(&[only])
}

/// A test and one body, or two of which the first leaves the `else` alone.
fn if_fits(children: Summary) -> bool
    ensures { (cs : List Attr) → Sums cs children → result ≡ asks form.If cs }
{
    if children.number == 2 {
        children.exactly(&[ANY, Site::Statement])
    } else {
        children.exactly(&[ANY, Site::Closed, Site::Statement])
    }
}

/// Behind `new`: a callee, with its arguments or alone.
fn new_fits(arguments: Arguments, children: Summary) -> bool
    ensures { (cs : List Attr) → Sums cs children → result ≡ asks (form.New arguments) cs }
{
    match arguments {
        Arguments::Listed => children.heads(Site::At(Slot::Member)),
        Arguments::Unlisted => children.exactly(&[Site::At(Slot::New)]),
    }
}

/// A key, and its value.
fn prop_fits(key: Key, children: Summary) -> bool
    ensures { (cs : List Attr) → Sums cs children → result ≡ asks (form.Prop key) cs }
{
    match key {
        Key::Fixed => children.exactly(&[Site::KeyName, VALUE]),
        Key::Computed => children.exactly(&[VALUE, VALUE]),
    }
}

/// An object, and a Name or a key behind it.
fn member_fits(key: Key, children: Summary) -> bool
    ensures { (cs : List Attr) → Sums cs children → result ≡ asks (form.Member key) cs }
{
    let object = Site::At(Slot::Call);
    match key {
        Key::Fixed => link_fits(Link::Name, children, object),
        Key::Computed => link_fits(Link::Key, children, object),
    }
}

/// What a link of an optional chain stands on, and what it goes on with.
fn chain_fits(link: Link, entry: Entry, children: Summary) -> bool
    ensures { (cs : List Attr) → Sums cs children → result ≡ asks (form.Chain link entry) cs }
{
    match entry {
        Entry::Optional => link_fits(link, children, Site::At(Slot::Optional)),
        Entry::Tail => link_fits(link, children, Site::At(Slot::Chain)),
    }
}

/// The Name of a Fn if it has one, its parameters, and its body.
fn fn_fits(own: Own, children: Summary) -> bool
    ensures { (cs : List Attr) → Sums cs children → result ≡ asks (form.Fn own) cs }
{
    let ends = children.ends(Site::FunctionBody);
    match own {
        Own::Nameless => ends,
        Own::Named => children.number >= 2 && ends,
    }
}

/// Whether each of the children of a record of this form may stand where it stands.
#[tactic(auto, using(crate::proofs::Asked::asked_by))]
pub fn children_fit(form: Form, children: Summary) -> bool
    ensures { (cs : List Attr) → Sums cs children → result ≡ fit_kids (layout form cs) cs }
{
    match form {
        Form::Free
        | Form::Name(_)
        | Form::Num
        | Form::Str
        | Form::Word(_)
        | Form::This
        | Form::Empty
        | Form::Hole(_) => children.exactly(&[]),
        Form::Array => children.values,
        Form::Object => children.properties,
        Form::Prop(key) => prop_fits(key, children),
        Form::Fn(own) => fn_fits(own, children),
        Form::Arrow => children.ends(Site::Body),
        Form::Unary(_) | Form::Await => children.exactly(&[Site::At(Slot::Unary)]),
        Form::Update(_, _) => children.exactly(&[Site::At(Slot::Target)]),
        Form::Bin(operator) => children.exactly(&[
            Site::At(left_slot(operator)),
            Site::At(right_slot(operator)),
        ]),
        Form::Assign(_) => children.exactly(&[Site::At(Slot::Target), VALUE]),
        Form::Cond => children.exactly(&[Site::At(Slot::ShortCircuit), VALUE, VALUE]),
        Form::Seq => children.number >= 2 && children.values,
        Form::Paren => children.exactly(&[ANY]),
        Form::Call => children.heads(Site::At(Slot::Call)),
        Form::New(arguments) => new_fits(arguments, children),
        Form::Member(key) => member_fits(key, children),
        Form::Chain(link, entry) => chain_fits(link, entry, children),
        Form::Yield => at_most_one(children, VALUE),
        Form::Return => at_most_one(children, ANY),
        Form::Script | Form::Block => children.statements,
        Form::ExprStmt => children.exactly(&[Site::Start]),
        Form::Var => children.declared.is_complete(),
        Form::If => if_fits(children),
        Form::While => children.exactly(&[ANY, Site::Statement]),
        Form::For { init, test, update } => for_fits(init, test, update, children),
        Form::ForIn => for_in_fits(children),
        Form::Labeled => children.exactly(&[Site::PlainName, Site::Statement]),
    }
}
