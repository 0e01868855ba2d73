// What is kept of the children of a record: enough to say of every form whether they may stand where they stand.
// Contracts take the children's attributes beside a summary: it keeps no list that a model or an invariant could name.

ghost use Rattle.std.specs.Prelude.{◌≡◌, cond, List, [], ◌∷◌, ◌++◌};
ghost use Rattle.grammar.specs.Site.{Attr};
ghost use Rattle.fitting.specs.Traits.{traits_of};
ghost use Rattle.fitting.specs.Summary.{next as next_of, more, Sums};

use crate::site::Site;
use crate::traits::Traits;
use kinds::Slot;

/// How far the Names and values of a Var have come.
#[derive(Clone, Copy, PartialEq, Eq, Debug)]
pub enum Declared {
    /// There is no Name yet.
    Nothing,
    /// Each Name has its value, or needs none.
    Complete,
    /// A Name waits for its value.
    Unvalued,
    /// These are no Names and values of a Var.
    Wrong,
}

impl Declared {
    /// Behind one more child.
    pub fn behind(self, child: Traits) -> Declared
        ensures { result ≡ next_of self (traits_of child) }
    {
        match self {
            Declared::Nothing | Declared::Complete => {
                if child.is_valued() {
                    Declared::Unvalued
                } else if child.may_stand(Site::PlainName) {
                    Declared::Complete
                } else {
                    Declared::Wrong
                }
            }
            Declared::Unvalued => {
                if child.may_stand(Site::At(Slot::Assignment)) {
                    Declared::Complete
                } else {
                    Declared::Wrong
                }
            }
            Declared::Wrong => Declared::Wrong,
        }
    }
}

/// The children of a record: their number up to five (no form has a fixed number above four), the traits of the first
/// four and of the last, `ABSENT` where there is none; and what holds of all of them, or of all but one.
#[derive(Clone, Copy, PartialEq, Eq, Debug)]
pub struct Summary {
    pub number: u8,
    pub leading: [Traits; 4],
    pub last: Traits,
    /// Each may stand where a value does.
    pub values: bool,
    /// Each but the first may.
    pub arguments: bool,
    /// Each is a Prop.
    pub properties: bool,
    /// Each is a statement.
    pub statements: bool,
    /// Each is a plain Name.
    pub names: bool,
    /// Each but the last is.
    pub parameters: bool,
    /// An `in` stands in the open in one of them.
    pub bare_in: bool,
    /// What they are as the Names and values of a Var.
    pub declared: Declared,
}

/// One more than the number, up to five.
fn one_more(number: u8) -> u8
    ensures { result ≡ more number }
{
    number.min(4) + 1
}

impl Summary {
    /// No children.
    pub fn empty() -> Summary
        ensures { Sums [] result }
    {
        Summary {
            number: 0,
            leading: [Traits::ABSENT; 4],
            last: Traits::ABSENT,
            values: true,
            arguments: true,
            properties: true,
            statements: true,
            names: true,
            parameters: true,
            bare_in: false,
            declared: Declared::Nothing,
        }
    }

    /// With one more child behind them.
    pub fn with(self, child: Traits) -> Summary
        ensures { (cs : List Attr) → Sums cs self → Sums (cs ++ (traits_of child ∷ [])) result }
    {
        let value = child.may_stand(Site::At(Slot::Assignment));
        let name = child.may_stand(Site::PlainName);
        let mut leading = self.leading;
        if self.number < 4 {
            leading[self.number as usize] = child;
        }
        // `&` and `|`: both sides are at hand. Tried: `&&` and `||` make six forks, each with a join (`if-self` ..
        // `if-self-6`); the check said of the proof that behind them the record of steps "has no field `is_property`".
        Summary {
            number: one_more(self.number),
            leading,
            last: child,
            values: self.values & value,
            arguments: (self.number == 0) | (self.arguments & value),
            properties: self.properties & child.is_property(),
            statements: self.statements & child.is_statement(),
            names: self.names & name,
            parameters: self.names,
            bare_in: self.bare_in | child.bare_in,
            declared: self.declared.behind(child),
        }
    }
}
