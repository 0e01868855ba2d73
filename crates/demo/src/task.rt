// The task: the needless pairs of a rule go, and their comments are carried to what they enclosed.
use crate::pairs::moves_of;
use crate::rule::{Comment, Rule};
use crate::show::{Shown, show_answer, show_fault, show_lists, show_move, show_rule};
use comments::{Fill, Move, Place, Side, Spot, carry_both, same_lists};
use register::{Entry, Register};
use spliced::{Head, Note, Spliced};
use std::io;

/// Reads lines until one is a rule, and plays the task on it.
pub fn play(rt: &HostRuntime) -> io::Result<()> {
    let heap = rt.alloc();
    println!(rt; "1. A rule is typed, word by word:")?;
    for line in rt.lines(heap) {
        let line = line?;
        let text = line.as_str();
        println!(rt; "   {text}")?;
        match Rule::read(heap, text) {
            Ok(rule) => return carry_comments(rt, text, &rule),
            Err(fault) => show_fault(rt, text, fault)?,
        }
    }
    println!(rt; "   No line was a rule.")
}

fn carry_comments<'x>(rt: &HostRuntime, text: &'x str, rule: &'x Rule) -> io::Result<()> {
    println!(rt; "2. Its tokens and comments, with their places:")?;
    let shown = Shown {
        text,
        comments: rule.comments.as_slice(),
    };
    show_rule(rt, shown, rule.tokens.as_slice())?;
    let heap = rt.alloc();
    let moves = moves_of(heap, rule.tokens.as_slice())?;
    let room = rule.comments.len();
    let mut notes = vec![in heap; Note::UNUSED; room]?;
    let mut heads = vec![in heap; Head::UNUSED; room]?;
    let mut entries = vec![in heap; Entry::UNUSED; room]?;
    let mut stores = Stores {
        spliced: Spliced::new(notes.as_mut_slice(), heads.as_mut_slice()),
        register: Register::new(entries.as_mut_slice()),
    };
    println!(rt; "3. Two stores with just enough room take its comments:")?;
    for comment in shown.comments.iter() {
        stores.fill(rt, *comment)?;
    }
    stores.compare(rt, shown)?;
    show_moves(rt, moves.as_slice())?;
    stores.carry(moves.as_slice());
    println!(rt; "5. The comments afterwards:")?;
    stores.compare(rt, shown)?;
    println!(rt; "6. Both stores are full. One comment more is refused, and nothing changes:")?;
    stores.fill(rt, ONE_MORE)?;
    stores.compare(rt, shown)
}

fn show_moves(rt: &HostRuntime, moves: &[Move]) -> io::Result<()> {
    println!(rt;
        "4. The pairs round a name go, and their comments go to the name, from the inner pair first:"
    )?;
    for m in moves {
        show_move(rt, m)?;
    }
    Ok(())
}

/// A comment for which there is no room any more.
const ONE_MORE: Comment = Comment {
    number: 100,
    text: Place { lo: 0, hi: 0 },
    spot: Spot {
        side: Side::Trailing,
        offset: 0,
    },
};

/// The two stores beside each other.
#[derive(Drop)]
struct Stores<'a> {
    spliced: Spliced<'a>,
    register: Register<'a>,
}

impl<'a> Stores<'a> {
    /// Puts a comment into both, and prints what they answer.
    fn fill(&mut self, rt: &HostRuntime, comment: Comment) -> io::Result<()> {
        let Comment { number, spot, .. } = comment;
        show_answer(rt, "spliced chains", number, self.spliced.add(spot, number))?;
        show_answer(rt, "register", number, self.register.add(spot, number))
    }

    /// Makes the moves in both.
    fn carry(&mut self, moves: &[Move]) {
        carry_both(&mut self.spliced, &mut self.register, moves);
    }

    /// Prints the lists of both, and whether they agree at every offset of the rule.
    fn compare(&self, rt: &HostRuntime, shown: Shown) -> io::Result<()> {
        show_lists(rt, "spliced chains", &self.spliced, shown)?;
        show_lists(rt, "register", &self.register, shown)?;
        let verdict = if same_lists(&self.spliced, &self.register, shown.end()) {
            "agree"
        } else {
            "do not agree"
        };
        println!(rt; "   The two stores {verdict} at all offsets of the rule.")
    }
}
