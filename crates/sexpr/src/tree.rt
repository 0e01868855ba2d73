// Writing a tree, a parent before its children.
use crate::names::{atom_name, kind_name, operator_name};
use kinds::{Binding, Form};
use records::Record;
use std::alloc::{AllocError, Global};
use toolkit::Pool;

/// What is written behind the name of each record.
#[derive(Clone, Copy, PartialEq, Eq, Debug)]
pub enum Detail {
    /// `@lo:hi`
    Places,
    /// `@lo:hi#slot`
    PlacesAndSlots,
}

/// No tree of a pool nests deeper.
const DEEPEST: u16 = 512;

/// The tree whose root is at a slot, as an S-expression.
pub fn show(heap: Global, pool: &Pool, root: u16, detail: Detail) -> Result<String, AllocError> {
    let mut writer = Writer {
        pool,
        detail,
        out: String::new(heap),
    };
    let _ = writer.tree(root, DEEPEST)?;
    Ok(writer.out)
}

/// What is written, and of what.
#[derive(Drop)]
struct Writer<'a, 'b> {
    pool: &'a Pool<'b>,
    detail: Detail,
    out: String,
}

impl<'a, 'b> Writer<'a, 'b> {
    /// Writes the tree at a slot, and answers where its next sibling is, if it has one.
    fn tree(&mut self, slot: u16, room: u16) -> Result<Option<u16>, AllocError> {
        if room == 0 {
            return Ok(None);
        }
        let Some(record) = self.pool.record(slot) else {
            return Ok(None);
        };
        match atom_name(record.form) {
            Some(name) => {
                self.name(name, slot, record)?;
                if matches!(record.form, Form::Name(Binding::Valued)) {
                    self.out.push_str(" =")?;
                }
            }
            None => {
                self.out.push('(')?;
                self.name(kind_name(record.form), slot, record)?;
                if let Some(operator) = operator_name(record.form) {
                    self.out.push(' ')?;
                    self.out.push_str(operator)?;
                }
                let mut child = linked(record.first);
                for there in head_parts(record.form) {
                    if !there {
                        self.out.push_str(" _")?;
                    } else if let Some(slot) = child {
                        self.out.push(' ')?;
                        child = self.tree(slot, room - 1)?;
                    }
                }
                // No record has more children than there are slots; a `while let` would have no measure.
                for _ in 0..u16::MAX {
                    let Some(slot) = child else {
                        break;
                    };
                    self.out.push(' ')?;
                    child = self.tree(slot, room - 1)?;
                }
                self.out.push(')')?;
            }
        }
        Ok(linked(record.next))
    }

    fn name(&mut self, name: &str, slot: u16, record: Record) -> Result<(), AllocError> {
        let Record { lo, hi, .. } = record;
        match self.detail {
            Detail::Places => write!(self.out, "{name}@{lo}:{hi}"),
            Detail::PlacesAndSlots => write!(self.out, "{name}@{lo}:{hi}#{slot}"),
        }
    }
}

/// Where a record's link leads, if it leads anywhere.
fn linked(link: u16) -> Option<u16> {
    (link != 0).then_some(link)
}

/// Which of the first three parts are there. Only the head of a For has gaps.
fn head_parts(form: Form) -> [bool; 3] {
    match form {
        Form::For { init, test, update } => [init, test, update],
        _ => [true, true, true],
    }
}
