//! The two marks of a file, between which stands what is generated.

ghost use Rattle.std.specs.Prelude.{◌≡◌, IfOk, IfErr, IsTrue, string_bytes};
ghost use Rattle.pcard_impl.specs.{IsAlone, IsOpen, IsOutside, MarkAlone, MarkOpen, marked};

use crate::error::{ImplProblem, ImplProblemAt};
use std::alloc::{AllocError, Global};

/// The line before what is generated, and the blank line before it.
pub const BEGIN: &str =
    "\n// pcard impl: the impls of the types of this file. Don't edit them: run it again.\n";

/// The line after what is generated.
pub const END: &str = "// pcard impl: the end of the impls.\n";

/// The text of a file outside of its marks.
#[derive(Clone, Copy, Debug)]
pub struct Outside<'a> {
    /// What stands before the first mark; of a file without marks, all.
    pub before: &'a str,
    /// What stands after the second mark.
    pub after: &'a str,
}

impl<'a> Outside<'a> {
    /// Returns the text outside of the marks. Fails with `MarkOpen` at a first mark that no second
    /// one follows, and with `MarkAlone` at a second one in a file without a first one.
    pub fn of(file: &'a str) -> Result<Outside<'a>, ImplProblemAt>
        ensures outside { IfOk result (λ outside. IsOutside BEGIN.now END.now file.now
            outside.before.now outside.after.now) }
        ensures open { IfErr result (λ e. e.problem ≡ MarkOpen
            → IsOpen BEGIN.now END.now file.now) }
        ensures alone { IfErr result (λ e. e.problem ≡ MarkAlone
            → IsAlone BEGIN.now END.now file.now) }
    {
        match file.split_once(BEGIN) {
            Some((before, rest)) => match rest.split_once(END) {
                Some((_, after)) => Ok(Outside { before, after }),
                None => Err(ImplProblemAt {
                    problem: ImplProblem::MarkOpen,
                    left: rest.len(),
                    length: 0,
                }),
            },
            None => match file.split_once(END) {
                Some((_, after)) => Err(ImplProblemAt {
                    problem: ImplProblem::MarkAlone,
                    left: after.len(),
                    length: 0,
                }),
                None => Ok(Outside {
                    before: file,
                    after: "",
                }),
            },
        }
    }

    /// Returns the file with this text between its marks.
    pub fn around(self, alloc: Global, generated: &str) -> Result<String, AllocError>
        ensures { IfOk result (λ file. string_bytes file
            ≡ marked BEGIN.now END.now self.entry.before.now generated.now
            self.entry.after.now) }
    {
        let mut file = String::from_str(alloc, self.before)?;
        file.push_str(BEGIN)?;
        file.push_str(generated)?;
        file.push_str(END)?;
        file.push_str(self.after)?;
        Ok(file)
    }

    /// Returns whether this is the text outside of the marks of the file. `false` may also mean that the
    /// file has no marks as they are written.
    pub fn is_of(self, file: &str) -> bool
        ensures { IsTrue result → IsOutside BEGIN.now END.now file.now self.entry.before.now
            self.entry.after.now }
    {
        match Outside::of(file) {
            Ok(outside) => outside.is_same(self),
            Err(_) => false,
        }
    }

    /// Returns whether this is the same text.
    fn is_same(self, other: Outside) -> bool
        ensures before { IsTrue result → self.entry.before.now ≡ other.entry.before.now }
        ensures after { IsTrue result → self.entry.after.now ≡ other.entry.after.now }
    {
        self.before == other.before && self.after == other.after
    }
}
