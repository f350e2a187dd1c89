//! The parts of an archive are read one after the other: from the newest back, or on from one.

ghost use Rattle.std.specs.Prelude.{◌≡◌, Bool, List, map, ℕ};
ghost use Rattle.std.specs.String.{string_bytes};
ghost use Rattle.bac_parts.specs.Visits.{Came, LeavesAll, ReadsBack, ReadsOn, Visit, Visits};
ghost use Rattle.bac_parts.specs.Visits.{at_visit, path_of, visit_rules};

use bac_files::{NotOpened, Parts, Reader};
use sqlite::Error;
use std::io::Write;

/// Visits the parts of an archive, as long as it wants one more.
///
/// What it wants, and what it makes of a part, are its own to say.
pub trait Visitor: Reader {
    /// Whether it wants one more part.
    ghost wants: { Self → Bool };

    /// What it makes of a part: the visitor behind the read, the path, whether the part was read
    /// and could be closed, or why it wasn't opened, and the visitor behind that.
    ghost ends: { Self → List ℕ → Came → Self → Type 0 };

    /// Whether it wants one more part.
    fn wants_more(&self) -> bool
        ensures { result ≡ wants self.now };

    /// Takes what came of the part at this path: whether it could be closed behind the read, or why
    /// it wasn't opened.
    fn end(&mut self, path: &str, came: Result<Result<(), Error>, NotOpened>)
        ensures { ends self.old path.now came self.new };
}

/// Opens a part, has it read, and closes it.
fn visit<P: Parts, V: Visitor, O: Write>(parts: &mut P, visitor: &mut V, path: &str, output: &mut O)
    requires { LeavesAll V.reads }
    ensures { (one : Visit) × (path_of one ≡ path.now)
        × Visits (visit_rules P.holds P.bars V.reads V.wants V.ends) one
        (at_visit parts.old visitor.old (O.contents output.old))
        (at_visit parts.new visitor.new (O.contents output.new)) }
{
    match parts.read(path, visitor, output) {
        Ok(shut) => visitor.end(path, Ok(shut)),
        Err(why) => visitor.end(path, Err(why)),
    }
}

/// Reads parts from the newest back, the last of these paths, as long as the visitor wants one
/// more. Each is closed before the next one is opened. It answers how many older ones weren't
/// opened: so it is the place of the oldest one that was.
pub fn read_back<P: Parts, V: Visitor, O: Write>(
    parts: &mut P,
    visitor: &mut V,
    paths: &[String],
    output: &mut O,
) -> usize
    requires { LeavesAll V.reads }
    ensures { ReadsBack (visit_rules P.holds P.bars V.reads V.wants V.ends)
        (map string_bytes paths.now) result
        (at_visit parts.old visitor.old (O.contents output.old))
        (at_visit parts.new visitor.new (O.contents output.new)) }
{
    let mut older = paths;
    for step in 0..paths.len() {
        let Some((newest, rest)) = older.split_last() else {
            return 0;
        };
        if !visitor.wants_more() {
            return older.len();
        }
        visit(parts, visitor, newest.as_str(), output);
        older = rest;
    }
    0
}

/// Reads parts on from the first of these paths, as long as the visitor wants one more. Each is
/// closed before the next one is opened. It answers how many were opened.
pub fn read_on<P: Parts, V: Visitor, O: Write>(
    parts: &mut P,
    visitor: &mut V,
    paths: &[String],
    output: &mut O,
) -> usize
    requires { LeavesAll V.reads }
    ensures { ReadsOn (visit_rules P.holds P.bars V.reads V.wants V.ends)
        (map string_bytes paths.now) result
        (at_visit parts.old visitor.old (O.contents output.old))
        (at_visit parts.new visitor.new (O.contents output.new)) }
{
    let mut newer = paths;
    let mut visited = 0usize;
    for step in 0..paths.len() {
        let Some((first, rest)) = newer.split_first() else {
            return visited;
        };
        if !visitor.wants_more() {
            return visited;
        }
        visit(parts, visitor, first.as_str(), output);
        newer = rest;
        visited += 1;
    }
    visited
}
