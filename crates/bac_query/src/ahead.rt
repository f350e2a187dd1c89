//! A link that prints while an answer is waited for.

ghost use Rattle.std.specs.Prelude.{◌≡◌, ◌++◌, ◌∷◌, [], true, false, None, Err, OnOk, refl};
ghost use Rattle.std.specs.Io.KnownBytes.{Keeps};
ghost use Rattle.std.specs.Result.{result_ok};
ghost use Rattle.std.proofs.Common.{◌∙◌};
ghost use Rattle.bac_walk.specs.Walks.{gap_items, item_of};
ghost use Rattle.bac_query.specs.Ahead.{pending, port_asks, PrintsLeft, PrintsLast, PrintsOn};
ghost use Rattle.bac_query.specs.Ahead.{closing};
ghost use Rattle.bac_query.specs.Fetching.{PrintsEnd};
ghost use Rattle.bac_query.specs.More.{TellsMore};

use crate::fault::QueryFault;
use crate::fetching::{Fetched, end, unsaid};
use crate::layout::print_items;
use crate::more::if_caught_up;
use bac_form::Form;
use bac_link::{Item, LogLink, Lost};
use bac_ports::{Port, UdpLink};
use bac_walk::{Gap, Numbered, ReplyFlaw, Sink, Why};
use bac_wire::Datagram;
use std::alloc::Global;
use std::io::Write;

/// A link that, once a request is sent, prints what was left with it, and only then waits for the
/// answer.
#[derive(Drop)]
pub(crate) struct Ahead<'a, P, W> {
    link: &'a mut UdpLink<P>,
    out: &'a mut W,
    /// The items whose lines are still to be printed.
    pub(crate) left: &'a mut Vec<Item>,
    /// Their text, or the end line.
    text: &'a mut Vec<u8>,
    /// How they are printed.
    layout: Form,
    alloc: Global,
    /// A write was refused: nothing more is printed.
    is_refused: bool,
    /// The answer to the last request, if one came.
    pub(crate) last: Option<Datagram>,
    /// What is wrong with it, if it is a bad reply.
    pub(crate) flaw: Option<ReplyFlaw>,
    /// The last reply that brought records said that more is there.
    pub(crate) said_more: bool,
}

impl<'a, P: Port, W: Write> Ahead<'a, P, W> {
    /// A link with these items still to print, and room for their text.
    pub(crate) fn new(
        alloc: Global,
        layout: Form,
        link: &'a mut UdpLink<P>,
        out: &'a mut W,
        left: &'a mut Vec<Item>,
        text: &'a mut Vec<u8>,
    ) -> Ahead<'a, P, W>
        ensures same_link { result.link.ghost_name ≡ link.entry.ghost_name }
        ensures same_out { result.out.ghost_name ≡ out.entry.ghost_name }
        ensures link { result.link.now ≡ link.old }
        ensures out { result.out.now ≡ out.old }
        ensures left { result.left.now ≡ left.old }
        ensures layout { result.layout ≡ layout }
        ensures refused { result.is_refused ≡ false }
        ensures said_more { result.said_more ≡ false }
    {
        Ahead {
            link,
            out,
            left,
            text,
            layout,
            alloc,
            is_refused: false,
            last: None,
            flaw: None,
            said_more: false,
        }
    }

    /// Prints the text of what is left, with one write. If there is no memory for it, it stays
    /// left.
    pub(crate) fn print_left(&mut self) -> Result<(), QueryFault>
        ensures prints { self.old.is_refused ≡ false
            → PrintsLeft self.old.layout self.old.left.now.items result
            (W.contents self.old.out.now) (W.contents self.new.out.now) }
        ensures refused { self.old.is_refused ≡ true
            → (result ≡ Err QueryFault.Write)
            × Keeps (W.contents self.old.out.now) (W.contents self.new.out.now) }
        ensures on { PrintsOn (pending self.old.layout self.old.is_refused self.old.left.now.items
            (W.contents self.old.out.now))
            (pending self.new.layout self.new.is_refused self.new.left.now.items
            (W.contents self.new.out.now)) }
        ensures none { OnOk result (self.new.left.now.items ≡ []) }
        ensures layout { self.new.layout ≡ self.old.layout }
        ensures well { OnOk result (self.new.is_refused ≡ false) }
        ensures link { self.new.link.now ≡ self.old.link.now }
        ensures flaw { self.new.flaw ≡ self.old.flaw }
        ensures said_more { self.new.said_more ≡ self.old.said_more }
        ensures same_link { self.new.link.ghost_name ≡ self.old.link.ghost_name }
        ensures same_out { self.new.out.ghost_name ≡ self.old.out.ghost_name }
    {
        if self.is_refused {
            return Err(QueryFault::Write);
        }
        if self.left.is_empty() {
            return Ok(());
        }
        match print_items(
            self.alloc,
            self.layout,
            &mut *self.text,
            self.left.as_slice(),
            &mut *self.out,
        ) {
            Ok(()) => {
                self.left.clear();
                Ok(())
            }
            Err(QueryFault::Memory) => Err(QueryFault::Memory),
            Err(fault) => {
                self.is_refused = true;
                Err(fault)
            }
        }
    }

    /// Prints the line of a walk's end; rows of CSV and lines of JSON have none.
    pub(crate) fn end(&mut self, why: Why, next: u32) -> Result<Fetched, QueryFault>
        ensures prints { PrintsEnd self.old.layout why next result (W.contents self.old.out.now)
            (W.contents self.new.out.now) }
        ensures more { TellsMore self.old.said_more result }
        ensures link { self.new.link.now ≡ self.old.link.now }
        ensures flaw { self.new.flaw ≡ self.old.flaw }
        ensures same_link { self.new.link.ghost_name ≡ self.old.link.ghost_name }
        ensures same_out { self.new.out.ghost_name ≡ self.old.out.ghost_name }
    {
        let said_more = if_caught_up(why, self.said_more);
        match self.layout {
            Form::Lines => end(&mut *self.text, why, next, said_more, &mut *self.out),
            Form::Csv => Ok(unsaid(why, next, said_more)),
            Form::Json => Ok(unsaid(why, next, said_more)),
        }
    }

    /// Prints what is left, and then the line of the end. If there is no memory for what is left,
    /// the end is that, and the next number the one that is told.
    pub(crate) fn finish(&mut self, why: Why, next: u32, told: u32) -> Result<Fetched, QueryFault>
        requires { self.old.is_refused ≡ false }
        ensures prints { PrintsLast self.old.layout (closing self.old.left.now.items why next told)
            result (W.contents self.old.out.now) (W.contents self.new.out.now) }
        ensures more { TellsMore self.old.said_more result }
        ensures link { self.new.link.now ≡ self.old.link.now }
        ensures flaw { self.new.flaw ≡ self.old.flaw }
        ensures same_link { self.new.link.ghost_name ≡ self.old.link.ghost_name }
        ensures same_out { self.new.out.ghost_name ≡ self.old.out.ghost_name }
    {
        match self.print_left() {
            Ok(()) => self.end(why, next),
            Err(QueryFault::Memory) => self.end(Why::Memory, told),
            Err(fault) => Err(fault),
        }
    }
}

impl<'a, P: Port, W: Write> LogLink for Ahead<'a, P, W> {
    ghost failures = { λ ahead. ahead.link.now.failures };

    ghost is_ours = { λ ahead id r M H. ⊥ };

    ghost lacks = { λ ahead id. ⊥ };

    ghost is_sure = { λ ahead path. ⊥ };

    ghost keeps = { λ a b. a ≡ b };

    // An ask over its link; what was left is printed beside it, and the answer is kept.
    ghost asks = { λ old octets answer new. port_asks P.sends P.receives old.link.now octets answer
        new.link.now × PrintsOn
        (pending old.layout old.is_refused old.left.now.items (W.contents old.out.now))
        (pending new.layout new.is_refused new.left.now.items (W.contents new.out.now))
        × (new.link.ghost_name ≡ old.link.ghost_name) × (new.out.ghost_name ≡ old.out.ghost_name)
        × (new.last ≡ result_ok answer) };

    fn ask(&mut self, request: &[u8]) -> Result<Datagram, Lost> {
        let sent = self.link.send(request);
        // What can't be printed now is told once the answer is here.
        let _ = self.print_left();
        let answer = match sent {
            Ok(()) => self.link.hear(request),
            Err(_) => Err(Lost),
        };
        self.last = copy_of(&answer);
        answer
    }

    ghost serves = { λ ahead id r M H h. absurd h };

    ghost tells_ours = { λ old new octets answer id r M H extent path invoke h is asked. absurd h };

    ghost keeps_itself = { λ ahead. refl };

    ghost keeps_on = { λ a b c h k. h ∙ k };
}

/// The datagram that came, if one did.
fn copy_of(answer: &Result<Datagram, Lost>) -> Option<Datagram>
    ensures { result ≡ result_ok answer.now }
{
    match answer {
        Ok(datagram) => Some(datagram.copy()),
        Err(_) => None,
    }
}

/// A sink that keeps the items of a reply. It wants no more if memory runs out.
#[derive(Drop)]
pub(crate) struct Reply {
    pub(crate) items: Vec<Item>,
}

impl Sink for Reply {
    ghost puts = { λ old gap item taken new.
        taken ≡ true → new.items.items ≡ old.items.items ++ (gap_items gap ++ item_of item ∷ []) };

    fn put(&mut self, gap: Option<Gap>, item: Numbered) -> bool {
        push_put(&mut self.items, gap, item)
    }
}

/// Appends a gap, if there is one, and the record after it; false if memory runs out.
fn push_put(items: &mut Vec<Item>, gap: Option<Gap>, item: Numbered) -> bool
    ensures { result ≡ true
        → items.new.items ≡ items.old.items ++ (gap_items gap ++ item_of item ∷ []) }
{
    if let Some(gap) = gap {
        let gap = Item::Gap {
            first: gap.first,
            before: gap.before,
        };
        if items.push(gap).is_err() {
            return false;
        }
    }
    let record = Item::Logged {
        number: item.number,
        entry: item.entry,
    };
    items.push(record).is_ok()
}
