// The kinds of the rows that are open on a draft.
ghost use Rattle.std.specs.Prelude.{◌≡◌, ◌<◌, [], ◌∷◌, length as long, IfSome, IfNone, nat_lt};
ghost use Rattle.grammar.specs.Format.{layout};
ghost use Rattle.grammar.specs.Grammar.{deeper};
ghost use Rattle.grammar.specs.Sheet.{innermost, nodes_open, may_stand};
ghost use Rattle.sheet.specs.Open.{kinds_open};

use arrayvec::ArrayVec;
use grammar::{Spot, layout_of};

// The most rows that are open at once: eight nodes, and inside each one row more.
const MOST_OPEN: usize = 16;

// The kinds, the outermost first.
#[derive(Drop)]
pub(crate) struct Opened {
    kinds: ArrayVec<u8, MOST_OPEN>,
}

impl Opened {
    pub(crate) fn none() -> Opened
        ensures { kinds_open result ≡ [] }
    {
        Opened {
            kinds: ArrayVec::new(),
        }
    }

    // How many rows are open.
    pub(crate) fn count(&self) -> u8
        ensures { result ≡ long (kinds_open self.now) }
    {
        self.kinds.len() as u8
    }

    // Where the next row would stand.
    fn spot(&self) -> Spot
        ensures { result ≡ innermost (kinds_open self.now) }
    {
        self.kinds
            .as_slice()
            .last()
            .map_or(Spot::Descriptions, |kind| layout_of(*kind).inside)
    }

    // How many of the rows are nodes.
    fn nodes(&self) -> u8
        ensures { result ≡ nodes_open (kinds_open self.now) }
    {
        let mut nodes: u8 = 0;
        let kinds = self.kinds.as_slice();
        for kind in kinds {
            nodes = layout_of(*kind).inside.deeper(nodes) as u8;
        }
        nodes
    }

    // A row of a kind may stand in the innermost row.
    pub(crate) fn may_hold(&self, kind: u8) -> bool
        ensures { result ≡ may_stand (kinds_open self.now) kind }
    {
        self.spot().is_kind(layout_of(kind).id, kind)
    }

    // A row of a kind would be a ninth node inside eight.
    pub(crate) fn is_ninth(&self, kind: u8) -> bool
        ensures { result ≡ nat_lt 8 (deeper (layout kind).inside (nodes_open (kinds_open self.now))) }
    {
        layout_of(kind).inside.deeper(self.nodes()) > 8
    }

    // One row more is open, inside the others.
    pub(crate) fn push(&mut self, kind: u8)
        requires { long (kinds_open self.old) < 16 }
        ensures { kinds_open self.new ≡ kind ∷ kinds_open self.old }
    {
        self.kinds.push(kind);
    }

    // The innermost row is open no more; gives its kind.
    pub(crate) fn pop(&mut self) -> Option<u8>
        ensures some { IfSome result (λ kind. kinds_open self.old ≡ kind ∷ kinds_open self.new) }
        ensures none { IfNone result ((kinds_open self.old ≡ []) × (self.new ≡ self.old)) }
    {
        self.kinds.pop()
    }

    // No row is open any more.
    pub(crate) fn clear(&mut self)
        ensures { kinds_open self.new ≡ [] }
    {
        self.kinds.clear();
    }
}
