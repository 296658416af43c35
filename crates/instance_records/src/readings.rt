//! What instances have read, each by reference to what the instances below it have.
ghost use Rattle.std.specs.Prelude.{◌≡◌, ◌≤◌, ◌++◌, ◌∷◌, [], IfOk, IfSome, OnOk, List, ℕ, ℤ, length, map, not, true, false};
ghost use Rattle.std.specs.List.{flat_map};
ghost use Rattle.meaning.specs.Every.{every};
ghost use Rattle.evaluation.specs.declared.note.Note.{Note as PlainNote};
ghost use Rattle.evaluation.specs.declared.note.Note.TheVariants.{Cell, Sum};
ghost use Rattle.evaluation.specs.Short.{note_of};
ghost use Rattle.instance_records.specs.declared.spans.Span.{Span as PlainSpan};
ghost use Rattle.instance_records.specs.Spans.{is_covered_by};
ghost use Rattle.std.specs.Arc.{arc_value};
ghost use Rattle.instance_records.specs.Full.{HasCells, IsFullNode};
ghost use Rattle.instance_records.specs.Readings.{all_of, node_notes, shared_notes, is_covered, is_covered_share};
ghost use Rattle.instance_records.specs.ShortLists.{items_in};
ghost use Rattle.record_theory.specs.Validity.{note_agrees};
ghost use Rattle.record_theory.specs.InStep.{is_apart};
ghost use Rattle.record_theory.specs.Counts.{how_many};
ghost use Rattle.record_theory.specs.Same.{is_read, same_note};

use crate::below::{make_below, put_node};
use crate::few_spans::FewSpans;
use crate::full::Full;
use crate::narrowing::{how_many, how_many_own, lowest, touched_own};
use crate::own::{has_own, is_cell};
use crate::pairs::{are_nothing, are_of_rows, are_pairs, is_of_row, with_pairs};
use crate::short_list::ShortList;
use crate::spans::{Span, cover_all, first_row, may_have, put_one, put_pair};
use crate::touching::{
    are_own_touched, are_sums, has_line, may_have_sums, node_first_row, node_has_row,
    node_is_touched, node_lies_in,
};
use crate::walks::{node_agrees, put_notes, put_own};
use crate::ways::{HERE, own_by, way_to};
use evaluation::note::Note;
use evaluation::reading::Reading;
use input_tables::Tables;
use record_theory::agreement::reads_agree;
use std::alloc::{AllocError, Global};
use std::marker::Model;
use std::slice;
use std::sync::Arc;

/// So many own readings at most are looked through one by one. More of them lie below by themselves, to be passed over by their rows.
const FEW: usize = 4;

/// What an instance has read of its own, and what those below it have. Most have none below, so that lies by itself.
#[cycle(parts)]
#[derive(Drop)]
pub(crate) struct Node {
    pub(crate) own: ShortList<Reading>,
    pub(crate) below: Option<Box<Below>>,
}

/// The parts, which are some, the row from which on the last one alone has read, spans of rows that hold all that they and those below
/// them have read, and rows of which they have read the cells.
#[cycle(parts)]
#[derive(Drop)]
pub(crate) struct Below {
    pub(crate) parts: ShortList<Arc<Node>>,
    pub(crate) last_from: i64,
    pub(crate) spans: FewSpans,
    pub(crate) full: Full,
}

/// Up to two readings with none below them, which take no memory of their own, or a node.
#[derive(Drop)]
pub(crate) enum Held {
    Nothing,
    One(Reading),
    Two([Reading; 2]),
    Shared(Arc<Node>),
}

/// What an instance and those below it have read: its own readings, and those of instances below it by reference, so that none of
/// these is copied.
#[derive(Drop)]
pub struct Readings {
    held: Held,
}

impl Model for Readings {
    ghost use Rattle.std.specs.Prelude.{◌≡◌, true, List};
    ghost use Rattle.evaluation.specs.declared.note.Note.{Note};
    ghost use Rattle.instance_records.specs.Full.{IsFullIn};
    ghost use Rattle.instance_records.specs.Readings.{notes_in, is_covered_in};

    ghost Value = { List Note };

    ghost view = { λ r. notes_in r.held };

    ghost invariant = { λ r. (is_covered_in r.held ≡ true) × IsFullIn r.held };
}

impl Readings {
    /// An instance's own readings, then those of the parts. Nothing keeps spare room.
    pub fn new(
        alloc: Global,
        own: ShortList<Reading>,
        parts: Vec<Readings>,
    ) -> Result<Readings, AllocError>
        ensures made { IfOk result (λ r. r ≡ map note_of (items_in own) ++ all_of parts.items) }
    {
        if are_nothing(&parts) {
            return Readings::of_own(alloc, own);
        }
        if are_pairs(&parts) {
            return Readings::of_pairs(alloc, own, parts);
        }
        Readings::of_list(alloc, own, parts)
    }

    /// No readings. It takes no memory.
    #[inline(always)]
    pub fn nothing() -> Readings
        ensures none { result ≡ [] }
    {
        Readings {
            held: Held::Nothing,
        }
    }

    /// One reading of an instance that has none below it. It takes no memory.
    #[inline(always)]
    pub fn of_one(reading: Reading) -> Readings
        ensures same { result ≡ note_of reading ∷ [] }
    {
        Readings {
            held: Held::One(reading),
        }
    }

    /// Two readings of an instance that has none below it. It takes no memory.
    #[inline(always)]
    pub fn of_two(pair: [Reading; 2]) -> Readings
        ensures same { result ≡ map note_of pair }
    {
        Readings {
            held: Held::Two(pair),
        }
    }

    // An instance's own readings, then those of parts that are of two each, all in one list: a node for each part takes more memory.
    #[inline(never)]
    fn of_pairs(
        alloc: Global,
        own: ShortList<Reading>,
        parts: Vec<Readings>,
    ) -> Result<Readings, AllocError>
        ensures made { IfOk result (λ r. r ≡ map note_of (items_in own) ++ all_of parts.items) }
    {
        let all = with_pairs(alloc, own.as_slice(), &parts)?;
        Readings::of_list(alloc, ShortList::new(all), Vec::new(alloc))
    }

    // The readings of an instance that has none below it.
    fn of_own(alloc: Global, own: ShortList<Reading>) -> Result<Readings, AllocError>
        ensures made { IfOk result (λ r. r ≡ map note_of (items_in own)) }
    {
        match own {
            ShortList::One(reading) => Ok(Readings::of_one(reading)),
            ShortList::Two(pair) => Ok(Readings::of_two(pair)),
            ShortList::Several(items) => Readings::of_several(alloc, items),
        }
    }

    // As many readings as there are, of an instance that has none below it.
    fn of_several(alloc: Global, items: Vec<Reading>) -> Result<Readings, AllocError>
        ensures made { IfOk result (λ r. r ≡ map note_of items.items) }
    {
        if items.is_empty() {
            return Ok(Readings::nothing());
        }
        Readings::of_list(alloc, ShortList::new(items), Vec::new(alloc))
    }

    /// Whether nothing was read, so that no memory is taken.
    #[inline(always)]
    pub(crate) fn is_nothing(&self) -> bool
        ensures none { result ≡ true → self.now ≡ [] }
    {
        match &self.held {
            Held::Nothing => true,
            _ => false,
        }
    }

    /// Whether these are no more than two readings, which lie by themselves.
    #[inline(always)]
    pub fn is_pair(&self) -> bool {
        match &self.held {
            Held::Nothing | Held::One(_) | Held::Two(_) => true,
            Held::Shared(_) => false,
        }
    }

    /// Puts copies of these readings, two at most, behind others; refused where they lie in a node.
    #[inline(always)]
    pub(crate) fn put_pair(&self, all: &mut Vec<Reading>) -> Result<(), AllocError>
        ensures put { OnOk result (map note_of all.new.items ≡ map note_of all.old.items ++ self.now) }
    {
        match &self.held {
            Held::Nothing => Ok(()),
            Held::One(reading) => all.extend_from_slice(slice::from_ref(reading)),
            Held::Two(pair) => all.extend_from_slice(pair),
            Held::Shared(_) => Err(AllocError),
        }
    }

    // As many readings as there are, then those of the parts.
    fn of_list(
        alloc: Global,
        mut own: ShortList<Reading>,
        parts: Vec<Readings>,
    ) -> Result<Readings, AllocError>
        ensures made { IfOk result (λ r. r ≡ map note_of (items_in own) ++ all_of parts.items) }
    {
        own.shrink_to_fit();
        if own.as_slice().len() > FEW {
            return Readings::of_many(alloc, own, parts);
        }
        Readings::of(alloc, own, parts)
    }

    // Many own readings as the first of the parts, whose rows the spans hold.
    #[inline(never)]
    fn of_many(
        alloc: Global,
        own: ShortList<Reading>,
        mut parts: Vec<Readings>,
    ) -> Result<Readings, AllocError>
        ensures made { IfOk result (λ r. r ≡ map note_of (items_in own) ++ all_of parts.items) }
    {
        let first = Readings::of(alloc, own, Vec::new(alloc))?;
        parts.reserve_exact(1)?;
        parts.insert(0, first)?;
        Readings::of(alloc, ShortList::new(Vec::new(alloc)), parts)
    }

    // These as a node's own readings, with the parts below it.
    #[inline(always)]
    fn of(
        alloc: Global,
        own: ShortList<Reading>,
        parts: Vec<Readings>,
    ) -> Result<Readings, AllocError>
        ensures made { IfOk result (λ r. r ≡ map note_of (items_in own) ++ all_of parts.items) }
    {
        let node = Node {
            own,
            below: make_below(alloc, parts)?,
        };
        Ok(Readings {
            held: Held::Shared(Arc::new(alloc, node)?),
        })
    }

    /// A second owner of these readings, of which no more than two are copied.
    #[inline(always)]
    pub fn share(&self) -> Result<Readings, AllocError>
        ensures same { IfOk result (λ r. r ≡ self.now) }
    {
        match &self.held {
            Held::Nothing => Ok(Readings::nothing()),
            Held::One(reading) => Ok(Readings::of_one(*reading)),
            Held::Two(pair) => Ok(Readings::of_two(*pair)),
            Held::Shared(node) => Ok(Readings {
                held: Held::Shared(Arc::try_clone(node)?),
            }),
        }
    }

    /// The node of these readings, which is made of two.
    pub(crate) fn into_node(self, alloc: Global) -> Result<Arc<Node>, AllocError>
        ensures notes { IfOk result (λ n. shared_notes n ≡ self) }
        ensures covered { IfOk result (λ n. is_covered_share n ≡ true) }
        ensures full { IfOk result (λ n. IsFullNode (arc_value n)) }
    {
        match self.held {
            Held::Nothing => {
                let own = ShortList::new(Vec::new(alloc));
                Ok(Arc::new(alloc, Node { own, below: None })?)
            }
            Held::One(reading) => {
                let own = ShortList::One(reading);
                Ok(Arc::new(alloc, Node { own, below: None })?)
            }
            Held::Two(pair) => {
                let own = ShortList::Two(pair);
                Ok(Arc::new(alloc, Node { own, below: None })?)
            }
            Held::Shared(node) => Ok(node),
        }
    }

    /// Whether the tables hold what was read. It takes no memory.
    pub fn agree(&self, tables: &Tables) -> bool
        ensures agree { result ≡ every (note_agrees tables.now.tables) self.now }
    {
        match &self.held {
            Held::Nothing => true,
            Held::One(reading) => reads_agree(slice::from_ref(reading), tables),
            Held::Two(pair) => reads_agree(pair, tables),
            Held::Shared(node) => node_agrees(node, tables),
        }
    }

    /// Whether one of these changes, each given by its table's number and the row, may have changed what was read, by its own
    /// readings and the spans of the others.
    #[inline(always)]
    pub fn are_touched(&self, changes: &[(usize, i64)]) -> bool
        ensures apart { result ≡ false → every (is_apart changes.now) self.now ≡ true }
    {
        match &self.held {
            Held::Nothing => false,
            Held::One(reading) => are_own_touched(slice::from_ref(reading), changes),
            Held::Two(pair) => are_own_touched(pair, changes),
            Held::Shared(node) => node_is_touched(node, changes),
        }
    }

    /// Whether that was read. It takes no memory, and passes over parts that read none of its rows.
    pub fn has(&self, note: &Note) -> bool
        ensures has { result ≡ is_read self.now note.now }
    {
        match &self.held {
            Held::Nothing => false,
            Held::One(reading) => has_own(slice::from_ref(reading), note),
            Held::Two(pair) => has_own(pair, note),
            Held::Shared(node) => node_has(node, note),
        }
    }

    /// How many of these readings and how many of those were read, all of which rest on the change. It takes no memory, and looks for
    /// them in the lowest instance that has read all that the change may have changed.
    pub fn how_many(&self, change: &(usize, i64), lost: &[Note], won: &[Note]) -> (u64, u64)
        requires rest { every (λ n. not (is_apart (change.now ∷ []) n)) (lost.now ++ won.now) ≡ true }
        ensures lost { result.0 ≡ how_many same_note lost.now self.now }
        ensures won { result.1 ≡ how_many same_note won.now self.now }
        ensures few { result.0 ≤ length lost.now }
    {
        match &self.held {
            Held::Nothing => (how_many_own(&[], lost), how_many_own(&[], won)),
            Held::One(reading) => {
                let own = slice::from_ref(reading);
                (how_many_own(own, lost), how_many_own(own, won))
            }
            Held::Two(pair) => (how_many_own(pair, lost), how_many_own(pair, won)),
            Held::Shared(node) => how_many(lowest(node, change), change, lost, won),
        }
    }

    /// The readings from the first to the last that rests on the change, of the lowest instance that has read all that the change may have
    /// changed; none, where instances below that one have read some of it. It takes no memory.
    pub fn touched(&self, change: &(usize, i64)) -> Option<&[Reading]>
        ensures same { IfSome result (λ own. (note : PlainNote) → is_apart (change.now ∷ []) note ≡ false
            → is_read (map note_of own.now) note ≡ is_read self.now note) }
    {
        match &self.held {
            Held::Nothing => Some(&[]),
            Held::One(reading) => Some(slice::from_ref(reading)),
            Held::Two(pair) => Some(pair),
            Held::Shared(node) => touched_own(lowest(node, change), change),
        }
    }

    /// The turns from there down to readings of one instance's own that may rest on the change, as `own_by` takes them.
    pub fn way_to(&self, change: &(usize, i64)) -> u64 {
        match &self.held {
            Held::Nothing | Held::One(_) | Held::Two(_) => HERE,
            Held::Shared(node) => way_to(node, change),
        }
    }

    /// The own readings of the instance to which these turns lead, as far as they do.
    #[inline(always)]
    pub fn own_by(&self, turns: u64) -> &[Reading]
        ensures read { (note : PlainNote)
            → is_read (map note_of result.now) note ≡ true → is_read self.now note ≡ true }
    {
        match &self.held {
            Held::Nothing => &[],
            Held::One(reading) => slice::from_ref(reading),
            Held::Two(pair) => pair,
            Held::Shared(node) => own_by(node, turns),
        }
    }

    /// Whether a sum may have been read, by its own readings and the spans of the others.
    #[inline(always)]
    pub fn may_have_sums(&self) -> bool
        ensures none { result ≡ false → (table column : ℕ) (value : ℤ)
            → is_read self.now (Sum table column value) ≡ false }
    {
        match &self.held {
            Held::Nothing => false,
            Held::One(reading) => are_sums(slice::from_ref(reading)),
            Held::Two(pair) => are_sums(pair),
            Held::Shared(node) => may_have_sums(node),
        }
    }

    /// Whether of the changed row all cells of the columns from one up to another were read, as far as that was noted when this was put
    /// together.
    #[inline(always)]
    pub fn have_line(&self, change: &(usize, i64), first: usize, end: usize) -> bool
        ensures have { result ≡ true → HasCells self.now change.now.0 change.now.1 first end }
    {
        match &self.held {
            Held::Nothing | Held::One(_) | Held::Two(_) => false,
            Held::Shared(node) => has_line(node, change, first, end),
        }
    }

    /// Whether the rows of all that was read lie in these spans.
    pub(crate) fn lie_in(&self, spans: &[Span]) -> bool
        ensures lie { result ≡ true → every (is_covered_by spans.now) self.now ≡ true }
    {
        match &self.held {
            Held::Nothing => true,
            Held::One(reading) => cover_all(spans, slice::from_ref(reading)),
            Held::Two(pair) => cover_all(spans, pair),
            Held::Shared(node) => node_lies_in(node, spans),
        }
    }

    /// Whether these were read, one by one, of the rows of which the others were; asked of no more than two that lie by themselves.
    #[inline(always)]
    pub fn have_rows_of(&self, others: &Readings) -> bool
        ensures have { result ≡ true → (h : List PlainSpan) → every (is_covered_by h) others.now ≡ true
            → every (is_covered_by h) self.now ≡ true }
    {
        match &self.held {
            Held::Nothing => true,
            Held::One(reading) => match &others.held {
                Held::One(other) => is_of_row(reading, other),
                _ => false,
            },
            Held::Two(pair) => match &others.held {
                Held::Two(other) => are_of_rows(pair, other),
                _ => false,
            },
            Held::Shared(_) => false,
        }
    }

    /// Whether what instances below have read has the row with which the other begins.
    pub fn reach(&self, other: &Readings) -> bool {
        match &self.held {
            Held::Nothing | Held::One(_) | Held::Two(_) => false,
            Held::Shared(node) => node_has_row(node, other.first_row()),
        }
    }

    // A row that was read, by the number of its table and its own; none where all of a table's were.
    fn first_row(&self) -> Option<(usize, i64)> {
        match &self.held {
            Held::Nothing => None,
            Held::One(reading) => first_row(slice::from_ref(reading), &[]),
            Held::Two(pair) => first_row(pair, &[]),
            Held::Shared(node) => node_first_row(node),
        }
    }

    /// Joins spans with the rows of what was read.
    pub(crate) fn put_rows(&self, spans: &mut Vec<Span>) -> Result<(), AllocError>
        ensures kept { OnOk result ((note : PlainNote) → is_covered_by spans.old.items note ≡ true
            → is_covered_by spans.new.items note ≡ true) }
        ensures put { OnOk result (every (is_covered_by spans.new.items) self.now ≡ true) }
    {
        match &self.held {
            Held::Nothing => Ok(()),
            Held::One(reading) => put_one(reading, spans),
            Held::Two(pair) => put_pair(pair, spans),
            Held::Shared(node) => put_node(node, spans),
        }
    }

    /// Copies of all of them, in order: for who looks at a record from outside.
    pub fn notes(&self, alloc: Global) -> Result<Vec<Note>, AllocError>
        ensures notes { IfOk result (λ ns. ns.items ≡ self.now) }
    {
        let mut notes = Vec::new(alloc);
        match &self.held {
            Held::Nothing => {}
            Held::One(reading) => put_own(slice::from_ref(reading), &mut notes)?,
            Held::Two(pair) => put_own(pair, &mut notes)?,
            Held::Shared(node) => put_notes(node, &mut notes)?,
        }
        Ok(notes)
    }
}

/// Whether that was read there or below. Where its rows lie in no span, the parts aren't asked.
#[cycle(having)]
pub(crate) fn node_has(node: &Node, note: &Note) -> bool
    requires covered { is_covered node.now ≡ true }
    ensures has { result ≡ is_read (node_notes node.now) note.now }
{
    if has_own(node.own.as_slice(), note) {
        return true;
    }
    match &node.below {
        Some(below) => {
            if may_have(below.spans.as_slice(), note) {
                parts_have(below.parts.as_slice(), note)
            } else {
                false
            }
        }
        None => false,
    }
}

#[cycle(having)]
fn parts_have(parts: &[Arc<Node>], note: &Note) -> bool
    requires covered { every is_covered_share parts.now ≡ true }
    ensures have { result ≡ is_read (flat_map shared_notes parts.now) note.now }
{
    for part in parts {
        if node_has(part, note) {
            return true;
        }
    }
    false
}

/// Whether these readings are those, one by one.
pub fn are_same(own: &[Reading], others: &[Reading]) -> bool
    ensures same { result ≡ true → map note_of own.now ≡ map note_of others.now }
{
    if own.len() != others.len() {
        return false;
    }
    for place in 0..own.len() {
        if !is_like(&own[place], &others[place]) {
            return false;
        }
    }
    true
}

// Whether two readings are the same. Most are of cells, and no notes are made of these.
#[inline(always)]
fn is_like(reading: &Reading, other: &Reading) -> bool
    ensures like { result ≡ same_note (note_of reading.now) (note_of other.now) }
{
    match reading {
        Reading::Cell {
            column,
            table,
            row,
            value,
        } => is_cell(
            other,
            usize::from(*table),
            i64::from(*row),
            usize::from(*column),
            *value,
        ),
        _ => is_same(&reading.note(), &other.note()),
    }
}

// Whether two notes are the same.
#[tactic(auto, using(record_theory::proofs::Same::derived_same))]
pub(crate) fn is_same(note: &Note, other: &Note) -> bool
    ensures same { result ≡ same_note note.now other.now }
{
    *note == *other
}
