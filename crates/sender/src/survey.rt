// One look over the rows of a location: whether they have a tree and fit, and the numbers that fix the default language.
ghost use Rattle.std.specs.Prelude.{◌≡◌, ℕ, suc, ◌+◌, ◌-◌, ◌^◌, ◌<◌, ◌≤◌, true, false, not, ◌&&◌, ◌||◌, length as long, get_or, ◌==◌, nat_lt, slice_index, slice_index_or};
ghost use Rattle.grammar.specs.Format.{layout, width};
ghost use Rattle.grammar.specs.Grammar.{Bytes};
ghost use Rattle.grammar.specs.Flat.{held_count};
ghost use Rattle.grammar.specs.Reading.{is_text, is_count};
ghost use Rattle.grammar.specs.Sending.{counts};
ghost use Rattle.location.specs.Answers.{head_text};
ghost use Rattle.sender.specs.Tested.{long_by, plain_by, stands_in, shut, blank_open, Opened};
ghost use Rattle.sender.specs.Surveyed.{Added, Found, Bounded, Highest, Chosen, Settled};

use crate::FRAME;
use crate::look::{LANGUAGE_PART, counted_parts, own_size};
use arrayvec::ArrayVec;
use fields::{fits_numbers, is_zero};
use grammar::{Layout, Spot, layout_of};
use location::{Location, Row, Step, steps_of};

// What one look over the rows finds.
#[derive(Drop)]
struct Survey {
    sums: Sums,
    tally: [u32; 256], // how many texts are in each language
}

// The numbers so far, but for the languages' own.
#[derive(Clone, Copy)]
struct Sums {
    base: usize, // the bytes of all components, without any language part
    texts: usize, // how many texts there are
    must: Option<u8>, // the language of the texts that have no room for a language part
}

// A holder that is open: where its parts stand, and inside how many nodes. By default there is none, as at the free places of a vector.
#[derive(Clone, Copy, Default)]
struct Open {
    spot: Spot,
    nodes: u8,
}

// The most holders that are open at once.
const MOST_OPEN: usize = 17;

// The most bytes of a container.
const LONGEST: usize = 65535;

// What a component's length stays below.
fn limit(spot: Spot) -> usize
    ensures { result ≡ 256 ^ width spot }
{
    1 << (8 * spot.width())
}

// A text, with so many bytes more in its component, is too long for the component's length.
fn is_long(line: Layout, row: Row, more: usize) -> bool
    requires line { line ≡ layout row.kind }
    requires few { more ≤ 4 }
    ensures { result ≡ long_by row more }
{
    line.is_text() && limit(line.holder) <= usize::from(row.length) + more
}

// The row tells only what one of its kind tells.
fn is_plain(line: Layout, row: Row) -> bool
    requires { line ≡ layout row.kind }
    ensures { result ≡ plain_by row }
{
    if line.is_text() {
        is_zero(row.a) && is_zero(row.b)
    } else {
        fits_numbers(line.fields, row.a, row.b) && row.language == 0 && row.length == 0
    }
}

// The row may stand in the holder, if it has not too many parts.
fn stands_within(holder: Open, line: Layout, row: Row, few: bool) -> bool
    requires { line ≡ layout row.kind }
    ensures { result ≡ stands_in holder row few }
{
    holder.spot.is_kind(line.id, row.kind)
        && is_plain(line, row)
        && line.inside.deeper(holder.nodes) <= 8
        && few
}

// The row may stand at its depth, where these holders are open.
fn stands_at(holders: &ArrayVec<Open, MOST_OPEN>, line: Layout, row: Row, few: bool) -> bool
    requires { line ≡ layout row.kind }
    ensures { result ≡ (nat_lt row.depth (long holders.now.items) && stands_in (slice_index_or holders.now.items row.depth blank_open) row few) }
{
    holders
        .get(usize::from(row.depth))
        .is_some_and(|holder| stands_within(*holder, line, row, few))
}

// Leaves the holders that a row is not in, and opens the row itself if parts may follow.
fn open_row(holders: &mut ArrayVec<Open, MOST_OPEN>, line: Layout, row: Row)
    requires line { line ≡ layout row.kind }
    requires within { row.depth < long holders.old.items }
    requires eight { (get_or holders.old.items row.depth blank_open).nodes ≤ 8 }
    requires room { shut row ≡ false → suc row.depth < 17 }
    ensures { Opened (shut row) holders.old.items row holders.new.items }
{
    let at = usize::from(row.depth);
    let spot = line.inside;
    holders.truncate(at + 1);
    if !line.is_text() && !spot.is_closed() {
        let nodes = spot.deeper(holders[at].nodes) as u8;
        holders.push(Open { spot, nodes });
    }
}

// Fewer than 256 parts stand right in the row, where they are counted.
fn few_parts<L: Location>(l: &L, line: Layout, step: &Step<L::Mark>) -> bool
    requires { line ≡ layout step.now.row.kind }
    ensures { result ≡ (not (is_count (layout step.now.row.kind).fields) || nat_lt (held_count step.now.row.depth (L.rows l.now step.now.rest)) 256) }
{
    counted_parts(l, line, step).is_some()
}

// The text there is bytes: it can be copied.
fn read_text<L: Location>(l: &L, m: L::Mark, line: Layout, row: Row)
    requires line { line ≡ layout row.kind }
    requires length { row.length ≡ long (head_text (L.rows l.now m)) }
    ensures { is_text (layout row.kind).fields ≡ true → Bytes (head_text (L.rows l.now m)) }
{
    if line.is_text() {
        let mut copied = [0u8; 255];
        l.copy_text(m, &mut copied);
    }
}

impl Sums {
    // The sums with one more row, if some default can still serve.
    fn with(self, line: Layout, row: Row) -> Option<Sums>
        requires line { line ≡ layout row.kind }
        requires few { (self.base ≤ 65531) × (self.texts ≤ self.base) }
        ensures { Added self row result }
    {
        // the byte of its length is there in any case
        if is_long(line, row, 1) {
            return None;
        }
        let tight = is_long(line, row, 1 + LANGUAGE_PART);
        if tight && !self.must.is_none_or(|m| m == row.language) {
            return None;
        }
        let base = self.base + own_size(line, row, row.language);
        if base > LONGEST - FRAME {
            return None;
        }
        let texts = self.texts + usize::from(line.is_text());
        let must = if tight { Some(row.language) } else { self.must };
        Some(Sums { base, texts, must })
    }
}

// Counts a text in its language.
fn count_text(tally: &mut [u32], line: Layout, row: Row)
    requires line { line ≡ layout row.kind }
    requires all { long tally.old ≡ 256 }
    requires room { slice_index tally.old row.language < 65536 }
    ensures { (k : ℕ) → slice_index tally.new k ≡ counts (is_text (layout row.kind).fields) (row.language == k) (slice_index tally.old k) }
{
    if line.is_text() {
        tally[usize::from(row.language)] += 1;
    }
}

// Looks at every row once; nothing where the rows can be sent under no default.
fn take_survey<L: Location>(l: &L) -> Option<Survey>
    ensures { Found (L.whole l.now) result }
{
    let mut holders = ArrayVec::<Open, MOST_OPEN>::new();
    holders.push(Open {
        spot: Spot::Descriptions,
        nodes: 0,
    });
    let mut sums = Sums {
        base: 0,
        texts: 0,
        must: None,
    };
    let mut tally = [0u32; 256];
    for step in steps_of(l) {
        let row = step.row;
        let line = layout_of(row.kind);
        let few = few_parts(l, line, &step);
        if !stands_at(&holders, line, row, few) {
            return None;
        }
        read_text(l, step.mark, line, row);
        sums = sums.with(line, row)?;
        open_row(&mut holders, line, row);
        count_text(&mut tally, line, row);
    }
    Some(Survey { sums, tally })
}

// The language with most texts, the lowest among equals.
fn favourite(tally: &[u32]) -> u8
    requires { long tally.now ≡ 256 }
    ensures { Highest tally.now 256 result }
{
    let most = tally.iter().copied().max().unwrap_or(0);
    tally.iter().position(|n| *n == most).unwrap_or(0) as u8
}

// The length of the container and its default language, if one serves.
fn choose(s: &Survey) -> Option<(usize, u8)>
    requires { Bounded s.now }
    ensures { Chosen s.now result }
{
    let language = s.sums.must.unwrap_or_else(|| favourite(&s.tally));
    let frame = if s.sums.base > 0 { FRAME } else { 1 };
    let said = s.sums.texts - s.tally[usize::from(language)] as usize;
    let size = frame + s.sums.base + LANGUAGE_PART * said;
    (size <= LONGEST).then_some((size, language))
}

// The length and the default language of the container that stands for a location, if there is one.
pub(crate) fn settle<L: Location>(l: &L) -> Option<(usize, u8)>
    ensures { Settled (L.whole l.now) result }
{
    choose(&take_survey(l)?)
}
