//! How lines of the program are planned ahead, and how one that was planned is begun.
ghost use Rattle.std.specs.Prelude.{◌≡◌, ◌≤◌, Bool, ℤ, List, IfSome, Some, None};
ghost use Rattle.std.specs.Option.{option_map};
ghost use Rattle.ng_words.specs.declared.start.LineKind.TheVariants.{Blank};
ghost use Rattle.ng_layout.specs.Storable.{IsStorable};
ghost use Rattle.ng_session.specs.Planned.{IsPlannedOn, base_after, base_at_end, ends_after, ends_at_end};
ghost use Rattle.ng_session.specs.BareBlock.{block_on};

use crate::beginning::execute_after_lines;
use crate::current_block::CurrentBlock;
use crate::known_lines::KnownLines;
use crate::planned::Planned;
use crate::reply::Reply;
use crate::session::Session;
use ng_block::{ProgramFlow, Scratch};
use ng_canon::Geometry;
use ng_layout::{GREATEST_COUNT, Source, Stored};
use ng_words::LineKind;
use std::alloc::Allocator;

/// The line at the place of the state that will be stored, as it will be begun then. `None` if it is refused.
fn plan_line<A: Allocator + Copy + Drop>(
    places: &mut Scratch,
    base: &Stored<A>,
    first: LineKind,
    text: &[u8],
    next: u64,
    block_delete: bool,
    geometry: &Geometry,
) -> Option<Planned>
    requires storable { IsStorable base.now }
    requires within { next ≤ base.now.length }
    requires beginning { base.now.place ≡ 0 → first ≡ Blank }
    ensures planned { IfSome result (λ p.
        IsPlannedOn geometry.now (record { stored = base.now; block_delete = block_delete }) p) }
    ensures first { IfSome result (λ p. p.first ≡ first) }
    ensures text { IfSome result (λ p. p.block.text ≡ text.now) }
    ensures next { IfSome result (λ p. p.next ≡ next) }
{
    let effect = match execute_after_lines(places, base, first, text, block_delete, geometry) {
        Ok(effect) => effect,
        Err(_) => return None,
    };
    Some(Planned {
        place: base.place,
        first,
        next,
        block: CurrentBlock::begun(base, Source::Program, text, block_delete, next, effect),
    })
}

/// The place of the program once nothing is left of the current block and of the lines that were read ahead.
fn place_at_end<A: Allocator + Copy + Drop>(
    stored: &Stored<A>,
    current: &Option<CurrentBlock>,
    lines: &KnownLines<A>,
) -> u64
    ensures { (block_delete : Bool) → result ≡ (base_at_end (record {
      stored = base_after stored.now (option_map (block_on stored.now.setup.params) current.now);
      block_delete = block_delete;
    }) lines.now.ahead).stored.place }
{
    if let Some(planned) = lines.last() {
        return planned.place_after();
    }
    match current {
        Some(block) => block.place,
        None => stored.place,
    }
}

/// Whether the program ends by the last line that was read ahead or, if there is none, by the current block.
fn ends_at_end<A: Allocator + Copy + Drop>(
    current: &Option<CurrentBlock>,
    lines: &KnownLines<A>,
) -> bool
    ensures { (params : List ℤ) → result
        ≡ ends_at_end (ends_after (option_map (block_on params) current.now)) lines.now.ahead }
{
    if let Some(planned) = lines.last() {
        return planned.ends();
    }
    match current {
        Some(block) => block.stop == ProgramFlow::Ends,
        None => false,
    }
}

impl<A: Allocator + Copy + Drop> Session<A> {
    ghost use Rattle.std.specs.Prelude.{[], ℕ, true, MatchOption};
    ghost use Rattle.ng_text.specs.LinesBefore.{IsLineBetween};
    ghost use Rattle.ng_canon.specs.declared.geometry.Geometry.{Geometry};
    ghost use Rattle.ng_session.specs.Planned.{AreLinesOf, IsPlan, IsBegunAhead, base_of};

    /// The byte of the program at which the next line to be planned begins, given what is known of the lines. Nothing
    /// is planned past the program's end.
    pub fn place_ahead(&self, lines: &KnownLines<A>) -> Option<u64>
        requires { (geometry : Geometry) × IsPlan geometry (base_of self.now) lines.now.ahead lines.now.base }
        ensures place { IfSome result (λ place. place ≡ (base_at_end (base_of self.now) lines.now.ahead).stored.place) }
        ensures within { IfSome result (λ place. place ≤ self.now.stored.length) }
        ensures end { ends_at_end (ends_after self.now.current) lines.now.ahead ≡ true → result ≡ None }
    {
        if lines.is_done() || ends_at_end(&self.current, lines) {
            return None;
        }
        Some(place_at_end(&self.stored, &self.current, lines))
    }

    /// Plans the line at the place that `place_ahead` returned. The next one begins at `next`; `first` is the kind of
    /// the first line before it that isn't blank. Nothing is planned if the line is refused; no reply shows this. The
    /// session stays as it is. It doesn't allocate.
    pub fn plan(
        &mut self,
        lines: &mut KnownLines<A>,
        text: &[u8],
        next: u64,
        first: LineKind,
        geometry: &Geometry,
    )
        requires plan { IsPlan geometry.now (base_of self.old) lines.old.ahead lines.old.base }
        requires within { next ≤ self.old.stored.length }
        requires beginning { (base_at_end (base_of self.old) lines.old.ahead).stored.place ≡ 0 → first ≡ Blank }
        ensures session { self.new ≡ self.old }
        ensures before { lines.new.before ≡ lines.old.before }
        ensures plan { IsPlan geometry.now (base_of self.old) lines.new.ahead lines.new.base }
        ensures holds { (program : List ℕ) → AreLinesOf program lines.old.ahead
            → IsLineBetween program (base_at_end (base_of self.old) lines.old.ahead).stored.place first text.now next
            → AreLinesOf program lines.new.ahead }
    {
        lines.find_base(&self.stored, &self.current);
        if lines.base().entries > GREATEST_COUNT {
            return;
        }
        match plan_line(
            &mut self.places,
            lines.base(),
            first,
            text,
            next,
            self.block_delete,
            geometry,
        ) {
            Some(planned) => lines.push(planned),
            None => lines.end(),
        }
    }

    /// Begins the first line that was read ahead. `None` if there is none: then nothing is changed.
    pub fn begin_ahead(&mut self, lines: &mut KnownLines<A>) -> Option<Reply>
        requires plan { (geometry : Geometry) × IsPlan geometry (base_of self.old) lines.old.ahead lines.old.base }
        requires free { self.old.current ≡ None }
        ensures none { result ≡ None → (self.new ≡ self.old) × (lines.new ≡ lines.old) × (lines.new.ahead ≡ []) }
        ensures begun { (geometry : Geometry) → IsPlan geometry (base_of self.old) lines.old.ahead lines.old.base
            → IfSome result (λ reply. IsBegunAhead geometry reply self.old self.new lines.old lines.new) }
    {
        let planned = lines.take_front()?;
        self.current = Some(planned.block);
        Some(Reply::Begun)
    }
}
