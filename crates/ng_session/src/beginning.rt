//! How a line is begun: by the operator, or by the program.
ghost use Rattle.std.specs.Prelude.{◌≡◌, ◌≤◌, ℕ, List, Some, Ok, Err, IfOk, OnOk, MatchResult, length};
ghost use Rattle.ng_text.specs.Percent.{first_kind};
ghost use Rattle.ng_block.specs.Effects.{in_state};
ghost use Rattle.ng_block.specs.Program.{executed_after};
ghost use Rattle.ng_layout.specs.declared.half.Source.TheVariants as source;
ghost use Rattle.ng_text.specs.Programs.{lines_before};
ghost use Rattle.ng_layout.specs.Limits.{greatest_slot};
ghost use Rattle.ng_layout.specs.Storable.{IsStorableModalState};
ghost use Rattle.ng_session.specs.Entries.{done_of, terms_of};

use crate::activity::Activity;
use crate::current_block::CurrentBlock;
use crate::reply::Reply;
use crate::session::Session;
use ng_block::{Effect, Scratch, Terms};
use ng_canon::Geometry;
use ng_layout::{Source, Stored};
use ng_num::Fault;
use ng_text::missing_end;
use ng_words::LineKind;
use std::alloc::Allocator;

/// What a line is run with over what is stored, with lines deleted or not.
pub(crate) fn terms_over<'a, A: Allocator + Copy + Drop>(
    stored: &'a Stored<A>,
    block_delete: bool,
    geometry: &'a Geometry,
) -> Terms<'a>
    ensures terms { result ≡ terms_of geometry.now stored.now.tools block_delete }
    ensures few { length result.tools ≤ greatest_slot }
{
    // Called for its contract: a table has at most 128 slots, and no more are stored.
    let _ = stored.tools.slots();
    Terms {
        block_delete,
        tools: &stored.tools,
        geometry,
    }
}

/// What a line of the operator does, executed in the scratch space, or its first fault.
#[tactic(auto, unfolding(crate::specs::Entries::done_of))]
fn execute_alone<'p, A: Allocator + Copy + Drop>(
    places: &'p mut Scratch,
    stored: &Stored<A>,
    text: &[u8],
    block_delete: bool,
    geometry: &Geometry,
) -> Result<&'p Effect, Fault>
    ensures done { (program : List ℕ) → MatchResult result
        (λ e. done_of geometry.now program stored.now source.Mdi text.now block_delete
        ≡ Ok (in_state stored.now.setup e.now))
        (λ fault. done_of geometry.now program stored.now source.Mdi text.now block_delete ≡ Err fault) }
    ensures short { OnOk result (length text.now ≤ 256) }
    ensures stands { IfOk result (λ e. IsStorableModalState stored.now.setup.modal → IsStorableModalState e.now.modal) }
{
    let terms = terms_over(stored, block_delete, geometry);
    match places.execute_unless_deleted(&terms, &stored.state, text) {
        Ok(effect) => Ok(effect),
        Err(fault) => Err(fault),
    }
}

/// What a line of the program does, executed in the scratch space, or its first fault. `first` is the kind of the first
/// line before it that isn't blank.
#[tactic(auto, unfolding(crate::specs::Entries::done_of))]
pub(crate) fn execute_after_lines<'p, A: Allocator + Copy + Drop>(
    places: &'p mut Scratch,
    stored: &Stored<A>,
    first: LineKind,
    text: &[u8],
    block_delete: bool,
    geometry: &Geometry,
) -> Result<&'p Effect, Fault>
    ensures does { MatchResult result
        (λ e. executed_after (terms_of geometry.now stored.now.tools block_delete)
        first stored.now.setup text.now ≡ Ok (in_state stored.now.setup e.now))
        (λ fault. executed_after (terms_of geometry.now stored.now.tools block_delete)
        first stored.now.setup text.now ≡ Err fault) }
    ensures done { (program : List ℕ) → first ≡ first_kind (lines_before program stored.now.place) → MatchResult result
        (λ e. done_of geometry.now program stored.now source.Program text.now block_delete
        ≡ Ok (in_state stored.now.setup e.now))
        (λ fault. done_of geometry.now program stored.now source.Program text.now block_delete ≡ Err fault) }
    ensures short { OnOk result (length text.now ≤ 256) }
    ensures stands { IfOk result (λ e. IsStorableModalState stored.now.setup.modal → IsStorableModalState e.now.modal) }
{
    let terms = terms_over(stored, block_delete, geometry);
    match places.execute_after(&terms, first, &stored.state, text) {
        Ok(effect) => Ok(effect),
        Err(fault) => Err(fault),
    }
}

impl<A: Allocator + Copy + Drop> Session<A> {
    ghost use Rattle.ng_session.specs.Operator.{mdi};
    ghost use Rattle.ng_session.specs.Ticking.{begin, break_off};

    /// Begins a line of the operator. If the session was held, the hold ends, and a program that ran waits. K1 if a
    /// block is current or half-done, or if the program runs and isn't held; K3 if the machine's point isn't known;
    /// then the line's own faults. In all these cases nothing is changed. It doesn't allocate.
    #[tactic(auto, using(crate::proofs::SessionInvariantLemmas::holds_ready))]
    pub(crate) fn mdi(&mut self, text: &[u8], geometry: &Geometry) -> Reply
        ensures reply { (program : List ℕ) → result ≡ (mdi geometry.now program self.old text.now).reply }
        ensures next { (program : List ℕ) → self.new ≡ (mdi geometry.now program self.old text.now).next }
    {
        if self.refuses_mdi() {
            return Reply::Refused(Fault::Busy);
        }
        if !self.is_place_known() {
            return Reply::Refused(Fault::PlaceUnknown);
        }
        let place = self.place();
        let block_delete = self.block_delete;
        let effect = match execute_alone(
            &mut self.places,
            &self.stored,
            text,
            block_delete,
            geometry,
        ) {
            Ok(effect) => effect,
            Err(fault) => return Reply::Refused(fault),
        };
        let current = CurrentBlock::begun(
            &self.stored,
            Source::Mdi,
            text,
            block_delete,
            place,
            effect,
        );
        self.activity = self.activity.laid_by(self.held);
        self.held = false;
        self.current = Some(current);
        Reply::Begun
    }

    /// Begins the program's line at its place. The next one begins at `next`; `first` is the kind of the first line
    /// before it that isn't blank. If the line is refused, for faults of its own, the program stops before it. It
    /// doesn't allocate.
    pub fn begin(&mut self, text: &[u8], next: u64, first: LineKind, geometry: &Geometry) -> Reply
        requires { next ≤ self.old.stored.length }
        ensures stored { self.new.stored ≡ self.old.stored }
        ensures reply { (program : List ℕ) → first ≡ first_kind (lines_before program self.old.stored.place)
            → result ≡ (begin geometry.now program self.old
            (Some (record { text = text.now; next = next }))).reply }
        ensures next { (program : List ℕ) → first ≡ first_kind (lines_before program self.old.stored.place)
            → self.new ≡ (begin geometry.now program self.old
            (Some (record { text = text.now; next = next }))).next }
    {
        let block_delete = self.block_delete;
        let effect = match execute_after_lines(
            &mut self.places,
            &self.stored,
            first,
            text,
            block_delete,
            geometry,
        ) {
            Ok(effect) => effect,
            Err(fault) => {
                self.activity = Activity::Stopped;
                return Reply::Refused(fault);
            }
        };
        let begun = CurrentBlock::begun(
            &self.stored,
            Source::Program,
            text,
            block_delete,
            next,
            effect,
        );
        self.current = Some(begun);
        Reply::Begun
    }

    /// Stops the program at the end of its text, which has no program end: X4 if a percent line is missing, else X3.
    /// `first` is the kind of its first line that isn't blank.
    pub fn break_off(&mut self, first: LineKind) -> Reply
        ensures reply { (program : List ℕ) → first ≡ first_kind (lines_before program self.old.stored.place)
            → result ≡ (break_off program self.old).reply }
        ensures next { (program : List ℕ) → self.new ≡ (break_off program self.old).next }
    {
        self.activity = Activity::Stopped;
        Reply::Refused(missing_end(first))
    }
}
