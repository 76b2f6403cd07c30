//! Laws to be cited by proofs in the crates above. The calls do nothing; their contracts are the laws.
ghost use Rattle.std.specs.Prelude.{◌≡◌, ℕ, ℤ, List, length, Ok, Err};
ghost use Rattle.std.specs.List.{All};
ghost use Rattle.ng_num.specs.declared.fault.Fault.{Fault};
ghost use Rattle.ng_canon.specs.declared.geometry.Geometry.{Geometry};
ghost use Rattle.ng_num.specs.Causes.{NoneHolds, IsFirstFault};
ghost use Rattle.ng_params.specs.Numbers.{parameter_count};
ghost use Rattle.ng_modal.specs.declared.block.Block.{Block};
ghost use Rattle.ng_state.specs.State.{StateModel};
ghost use Rattle.ng_block.specs.Causes.{causes};
ghost use Rattle.ng_block.specs.Effects.{Done, executed};
ghost use Rattle.ng_block.specs.OffsetsAlone.{AsksFor, SetsOffsetsAlone};
ghost use Rattle.ng_block.specs.ProgramEnd.{IsEnded};
ghost use Rattle.ng_block.specs.SameModes.{HasSameModes};
ghost use Rattle.ng_block.specs.Travel.{Joins, NoneMoves, StaysInside};
ghost use Rattle.ng_block.specs.declared.effect.ProgramFlow.TheVariants.{Ends};

/// A line is refused exactly if a cause holds, with the fault of the first one that does (own).
pub fn refusals()
    ensures accepted { (setup : StateModel) (tools : List ℤ) (geometry : Geometry) (text : List ℕ) (done : Done)
        → executed setup tools geometry text ≡ Ok done → NoneHolds (causes setup tools geometry text) }
    ensures refused { (setup : StateModel) (tools : List ℤ) (geometry : Geometry) (text : List ℕ) (fault : Fault)
        → executed setup tools geometry text ≡ Err fault → IsFirstFault (causes setup tools geometry text) fault }
{}

/// The segments of a valid block join: each that moves begins where the one before it ended, the first at the machine's
/// position before the block, and the last ends at the position after the block (own).
pub fn segments_join()
    ensures { (setup : StateModel) (tools : List ℤ) (geometry : Geometry) (text : List ℕ) (done : Done)
        → executed setup tools geometry text ≡ Ok done
        → Joins setup.modal.point done.segments done.setup.modal.point }
{}

/// No offset moves the machine: a valid block without a segment that moves keeps the machine's position, and so does
/// one that only sets offsets (NISTIR 6556, 3.5.5, 3.5.11, 3.5.13, 3.5.18).
pub fn offsets_move_nothing()
    ensures still { (setup : StateModel) (tools : List ℤ) (geometry : Geometry) (text : List ℕ) (done : Done)
        → executed setup tools geometry text ≡ Ok done → NoneMoves done.segments
        → done.setup.modal.point ≡ setup.modal.point }
    ensures alone { (setup : StateModel) (tools : List ℤ) (geometry : Geometry) (text : List ℕ) (done : Done) (block : Block)
        → executed setup tools geometry text ≡ Ok done → AsksFor setup text block → SetsOffsetsAlone block
        → done.setup.modal.point ≡ setup.modal.point }
{}

/// Each segment of a valid block stays inside the travel (own).
pub fn travel()
    ensures { (setup : StateModel) (tools : List ℤ) (geometry : Geometry) (text : List ℕ) (done : Done)
        → executed setup tools geometry text ≡ Ok done → All (StaysInside geometry) done.segments }
{}

/// A line that ends the program leaves the state of M2 and M30, in a table of all 5,399 parameters (NISTIR 6556,
/// 3.6.1).
pub fn program_end()
    ensures { (setup : StateModel) (tools : List ℤ) (geometry : Geometry) (text : List ℕ) (done : Done)
        → length setup.params ≡ parameter_count → executed setup tools geometry text ≡ Ok done → done.stop ≡ Ends
        → IsEnded done.setup }
{}

/// A second line with the same modes changes none: a valid line leaves the modes unchanged if the line before it had
/// the same words of the groups of modes (NISTIR 6556, 3.4).
pub fn modes_stay()
    ensures { (setup : StateModel) (tools : List ℤ) (geometry : Geometry) (text again : List ℕ) (done next : Done) (one other : Block)
        → executed setup tools geometry text ≡ Ok done → AsksFor setup text one
        → executed done.setup tools geometry again ≡ Ok next → AsksFor done.setup again other → HasSameModes one other
        → next.setup.modal.modes ≡ done.setup.modal.modes }
{}
