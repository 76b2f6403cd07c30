//! What is stored of a controller.
ghost use Rattle.std.specs.Prelude.{◌≡◌, ◌≤◌, ◌<◌, ◌+◌, ◌-◌, ℕ, length, Some, IfOk};
ghost use Rattle.std.specs.Option.{option_map};
ghost use Rattle.ng_layout.specs.Limits.{field_size, greatest_count};
ghost use Rattle.ng_params.specs.Numbers.{parameter_count};
ghost use Rattle.ng_layout.specs.Areas.{snapshot_size, tools_size};
ghost use Rattle.ng_layout.specs.Fields.{SameFrom};
ghost use Rattle.ng_layout.specs.Storable.{IsStorable};
ghost use Rattle.ng_layout.specs.Encoding.{HoldsDecodedState};
ghost use Rattle.ng_layout.specs.Snapshot.{decoded_state_in, HoldsPart, HoldsToolPart};
ghost use Rattle.ng_layout.specs.Stored.{fresh_stored};

use crate::bytes::put_u16;
use crate::decoding::DecodedState;
use crate::encoding::encode;
use crate::half::{Half, copy_of};
use crate::sectors::{SECTOR_BYTES, VALUES, copy_table, fresh_values_sector, values_sector};
use crate::tools::{LENGTHS, SLOTS_AT, lengths_sector};
use ng_offsets::Tools;
use ng_state::{ModalState, State};
use std::alloc::{AllocError, Allocator};
use std::marker::Model;

/// What is stored in addition to the program's text (own). Contracts see a `StoredModel`.
#[derive(Drop)]
pub struct Stored<A: Allocator> {
    /// The number of entries that were committed.
    pub entries: u64,
    pub state: State<A>,
    /// The lengths of slots 1, 2 and so on.
    pub tools: Tools,
    /// The byte of the program at which the next line begins.
    pub place: u64,
    /// The number of bytes of the program.
    pub length: u64,
    /// The most bytes of a program that the device takes.
    pub program_limit: u64,
    pub half: Option<Half>,
}

impl<A: Allocator> Model for Stored<A> {
    ghost use Rattle.ng_layout.specs.Stored.{StoredModel};

    ghost Value = { StoredModel };

    ghost view = { λ s. record {
      entries = s.entries;
      setup = s.state;
      tools = s.tools;
      place = s.place;
      length = s.length;
      program_limit = s.program_limit;
      half = s.half;
    } };
}

impl<A: Allocator + Copy + Drop> Stored<A> {
    ghost use Rattle.ng_layout.specs.Stored.{fresh_stored, with_decoded_state};
    ghost use Rattle.ng_layout.specs.Stands.{closed};

    /// A fresh controller with no program, on a device with this limit of one. `AllocError` if there is no memory for
    /// the table.
    pub fn fresh(alloc: A, program_limit: u64) -> Result<Stored<A>, AllocError>
        ensures value { IfOk result (λ s. s ≡ fresh_stored program_limit) }
        ensures table { IfOk result (λ s. length s.setup.params ≡ parameter_count) }
    {
        Ok(Stored {
            entries: 0,
            state: State::fresh(alloc)?,
            tools: Tools::new(),
            place: 0,
            length: 0,
            program_limit,
            half: None,
        })
    }

    /// What its state field says with another half-done block. It doesn't allocate.
    pub fn decoded_with(&self, half: Half) -> DecodedState
        ensures { result ≡ record (decoded_state_in self.now) { half = Some half } }
    {
        DecodedState {
            entries: self.entries,
            place: self.place,
            modal: self.state.modal,
            half: Some(half),
        }
    }

    /// Takes over what a state field says, for a program of this length. Parameters, tools and program limit stay.
    pub fn take_decoded_state(&mut self, decoded: DecodedState, length: u64)
        ensures { self.new ≡ with_decoded_state self.old decoded length }
    {
        self.entries = decoded.entries;
        self.state.modal = decoded.modal;
        self.place = decoded.place;
        self.length = length;
        self.half = decoded.half;
    }

    /// Closes what is open. If something was open, the machine's position isn't known any more.
    pub fn close(&mut self)
        ensures value { self.new ≡ record self.old { half = option_map closed self.old.half } }
        ensures storable { IsStorable self.old → IsStorable self.new }
    {
        if let Some(half) = &mut self.half {
            if half.opened.is_some() {
                half.opened = None;
                half.at = None;
            }
        }
    }

    /// Takes over a tool table; all else stays. It doesn't allocate.
    pub fn take_tools(&mut self, tools: &Tools)
        ensures { self.new ≡ record self.old { tools = tools.now } }
    {
        self.tools = tools.copy();
    }

    /// Takes over everything from another. It doesn't allocate.
    pub fn take_over(&mut self, other: &Stored<A>)
        requires own { length self.old.setup.params ≡ parameter_count }
        requires other { length other.now.setup.params ≡ parameter_count }
        ensures { self.new ≡ other.now }
    {
        copy_table(&mut self.state.params, &other.state.params);
        self.take_all_but_parameters(other);
    }

    /// Takes over everything from another that has the same parameters; those are not copied. It doesn't allocate.
    pub fn take_all_but_parameters(&mut self, other: &Stored<A>)
        requires { self.old.setup.params ≡ other.now.setup.params }
        ensures { self.new ≡ other.now }
    {
        self.state.modal = other.state.modal;
        self.tools = other.tools.copy();
        self.entries = other.entries;
        self.place = other.place;
        self.length = other.length;
        self.program_limit = other.program_limit;
        self.half = copy_of(&other.half);
    }

    /// Writes the state field to the start of these bytes. All bytes after it stay.
    pub(crate) fn encode(&self, bytes: &mut [u8])
        requires fits { field_size ≤ length bytes.old }
        requires count { self.now.entries ≤ greatest_count }
        requires storable { IsStorable self.now }
        ensures holds { HoldsDecodedState self.now.length (decoded_state_in self.now) bytes.new }
        ensures beyond { SameFrom field_size bytes.old bytes.new }
    {
        let half = self.half.as_ref();
        encode(bytes, self.entries, self.place, &self.state.modal, half);
    }

    /// The first sector of a snapshot: the state field, and the number of slots. All other bytes are 0.
    fn first_sector(&self) -> [u8; SECTOR_BYTES]
        requires count { self.now.entries ≤ greatest_count }
        requires storable { IsStorable self.now }
        ensures { HoldsPart self.now 0 result }
    {
        let mut sector = [0; SECTOR_BYTES];
        put_u16(&mut sector, SLOTS_AT, self.tools.slots() as u16);
        self.encode(&mut sector);
        sector
    }

    /// The sector of a snapshot that holds this part of it: the state field first, then the parameters. Bytes that no
    /// field names are 0.
    pub fn sector(&self, part: usize) -> [u8; SECTOR_BYTES]
        requires part { part < snapshot_size }
        requires count { self.now.entries ≤ greatest_count }
        requires storable { IsStorable self.now }
        ensures { HoldsPart self.now part result }
    {
        if part == 0 {
            self.first_sector()
        } else {
            values_sector(&self.state.params, VALUES * (part - 1))
        }
    }

    /// The sector of a tool area that holds this part of the tool table. Bytes that no slot uses are 0.
    pub fn tool_sector(&self, part: usize) -> [u8; SECTOR_BYTES]
        requires part { part < tools_size }
        ensures { HoldsToolPart self.now part result }
    {
        lengths_sector(&self.tools, LENGTHS * part)
    }
}

/// The sector of a fresh controller's snapshot that holds this part of it. It doesn't allocate.
pub fn fresh_sector(part: usize) -> [u8; SECTOR_BYTES]
    requires { part < snapshot_size }
    ensures { (program_limit : ℕ) → HoldsPart (fresh_stored program_limit) part result }
{
    if part == 0 {
        fresh_first_sector()
    } else {
        fresh_values_sector(VALUES * (part - 1))
    }
}

fn fresh_first_sector() -> [u8; SECTOR_BYTES]
    ensures { (program_limit : ℕ) → HoldsPart (fresh_stored program_limit) 0 result }
{
    let mut sector = [0; SECTOR_BYTES];
    encode(&mut sector, 0, 0, &ModalState::fresh(), None);
    sector
}
