//! A device in memory that records everything done to it.
ghost use Rattle.std.specs.Prelude.{◌≡◌, ◌<◌, ◌≤◌, ℕ, length};
ghost use Rattle.ng_rig.specs.Trace.{reads};
ghost use Rattle.ng_rig.specs.RecordedCalls.{contents, trace_of_calls, AllWithin, IsWhole};

use crate::call::Call;
use crate::replay::{items_of, stop_image};
use crate::rig::{Failed, Rig};
use ng_canon::Item;
use std::alloc::{AllocError, Allocator};

/// A device in memory that records its writes, syncs and hand-outs, and can be stopped after any of them. It is always
/// honest; a call fails only if there is no memory to record it.
#[derive(Drop)]
pub struct MemoryRig<A: Allocator + Copy + Drop> {
    alloc: A,
    first: Vec<[u8; 512], A>,
    present: Vec<[u8; 512], A>,
    calls: Vec<Call, A>,
    failures: u64,
    ghost same_size: { length present.items ≡ length first.items },
    ghost within: { AllWithin (length first.items) calls.items },
    ghost first_whole: { IsWhole first.items },
    ghost whole: { IsWhole present.items },
    ghost present_is: { contents present.items ≡ reads (trace_of_calls first.items calls.items) },
}

impl<A: Allocator + Copy + Drop> MemoryRig<A> {
    ghost use Rattle.std.specs.Prelude.{◌≡◌, ◌+◌, ◌%◌, ◌^◌, ℕ, List, IfOk, length, take, replicate};
    ghost use Rattle.ng_canon.specs.declared.item.Item.{Item};
    ghost use Rattle.ng_rig.specs.Trace.{Image, Began, reads, items, moment, trace_at, IsStop};
    ghost use Rattle.ng_rig.specs.RecordedCalls.{contents};
    ghost use Rattle.ng_rig.specs.Stops.{durable_image, IsReached};
    ghost use Rattle.ng_rig.specs.Memory.{trace_of, sector_count, failure_count};

    /// A device of this many sectors, all zeros.
    pub fn new(alloc: A, sectors: usize) -> Result<Self, AllocError>
        ensures size { IfOk result (λ rig. sector_count rig ≡ sectors) }
        ensures zeros { IfOk result (λ rig. trace_of rig ≡ Began (contents (replicate sectors (replicate 512 0)))) }
        ensures failures { IfOk result (λ rig. failure_count rig ≡ 0) }
    {
        let mut first = Vec::new(alloc);
        first.resize(sectors, [0; 512])?;
        MemoryRig::holding(alloc, first)
    }

    /// A device that holds these sectors.
    fn holding(alloc: A, first: Vec<[u8; 512], A>) -> Result<Self, AllocError>
        requires { IsWhole first.items }
        ensures size { IfOk result (λ rig. sector_count rig ≡ length first.items) }
        ensures trace { IfOk result (λ rig. trace_of rig ≡ Began (contents first.items)) }
        ensures failures { IfOk result (λ rig. failure_count rig ≡ 0) }
    {
        let mut present = Vec::new(alloc);
        present.extend_from_slice(&first)?;
        Ok(MemoryRig {
            alloc,
            first,
            present,
            calls: Vec::new(alloc),
            failures: 0,
        })
    }

    /// How many writes, syncs and hand-outs have succeeded.
    pub fn calls(&self) -> usize
        ensures { result ≡ moment (trace_of self.now) }
    {
        self.calls.len()
    }

    /// The items handed out by the first n of its calls, or by all if there are fewer.
    pub fn handed(&self, n: usize) -> Result<Vec<Item, A>, AllocError>
        ensures { IfOk result (λ handed. handed.items ≡ items (trace_at n (trace_of self.now))) }
    {
        items_of(self.alloc, self.before(n))
    }

    /// The first n of its calls, or all if there are fewer.
    fn before(&self, n: usize) -> &[Call]
        ensures { result.now ≡ take n self.now.calls.items }
    {
        &self.calls[..n.min(self.calls.len())]
    }

    /// The device as a loss of power leaves it after the first n calls, or after all if there are fewer. Sector i keeps
    /// the keep[i]-th of the contents written to it since the last sync, counted from 1. If the number is 0, or past
    /// the end of `keep`, the sector keeps none of them; if it is greater than their number, the last. The new device
    /// has no calls and no failures.
    pub fn stopped(&self, n: usize, keep: &[usize]) -> Result<Self, AllocError>
        ensures size { IfOk result (λ rig. sector_count rig ≡ sector_count self.now) }
        ensures exact { IfOk result (λ rig. trace_of rig ≡ Began (durable_image (trace_at n (trace_of self.now)) keep.now)) }
        ensures failures { IfOk result (λ rig. failure_count rig ≡ 0) }

        // in no way that a stop there doesn't allow
        ensures only { IfOk result (λ rig.
            IsStop (trace_at n (trace_of self.now)) (reads (trace_of rig)) (items (trace_at n (trace_of self.now)))) }

        // and in every way that it allows
        ensures every { (image : Image) (handed : List Item) →
            IsStop (trace_at n (trace_of self.now)) image handed →
            IsReached (sector_count self.now) (trace_at n (trace_of self.now)) image }
    {
        let image = stop_image(self.alloc, &self.first, self.before(n), keep)?;
        MemoryRig::holding(self.alloc, image)
    }

    /// Counts a failure.
    fn fail(&mut self) -> Failed
        ensures size { sector_count self.new ≡ sector_count self.old }
        ensures trace { trace_of self.new ≡ trace_of self.old }
        ensures failures { failure_count self.new ≡ (failure_count self.old + 1) % 2 ^ 64 }
    {
        self.failures = self.failures.wrapping_add(1);
        Failed
    }
}

impl<A: Allocator + Copy + Drop> Rig for MemoryRig<A> {
    ghost use Rattle.std.specs.Prelude.{◌≡◌, ◌<◌, IsOk};
    ghost use Rattle.ng_rig.specs.Trace.{Wrote, Synced, Handed, reads};
    ghost use Rattle.ng_rig.specs.Calls.{IsCall, KeepsOrNot};
    ghost use Rattle.ng_rig.specs.Memory.{trace_of, sector_count, failure_count, device_of};

    ghost seen = { device_of };

    fn size(&self) -> usize {
        self.first.len()
    }

    fn failures(&self) -> u64 {
        self.failures
    }

    /// Never fails.
    fn read(&mut self, sector: usize, into: &mut [u8; 512]) -> Result<(), Failed>
        requires { sector < sector_count self.old }
        ensures never { IsOk result }
        ensures bytes { into.new ≡ reads (trace_of self.old) sector }
        ensures trace { trace_of self.new ≡ trace_of self.old }
        ensures size { sector_count self.new ≡ sector_count self.old }
        ensures failures { failure_count self.new ≡ failure_count self.old }
    {
        *into = self.present[sector];
        Ok(())
    }

    fn write(&mut self, sector: usize, bytes: &[u8; 512]) -> Result<(), Failed>
        requires { sector < sector_count self.old }
        ensures trace { KeepsOrNot result (Wrote sector bytes.now (trace_of self.old)) (trace_of self.old) (trace_of self.new) }
        ensures call { IsCall result (device_of self.old) (device_of self.new) }
    {
        match self.calls.push(Call::Write(sector, *bytes)) {
            Ok(()) => {
                self.present[sector] = *bytes;
                Ok(())
            }
            Err(_) => Err(self.fail()),
        }
    }

    fn sync(&mut self) -> Result<(), Failed>
        ensures trace { KeepsOrNot result (Synced (trace_of self.old)) (trace_of self.old) (trace_of self.new) }
        ensures call { IsCall result (device_of self.old) (device_of self.new) }
    {
        match self.calls.push(Call::Sync) {
            Ok(()) => Ok(()),
            Err(_) => Err(self.fail()),
        }
    }

    fn hand_out(&mut self, item: Item) -> Result<(), Failed>
        ensures trace { KeepsOrNot result (Handed item (trace_of self.old)) (trace_of self.old) (trace_of self.new) }
        ensures call { IsCall result (device_of self.old) (device_of self.new) }
    {
        match self.calls.push(Call::Hand(item)) {
            Ok(()) => Ok(()),
            Err(_) => Err(self.fail()),
        }
    }
}
