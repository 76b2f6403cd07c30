//! The bytes of a file.
ghost use Rattle.std.specs.Prelude.{◌≡◌, ◌+◌, ◌++◌, ◌<◌, ◌≤◌, ◌^◌, ℕ, List, [], ◌∷◌, Option, Some, None, length, slice_range, IfOk, OnOk, OnErr, IfSome, IsSome};
ghost use Rattle.std.specs.Io.KnownBytes.{Appends};
ghost use Rattle.ng_file.specs.Bytes.{AppendsBeginning, Put, PutInPart};
ghost use Rattle.ng_file.specs.Promise.{HoldsNothingNew, IfPromised, IsDurable, MayHoldBesides, Promise, no_promise};
ghost use Rattle.ng_file.specs.WeakPromise.{HoldsNothingMore, IfWeaklyPromised, PutsAnew, SyncsTheRest, WeakPromise, no_weak_promise};

use std::io;

/// The bytes of a sector.
pub(crate) const SECTOR: usize = 512;

/// The bytes of a file, of which 512 are read or written at a time (own).
pub trait Storage {
    /// The bytes that it holds, if that is known.
    ghost content: { Self → Option (List ℕ) } = { λ _. None };

    /// What its good reads gave until now, each with its place, if that is known.
    ghost gave: { Self → Option (List (ℕ × List ℕ)) } = { λ _. None };

    /// The bytes that a loss of power leaves, if that is known.
    ghost lasting: { Self → Option (List ℕ) } = { λ _. None };

    /// What it promises, and what each sector may hold once power was lost.
    ghost promise: { Self → Promise } = { λ _. no_promise };

    /// What it promises if a sync that fails forgets what it couldn't write.
    ghost weak_promise: { Self → WeakPromise } = { λ _. no_weak_promise };

    /// How many bytes it holds.
    fn length(&mut self) -> io::Result<u64>
        ensures value { IfOk result (λ n. IfSome (content self.old) (λ held. n ≡ length held)) }
        ensures bytes { content self.new ≡ content self.old }
        ensures gives { gave self.new ≡ gave self.old }
        ensures known { (promise self.old).honest → IsSome (content self.old) }
        ensures promised { IfPromised (promise self.old) (promise self.new) (HoldsNothingNew (promise self.old) (promise self.new)) }
        ensures weakly { IfWeaklyPromised (weak_promise self.old) (weak_promise self.new) (HoldsNothingMore (weak_promise self.old) (weak_promise self.new)) };

    /// Reads the 512 bytes from a place on. After an error `into` may hold any bytes.
    fn read_at(&mut self, place: u64, into: &mut [u8; 512]) -> io::Result<()>
        ensures value { OnOk result (IfSome (content self.old) (λ held. into.new ≡ slice_range held place (place + 512))) }
        ensures bytes { content self.new ≡ content self.old }
        ensures gives { OnOk result (IfSome (gave self.old) (λ before. gave self.new ≡ Some (before ++ (place, into.new) ∷ []))) }
        ensures promised { IfPromised (promise self.old) (promise self.new) (HoldsNothingNew (promise self.old) (promise self.new)) }
        ensures weakly { IfWeaklyPromised (weak_promise self.old) (weak_promise self.new) (HoldsNothingMore (weak_promise self.old) (weak_promise self.new)) };

    /// Replaces the 512 bytes from a place on. After an error the old bytes are there or the new ones.
    fn write_at(&mut self, place: u64, bytes: &[u8; 512]) -> io::Result<()>
        requires { place + 512 < 2 ^ 64 }
        ensures ok { OnOk result (Put place bytes.now (content self.old) (content self.new)) }
        ensures err { OnErr result (PutInPart place bytes.now (content self.old) (content self.new)) }
        ensures promised { IfPromised (promise self.old) (promise self.new) (MayHoldBesides place bytes.now (promise self.old) (promise self.new)) }
        ensures weakly { IfWeaklyPromised (weak_promise self.old) (weak_promise self.new) (PutsAnew result place bytes.now (weak_promise self.old) (weak_promise self.new)) };

    /// Makes what was written durable. No call of this trait changes the length.
    fn sync(&mut self) -> io::Result<()>
        ensures lasts { OnOk result (IfSome (lasting self.new) (λ held. content self.new ≡ Some held)) }
        ensures bytes { content self.new ≡ content self.old }
        ensures promised { IfPromised (promise self.old) (promise self.new) (HoldsNothingNew (promise self.old) (promise self.new)) }
        ensures durable { (promise self.old).honest → OnOk result (IsDurable (content self.new) (promise self.new)) }
        ensures weakly { IfWeaklyPromised (weak_promise self.old) (weak_promise self.new) (SyncsTheRest result (content self.new) (weak_promise self.old) (weak_promise self.new)) };
}

/// A file that can grow (own). A device in a file, `FileRig`, doesn't need this: its size never changes.
pub trait Append: Storage {
    /// Writes bytes after the last one. After an error a beginning of them may have been written.
    fn append(&mut self, bytes: &[u8]) -> io::Result<()>
        ensures whole { OnOk result (Appends (Self.content self.old) (Self.content self.new) bytes.now) }
        ensures part { OnErr result (AppendsBeginning (Self.content self.old) (Self.content self.new) bytes.now) };

    /// Makes everything durable, the length too.
    fn sync_all(&mut self) -> io::Result<()>
        ensures lasts { OnOk result (IfSome (Self.lasting self.new) (λ held. Self.content self.new ≡ Some held)) }
        ensures bytes { Self.content self.new ≡ Self.content self.old };
}
