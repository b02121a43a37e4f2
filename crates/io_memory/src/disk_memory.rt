// A disk in memory. It keeps what it began with and a record of its calls, and so tells what a crash may leave.
ghost use Rattle.std.specs.Prelude.{◌≡◌, ◌≤◌, ◌+◌, ◌++◌, [], ◌∷◌, ℕ, List, length, OnOk, OnErr, IfOk, IsErr, IsTrue, max, take};
ghost use Rattle.io_traits.specs.Faults.{Rose, next_count};
ghost use Rattle.io_traits.specs.DiskState.{IsHonest, IsQuiet, IsRead, IsWrite, IsCut, IsSync, Torn, Cut, Allow, Fronts, overwrite};
ghost use Rattle.io_memory.specs.Calls.{telling, reads_after, reads_by, buffer_of, IsLook};
ghost use Rattle.io_memory.specs.Laws.{reads_are_image, now_counts, now_only, length-bytes-lt};

use crate::stop::{Turn, turn_with_stop, turn_without_stop};
use crate::{DiskCall, DiskStop, Fill};
use io_traits::{Disk, Failed};
use std::alloc::{AllocError, Global};

/// An honest disk over a vector. A call that finds no memory for its record fails.
#[derive(Drop)]
pub struct MemoryDisk {
    alloc: Global,
    start: Vec<u8>,
    bytes: Vec<u8>,
    calls: Vec<DiskCall>,
    failing: Vec<u64>,
    stop: Option<DiskStop>,
    made: u64,
    faults: u64,
    ghost replayed: { bytes.items ≡ reads_after start.items calls.items },
}

impl MemoryDisk {
    ghost use Rattle.io_memory.specs.Turns.{turn_of, is_failure};
    ghost use Rattle.io_memory.specs.Memory.{memory_bytes, memory_tells, memory_faults, memory_longest_read, memory_made, memory_lists, fails_next};

    /// A disk with these bytes, all of them on it. The calls with these numbers fail, counted from 1.
    pub fn new(
        alloc: Global,
        bytes: Vec<u8>,
        failing: Vec<u64>,
        stop: Option<DiskStop>,
    ) -> Result<MemoryDisk, AllocError>
        ensures bytes { IfOk result (λ disk. memory_bytes disk ≡ bytes.items) }
        ensures honest { IfOk result (λ disk. IsHonest (memory_tells disk)) }
        ensures quiet { IfOk result (λ disk. IsQuiet (memory_tells disk)) }
        ensures faults { IfOk result (λ disk. memory_faults disk ≡ 0) }
        ensures longest { IfOk result (λ disk. memory_longest_read disk ≡ 0) }
        ensures made { IfOk result (λ disk. memory_made disk ≡ 0) }
        ensures lists { IfOk result (λ disk. memory_lists disk ≡ (failing.items, stop)) }
    {
        let start = bytes.to_vec(alloc)?;
        Ok(MemoryDisk {
            alloc,
            start,
            bytes,
            calls: Vec::new(alloc),
            failing,
            stop,
            made: 0,
            faults: 0,
        })
    }

    /// Its present bytes. It takes no memory.
    pub fn image(&self) -> &[u8]
        ensures { result.now ≡ memory_bytes self.now }
    {
        &self.bytes
    }

    /// The greatest length of a buffer that was handed to `read_at`, of the calls that its record holds, and 0 where
    /// there is none. A call that found no memory isn't in the record. It takes no memory.
    pub fn longest_read(&self) -> u64
        ensures { result ≡ memory_longest_read self.now }
    {
        self.calls
            .iter()
            .fold(0, |longest, call| u64::max(longest, call.buffer()))
    }

    // Counts a call, and says what becomes of it.
    fn turn(&mut self) -> Turn
        ensures same { self.new ≡ record self.old { made = self.new.made } }
        ensures made { self.new.made ≡ next_count self.old.made }
        ensures turn { result ≡ turn_of self.old.failing.items self.old.stop self.new.made }
    {
        self.made = self.made.saturating_add(1);
        match self.stop {
            Some(stop) => turn_with_stop(&self.failing, stop, self.made),
            None => turn_without_stop(&self.failing, self.made),
        }
    }

    // Counts a fault.
    fn fault(&mut self) -> Failed
        ensures same { self.new ≡ record self.old { faults = self.new.faults } }
        ensures rose { Rose self.old.faults self.new.faults }
        ensures later { self.old.faults ≤ self.new.faults }
    {
        self.faults = self.faults.saturating_add(1);
        Failed
    }

    // Records a call that leaves the bytes as they are.
    fn note(&mut self, call: DiskCall) -> Result<(), AllocError>
        requires { reads_by call self.old.bytes.items ≡ self.old.bytes.items }
        ensures calls { OnOk result (self.new.calls.items ≡ self.old.calls.items ++ call ∷ []) }
        ensures calls_err { OnErr result (self.new.calls.items ≡ self.old.calls.items) }
        ensures longest { OnOk result (memory_longest_read self.new ≡ max (memory_longest_read self.old) (buffer_of call)) }
        ensures longest_err { OnErr result (memory_longest_read self.new ≡ memory_longest_read self.old) }
        ensures start { self.new.start ≡ self.old.start }
        ensures bytes { self.new.bytes ≡ self.old.bytes }
        ensures faults { self.new.faults ≡ self.old.faults }
        ensures made { self.new.made ≡ self.old.made }
        ensures lists { memory_lists self.new ≡ memory_lists self.old }
    {
        self.calls.push(call)?;
        Ok(())
    }

    // Records a call, after which these bytes are there.
    fn commit(&mut self, call: DiskCall, next: Vec<u8>) -> Result<(), AllocError>
        requires next { next.items ≡ reads_by call self.old.bytes.items }
        requires no_read { buffer_of call ≡ 0 }
        ensures calls { OnOk result (self.new.calls.items ≡ self.old.calls.items ++ call ∷ []) }
        ensures bytes { OnOk result (self.new.bytes.items ≡ next.items) }
        ensures calls_err { OnErr result (self.new.calls.items ≡ self.old.calls.items) }
        ensures bytes_err { OnErr result (self.new.bytes.items ≡ self.old.bytes.items) }
        ensures longest { memory_longest_read self.new ≡ memory_longest_read self.old }
        ensures start { self.new.start ≡ self.old.start }
        ensures faults { self.new.faults ≡ self.old.faults }
        ensures made { self.new.made ≡ self.old.made }
        ensures lists { memory_lists self.new ≡ memory_lists self.old }
    {
        self.calls.push(call)?;
        self.bytes = next;
        Ok(())
    }

    // Counts and records a look, and says what becomes of it.
    fn look(&mut self, call: DiskCall) -> Turn
        requires { IsLook call }
        ensures told { IsRead (memory_tells self.old) (memory_tells self.new) }
        ensures bytes { self.new.bytes ≡ self.old.bytes }
        ensures longest { result ≡ Turn.Works → memory_longest_read self.new ≡ max (memory_longest_read self.old) (buffer_of call) }
        ensures no_less { memory_longest_read self.old ≤ memory_longest_read self.new }
        ensures no_more { memory_longest_read self.new ≤ max (memory_longest_read self.old) (buffer_of call) }
        ensures faults { self.new.faults ≡ self.old.faults }
        ensures fails { IsTrue (fails_next self.old) → IsTrue (is_failure result) }
        ensures counted { self.new.made ≡ next_count self.old.made }
        ensures lists { memory_lists self.new ≡ memory_lists self.old }
    {
        let turn = self.turn();
        match self.note(call) {
            Ok(()) => turn,
            Err(_) => Turn::Fails(Fill::Unwritten),
        }
    }

    // Records a write of n bytes that leaves these in its range.
    fn write(&mut self, at: u64, n: usize, left: &[u8]) -> Result<(), AllocError>
        requires inside { at ≤ length self.old.bytes.items }
        requires fits { length left.now ≤ n }
        ensures told { IsWrite at n (memory_tells self.old) (memory_tells self.new) }
        ensures torn { OnOk result (Allow (Torn at n) (memory_tells self.old).image (memory_tells self.new).image) }
        ensures done { OnOk result (self.new.bytes.items ≡ overwrite at left.now self.old.bytes.items) }
        ensures longest { memory_longest_read self.new ≡ memory_longest_read self.old }
        ensures faults { self.new.faults ≡ self.old.faults }
        ensures made { self.new.made ≡ self.old.made }
        ensures lists { memory_lists self.new ≡ memory_lists self.old }
    {
        let next = with_bytes(self.alloc, &self.bytes, at as usize, left)?;
        let left = left.to_vec(self.alloc)?;
        self.commit(DiskCall::Write { at, len: n, left }, next)?;
        Ok(())
    }

    // Records a cut that leaves these bytes in the part cut off.
    fn cut_to(&mut self, len: u64, left: &[u8]) -> Result<(), AllocError>
        requires inside { len ≤ length self.old.bytes.items }
        requires fits { len + length left.now ≤ length self.old.bytes.items }
        ensures told { IsCut len (memory_tells self.old) (memory_tells self.new) }
        ensures torn { OnOk result (Allow (Cut len) (memory_tells self.old).image (memory_tells self.new).image) }
        ensures done { OnOk result (self.new.bytes.items ≡ take len self.old.bytes.items ++ left.now) }
        ensures longest { memory_longest_read self.new ≡ memory_longest_read self.old }
        ensures faults { self.new.faults ≡ self.old.faults }
        ensures made { self.new.made ≡ self.old.made }
        ensures lists { memory_lists self.new ≡ memory_lists self.old }
    {
        let mut next = self.bytes[..len as usize].to_vec(self.alloc)?;
        next.extend_from_slice(left)?;
        let left = left.to_vec(self.alloc)?;
        self.commit(DiskCall::Cut { len, left }, next)?;
        Ok(())
    }

    // Records a write that fails.
    fn fail_write(&mut self, at: u64, bytes: &[u8], fill: Fill) -> Result<(), AllocError>
        requires inside { at ≤ length self.old.bytes.items }
        ensures told { IsWrite at (length bytes.now) (memory_tells self.old) (memory_tells self.new) }
        ensures longest { memory_longest_read self.new ≡ memory_longest_read self.old }
        ensures faults { self.new.faults ≡ self.old.faults }
        ensures made { self.new.made ≡ self.old.made }
        ensures lists { memory_lists self.new ≡ memory_lists self.old }
    {
        let left = filling(self.alloc, fill, bytes)?;
        self.write(at, bytes.len(), &left)
    }

    // Records a cut that fails.
    fn fail_cut(&mut self, len: u64, fill: Fill) -> Result<(), AllocError>
        requires inside { len ≤ length self.old.bytes.items }
        ensures told { IsCut len (memory_tells self.old) (memory_tells self.new) }
        ensures longest { memory_longest_read self.new ≡ memory_longest_read self.old }
        ensures faults { self.new.faults ≡ self.old.faults }
        ensures made { self.new.made ≡ self.old.made }
        ensures lists { memory_lists self.new ≡ memory_lists self.old }
    {
        let left = remains(self.alloc, fill, &self.bytes[len as usize..])?;
        self.cut_to(len, &left)
    }

    // Records a sync that succeeds.
    fn record_sync(&mut self) -> Result<(), AllocError>
        ensures told { IsSync (memory_tells self.old) (memory_tells self.new) }
        ensures done { OnOk result (IsQuiet (memory_tells self.new)) }
        ensures failed { OnErr result ((c : List ℕ) → (memory_tells self.old).image c → (memory_tells self.new).image c) }
        ensures longest { memory_longest_read self.new ≡ memory_longest_read self.old }
        ensures faults { self.new.faults ≡ self.old.faults }
        ensures made { self.new.made ≡ self.old.made }
        ensures lists { memory_lists self.new ≡ memory_lists self.old }
    {
        self.note(DiskCall::Sync)
    }

    // Records a sync that fails.
    fn fail_sync(&mut self)
        ensures told { IsSync (memory_tells self.old) (memory_tells self.new) }
        ensures failed { (c : List ℕ) → (memory_tells self.old).image c → (memory_tells self.new).image c }
        ensures longest { memory_longest_read self.new ≡ memory_longest_read self.old }
        ensures faults { self.new.faults ≡ self.old.faults }
        ensures made { self.new.made ≡ self.old.made }
        ensures lists { memory_lists self.new ≡ memory_lists self.old }
    {
        let _ = self.note(DiskCall::FailedSync);
    }
}

// A list with these bytes written over it at a place.
fn with_bytes(alloc: Global, old: &[u8], at: usize, bytes: &[u8]) -> Result<Vec<u8>, AllocError>
    requires { at ≤ length old.now }
    ensures { IfOk result (λ v. v.items ≡ overwrite at bytes.now old.now) }
{
    let mut next = old[..at].to_vec(alloc)?;
    next.extend_from_slice(bytes)?;
    if bytes.len() < old.len() - at {
        next.extend_from_slice(&old[at + bytes.len()..])?;
    }
    Ok(next)
}

// What a call that fails leaves in a range: nothing new, these bytes, or one byte all over.
fn filling(alloc: Global, fill: Fill, bytes: &[u8]) -> Result<Vec<u8>, AllocError>
    ensures { IfOk result (λ v. length v.items ≤ length bytes.now) }
{
    match fill {
        Fill::Unwritten => Ok(Vec::new(alloc)),
        Fill::Written => bytes.to_vec(alloc),
        Fill::With(x) => vec![in alloc; x; bytes.len()],
    }
}

// Each call has the trait's clauses, and says what becomes of the longest read and when it is one that fails.
impl Disk for MemoryDisk {
    ghost use Rattle.io_memory.specs.Memory.{memory_bytes, memory_tells, memory_faults, memory_longest_read, memory_made, memory_lists, fails_next};

    ghost tells = { λ d. telling d.start.items d.bytes.items d.calls.items };

    ghost faults = { λ d. d.faults };

    fn len(&mut self) -> Result<u64, Failed>
        ensures honest { (memory_tells self.new).honest ≡ (memory_tells self.old).honest }
        ensures told { IsRead (memory_tells self.old) (memory_tells self.new) }
        ensures length { IfOk result (λ n. n ≡ length (memory_bytes self.old)) }
        ensures later { memory_faults self.old ≤ memory_faults self.new }
        ensures cause { OnErr result (Rose (memory_faults self.old) (memory_faults self.new)) }
        ensures unmoved { OnOk result (memory_faults self.new ≡ memory_faults self.old) }
        ensures longest { memory_longest_read self.new ≡ memory_longest_read self.old }
        ensures fails { IsTrue (fails_next self.old) → IsErr result }
        ensures counted { memory_made self.new ≡ next_count (memory_made self.old) }
        ensures lists { memory_lists self.new ≡ memory_lists self.old }
    {
        match self.look(DiskCall::Len) {
            Turn::Works => Ok(self.bytes.len() as u64),
            Turn::Fails(_) => Err(self.fault()),
        }
    }

    fn read_at(&mut self, at: u64, buf: &mut [u8]) -> Result<usize, Failed>
        ensures honest { (memory_tells self.new).honest ≡ (memory_tells self.old).honest }
        ensures told { IsRead (memory_tells self.old) (memory_tells self.new) }
        ensures fits { IfOk result (λ n. n ≤ length buf.old) }
        ensures bytes { IfOk result (λ n. Fronts (memory_bytes self.old) at n buf.old buf.new) }
        ensures later { memory_faults self.old ≤ memory_faults self.new }
        ensures cause { OnErr result (Rose (memory_faults self.old) (memory_faults self.new)) }
        ensures unmoved { OnOk result (memory_faults self.new ≡ memory_faults self.old) }
        ensures longest { OnOk result (memory_longest_read self.new ≡ max (memory_longest_read self.old) (length buf.old)) }
        ensures no_less { memory_longest_read self.old ≤ memory_longest_read self.new }
        ensures no_more { memory_longest_read self.new ≤ max (memory_longest_read self.old) (length buf.old) }
        ensures fails { IsTrue (fails_next self.old) → IsErr result }
        ensures counted { memory_made self.new ≡ next_count (memory_made self.old) }
        ensures lists { memory_lists self.new ≡ memory_lists self.old }
    {
        match self.look(DiskCall::Read { buffer: buf.len() }) {
            Turn::Works => Ok(copy_from(&self.bytes, at, buf)),
            Turn::Fails(_) => Err(self.fault()),
        }
    }

    fn write_at(&mut self, at: u64, bytes: &[u8]) -> Result<(), Failed>
        requires { at ≤ length (memory_bytes self.old) }
        ensures honest { (memory_tells self.new).honest ≡ (memory_tells self.old).honest }
        ensures told { IsWrite at (length bytes.now) (memory_tells self.old) (memory_tells self.new) }
        ensures torn { OnOk result (Allow (Torn at (length bytes.now)) (memory_tells self.old).image (memory_tells self.new).image) }
        ensures done { OnOk result (memory_bytes self.new ≡ overwrite at bytes.now (memory_bytes self.old)) }
        ensures later { memory_faults self.old ≤ memory_faults self.new }
        ensures cause { OnErr result (Rose (memory_faults self.old) (memory_faults self.new)) }
        ensures unmoved { OnOk result (memory_faults self.new ≡ memory_faults self.old) }
        ensures longest { memory_longest_read self.new ≡ memory_longest_read self.old }
        ensures fails { IsTrue (fails_next self.old) → IsErr result }
        ensures counted { memory_made self.new ≡ next_count (memory_made self.old) }
        ensures lists { memory_lists self.new ≡ memory_lists self.old }
    {
        match self.turn() {
            Turn::Works => match self.write(at, bytes.len(), bytes) {
                Ok(()) => Ok(()),
                Err(_) => Err(self.fault()),
            },
            Turn::Fails(fill) => {
                let _ = self.fail_write(at, bytes, fill);
                Err(self.fault())
            }
        }
    }

    fn cut(&mut self, len: u64) -> Result<(), Failed>
        requires { len ≤ length (memory_bytes self.old) }
        ensures honest { (memory_tells self.new).honest ≡ (memory_tells self.old).honest }
        ensures told { IsCut len (memory_tells self.old) (memory_tells self.new) }
        ensures torn { OnOk result (Allow (Cut len) (memory_tells self.old).image (memory_tells self.new).image) }
        ensures done { OnOk result (memory_bytes self.new ≡ take len (memory_bytes self.old)) }
        ensures later { memory_faults self.old ≤ memory_faults self.new }
        ensures cause { OnErr result (Rose (memory_faults self.old) (memory_faults self.new)) }
        ensures unmoved { OnOk result (memory_faults self.new ≡ memory_faults self.old) }
        ensures longest { memory_longest_read self.new ≡ memory_longest_read self.old }
        ensures fails { IsTrue (fails_next self.old) → IsErr result }
        ensures counted { memory_made self.new ≡ next_count (memory_made self.old) }
        ensures lists { memory_lists self.new ≡ memory_lists self.old }
    {
        match self.turn() {
            Turn::Works => match self.cut_to(len, &[]) {
                Ok(()) => Ok(()),
                Err(_) => Err(self.fault()),
            },
            Turn::Fails(fill) => {
                let _ = self.fail_cut(len, fill);
                Err(self.fault())
            }
        }
    }

    fn sync(&mut self) -> Result<(), Failed>
        ensures honest { (memory_tells self.new).honest ≡ (memory_tells self.old).honest }
        ensures told { IsSync (memory_tells self.old) (memory_tells self.new) }
        ensures durable { OnOk result (IsQuiet (memory_tells self.new)) }
        ensures failed { OnErr result ((c : List ℕ) → (memory_tells self.old).image c → (memory_tells self.new).image c) }
        ensures later { memory_faults self.old ≤ memory_faults self.new }
        ensures cause { OnErr result (Rose (memory_faults self.old) (memory_faults self.new)) }
        ensures unmoved { OnOk result (memory_faults self.new ≡ memory_faults self.old) }
        ensures longest { memory_longest_read self.new ≡ memory_longest_read self.old }
        ensures fails { IsTrue (fails_next self.old) → IsErr result }
        ensures counted { memory_made self.new ≡ next_count (memory_made self.old) }
        ensures lists { memory_lists self.new ≡ memory_lists self.old }
    {
        match self.turn() {
            Turn::Works => match self.record_sync() {
                Ok(()) => Ok(()),
                Err(_) => Err(self.fault()),
            },
            Turn::Fails(_) => {
                self.fail_sync();
                Err(self.fault())
            }
        }
    }

    ghost reads_as_image = { λ d honest. reads_are_image d.start.items d.bytes.items d.calls.items d.replayed };

    ghost bounded = { λ d honest. length-bytes-lt d.bytes };

    ghost counts_now = { λ d t c honest le now. now_counts d.start.items d.bytes.items d.calls.items t c le now };

    ghost only_now = { λ d c honest since. now_only d.start.items d.bytes.items d.calls.items c since };
}

// Fills the front of a buffer with the bytes from a place on.
fn copy_from(bytes: &[u8], at: u64, buf: &mut [u8]) -> usize
    ensures fits { result ≤ length buf.old }
    ensures bytes { Fronts bytes.now at result buf.old buf.new }
{
    let start = usize::min(at as usize, bytes.len());
    let n = usize::min(bytes.len() - start, buf.len());
    buf[..n].copy_from_slice(&bytes[start..start + n]);
    n
}

// What a cut that fails leaves in the part to be cut off: what stood there, nothing, or one byte all over.
fn remains(alloc: Global, fill: Fill, part: &[u8]) -> Result<Vec<u8>, AllocError>
    ensures { IfOk result (λ v. length v.items ≤ length part.now) }
{
    match fill {
        Fill::Unwritten => part.to_vec(alloc),
        Fill::Written => Ok(Vec::new(alloc)),
        Fill::With(x) => vec![in alloc; x; part.len()],
    }
}
