//! A desk and a sink in memory, which fail at chosen calls.
ghost use Rattle.std.specs.Prelude.{◌≡◌, ◌≢◌, ◌⊎◌, ℕ, ◌+◌, ◌-◌, ◌≤◌, ◌<◌, ◌↔◌, [], ◌∷◌, ◌++◌, List, Option, Some, None, length, take, drop, min, IfOk, IfSome, OnOk, OnErr, IsErr, IsErrOf, IsNone, IsTrue, Contains};
ghost use Rattle.xray_io.specs.Calls.{Read, Create, Append};
ghost use Rattle.xray_io.specs.Desk.{Absent, Holds, empty_entry, longer_entry};
ghost use Rattle.xray_io.specs.{Faults.{Rose, raised}, Sink.{Adds}};

use crate::{Desk, Failed, NoMemory, ReadFail, Sink};
use std::alloc::Global;
use std::collections::BTreeMap;

/// The calls of a device: how many were made, and the numbers, from 0, of those that are to fail.
#[derive(Drop)]
struct Calls {
    failing: Vec<u64>,
    made: u64,
}

impl Calls {
    /// Counts a call, and returns whether it is to fail.
    fn count_call(&mut self) -> bool
        ensures told { IsTrue result ↔ Contains self.old.failing.items self.old.made }
        ensures counted { self.new.made ≡ raised self.old.made }
        ensures failing { self.new.failing ≡ self.old.failing }
    {
        let number = self.made;
        self.made = self.made.saturating_add(1);
        self.failing.contains(&number)
    }
}

/// A desk in memory. It fails at the calls of `Desk` whose numbers it was made with. `create` and
/// `append` also fail if an allocation is refused. Such refusals have a count of their own.
#[derive(Drop)]
pub struct MemDesk {
    alloc: Global,
    names: BTreeMap<String, Vec<u8>>,
    calls: Calls,
    read_faults: u64,
    write_faults: u64,
    refused: u64,
}

impl MemDesk {
    ghost use Rattle.xray_io.specs.Memory.{desk_entry, desk_calls, desk_failing, desk_refused, desk_read_faults, desk_write_faults};

    /// A desk that holds no name. `failing` has the numbers, from 0, of the calls of `Desk` that
    /// are to fail.
    pub fn new(alloc: Global, failing: Vec<u64>) -> Self
        ensures empty { (name : List ℕ) → desk_entry result name ≡ Absent }
        ensures failing { desk_failing result ≡ failing.items }
        ensures calls { desk_calls result ≡ 0 }
        ensures read_faults { desk_read_faults result ≡ 0 }
        ensures write_faults { desk_write_faults result ≡ 0 }
        ensures refused { desk_refused result ≡ 0 }
    {
        MemDesk {
            alloc,
            names: BTreeMap::new(alloc),
            calls: Calls { failing, made: 0 },
            read_faults: 0,
            write_faults: 0,
            refused: 0,
        }
    }

    /// Sets what a name holds. On `NoMemory` the desk is unchanged.
    pub fn put(&mut self, name: &str, bytes: &[u8]) -> Result<(), NoMemory>
        ensures put { OnOk result (desk_entry self.new name.now ≡ Holds bytes.now) }
        ensures others { (other : List ℕ) → other ≢ name.now →
            desk_entry self.new other ≡ desk_entry self.old other }
        ensures same { OnErr result (desk_entry self.new ≡ desk_entry self.old) }
        ensures failing { desk_failing self.new ≡ desk_failing self.old }
        ensures calls { desk_calls self.new ≡ desk_calls self.old }
        ensures read_faults { desk_read_faults self.new ≡ desk_read_faults self.old }
        ensures write_faults { desk_write_faults self.new ≡ desk_write_faults self.old }
        ensures refused { desk_refused self.new ≡ desk_refused self.old }
    {
        let key = String::from_str(self.alloc, name)?;
        let value = Vec::from_slice(self.alloc, bytes)?;
        self.names.insert(key, value)?;
        Ok(())
    }

    /// What a name holds, or `None` if the desk doesn't hold it.
    pub fn get(&self, name: &str) -> Option<&[u8]>
        ensures absent { IsNone result ↔ (desk_entry self.now name.now ≡ Absent) }
        ensures held { IfSome result (λ bytes. desk_entry self.now name.now ≡ Holds bytes.now) }
    {
        match self.names.get(name) {
            Some(bytes) => Some(bytes.as_slice()),
            None => None,
        }
    }

    /// How many writes failed because memory ran out.
    pub fn refused(&self) -> u64
        ensures { result ≡ desk_refused self.now }
    {
        self.refused
    }

    /// Puts bytes at the end of what a name holds. A name that isn't held is begun.
    fn add(&mut self, name: &str, bytes: &[u8]) -> Result<(), NoMemory>
        ensures added { OnOk result (
            desk_entry self.new name.now ≡ longer_entry (desk_entry self.old name.now) bytes.now) }
        ensures others { (other : List ℕ) → other ≢ name.now →
            desk_entry self.new other ≡ desk_entry self.old other }
        ensures same { OnErr result (desk_entry self.new ≡ desk_entry self.old) }
        ensures failing { desk_failing self.new ≡ desk_failing self.old }
        ensures calls { desk_calls self.new ≡ desk_calls self.old }
        ensures read_faults { desk_read_faults self.new ≡ desk_read_faults self.old }
        ensures write_faults { desk_write_faults self.new ≡ desk_write_faults self.old }
        ensures refused { desk_refused self.new ≡ desk_refused self.old }
    {
        if let Some(held) = self.names.get_mut(name) {
            held.extend_from_slice(bytes)?;
            return Ok(());
        }
        self.put(name, bytes)
    }

    /// Counts a failed write.
    fn fail(&mut self) -> Failed
        ensures counted { self.new ≡ record self.old {
          write_faults = raised self.old.write_faults;
        } }
        ensures later { self.old.write_faults ≤ self.new.write_faults }
    {
        self.write_faults = self.write_faults.saturating_add(1);
        Failed
    }

    /// Counts a write that failed because an allocation was refused.
    fn refuse(&mut self) -> Failed
        ensures counted { self.new ≡ record self.old {
          write_faults = raised self.old.write_faults;
          refused = raised self.old.refused;
        } }
        ensures later { self.old.write_faults ≤ self.new.write_faults }
    {
        self.refused = self.refused.saturating_add(1);
        self.fail()
    }
}

impl Desk for MemDesk {
    ghost use Rattle.xray_io.specs.Memory.{desk_entry, desk_calls, desk_failing, desk_refused, desk_read_faults, desk_write_faults, Counts, counts_none, counts_both};

    ghost held = { desk_entry };

    ghost read_faults = { desk_read_faults };

    ghost write_faults = { desk_write_faults };

    ghost along = { Counts };

    ghost along_none = { counts_none };

    ghost along_both = { counts_both };

    /// Fails exactly when this call is to fail. Otherwise it reads as many bytes as there are and
    /// `buf` has room for.
    fn read(&mut self, name: &str, from: u64, buf: &mut [u8]) -> Result<usize, ReadFail>
        ensures told { IsErrOf result ReadFail.Failed
            ↔ Contains (desk_failing self.old) (desk_calls self.old) }
        ensures absent { desk_entry self.old name.now ≡ Absent → IsErr result }
        ensures count { IfOk result (λ n. (bytes : List ℕ) →
            desk_entry self.old name.now ≡ Holds bytes →
            n ≡ min (length bytes - from) (length buf.new)) }
        ensures counted { desk_calls self.new ≡ raised (desk_calls self.old) }
        ensures fault { IsErrOf result ReadFail.Failed →
            desk_read_faults self.new ≡ raised (desk_read_faults self.old) }
        ensures failing { desk_failing self.new ≡ desk_failing self.old }
        ensures refused { desk_refused self.new ≡ desk_refused self.old }

        ensures within { IfOk result (λ n. n ≤ length buf.new) }
        ensures bytes { IfOk result (λ n. (bytes : List ℕ) →
            desk_entry self.old name.now ≡ Holds bytes →
            take n buf.new ≡ take n (drop from bytes)) }
        ensures end { IfOk result (λ n. (bytes : List ℕ) →
            desk_entry self.old name.now ≡ Holds bytes →
            n ≡ 0 → 0 < length buf.new → length bytes ≤ from) }
        ensures there { OnOk result (desk_entry self.old name.now ≢ Absent) }
        ensures missing { IsErrOf result ReadFail.Missing → desk_entry self.old name.now ≡ Absent }
        ensures no_fault { IsErrOf result ReadFail.Missing →
            desk_read_faults self.new ≡ desk_read_faults self.old }
        ensures failed { IsErrOf result ReadFail.Failed →
            Rose (desk_read_faults self.old) (desk_read_faults self.new) }
        ensures held { desk_entry self.new ≡ desk_entry self.old }
        ensures later { desk_read_faults self.old ≤ desk_read_faults self.new }
        ensures writes { desk_write_faults self.new ≡ desk_write_faults self.old }
        ensures calm { OnOk result (desk_read_faults self.new ≡ desk_read_faults self.old) }
        ensures along { Counts self.old self.new (Read name.now from (length buf.old) result ∷ []) }
    {
        if self.calls.count_call() {
            self.read_faults = self.read_faults.saturating_add(1);
            return Err(ReadFail::Failed);
        }
        match self.names.get(name) {
            Some(bytes) => Ok(copy_from(bytes, from, buf)),
            None => Err(ReadFail::Missing),
        }
    }

    /// Fails exactly when this call is to fail or an allocation is refused. A call that is to fail
    /// counts no refusal.
    fn create(&mut self, name: &str) -> Result<(), Failed>
        ensures told { Contains (desk_failing self.old) (desk_calls self.old) → IsErr result }
        ensures not_asked { Contains (desk_failing self.old) (desk_calls self.old) →
            desk_refused self.new ≡ desk_refused self.old }
        ensures cause { OnErr result (Contains (desk_failing self.old) (desk_calls self.old)
            ⊎ (desk_refused self.new ≡ raised (desk_refused self.old))) }
        ensures not_refused { OnOk result (desk_refused self.new ≡ desk_refused self.old) }
        ensures counted { desk_calls self.new ≡ raised (desk_calls self.old) }
        ensures fault { OnErr result (
            desk_write_faults self.new ≡ raised (desk_write_faults self.old)) }
        ensures failing { desk_failing self.new ≡ desk_failing self.old }

        ensures created { OnOk result (
            desk_entry self.new name.now ≡ empty_entry (desk_entry self.old name.now)) }
        ensures others { (other : List ℕ) → other ≢ name.now →
            desk_entry self.new other ≡ desk_entry self.old other }
        ensures same { OnErr result (desk_entry self.new ≡ desk_entry self.old) }
        ensures failed { OnErr result
            (Rose (desk_write_faults self.old) (desk_write_faults self.new)) }
        ensures later { desk_write_faults self.old ≤ desk_write_faults self.new }
        ensures reads { desk_read_faults self.new ≡ desk_read_faults self.old }
        ensures calm { OnOk result (desk_write_faults self.new ≡ desk_write_faults self.old) }
        ensures along { Counts self.old self.new (Create name.now result ∷ []) }
    {
        if self.calls.count_call() {
            return Err(self.fail());
        }
        match self.put(name, b"") {
            Ok(()) => Ok(()),
            Err(_) => Err(self.refuse()),
        }
    }

    /// Fails exactly when this call is to fail or an allocation is refused. Otherwise it takes all
    /// bytes. A call that is to fail counts no refusal.
    fn append(&mut self, name: &str, bytes: &[u8]) -> Result<usize, Failed>
        ensures all { IfOk result (λ n. n ≡ length bytes.now) }
        ensures told { Contains (desk_failing self.old) (desk_calls self.old) → IsErr result }
        ensures not_asked { Contains (desk_failing self.old) (desk_calls self.old) →
            desk_refused self.new ≡ desk_refused self.old }
        ensures cause { OnErr result (Contains (desk_failing self.old) (desk_calls self.old)
            ⊎ (desk_refused self.new ≡ raised (desk_refused self.old))) }
        ensures not_refused { OnOk result (desk_refused self.new ≡ desk_refused self.old) }
        ensures counted { desk_calls self.new ≡ raised (desk_calls self.old) }
        ensures fault { OnErr result (
            desk_write_faults self.new ≡ raised (desk_write_faults self.old)) }
        ensures failing { desk_failing self.new ≡ desk_failing self.old }

        ensures within { IfOk result (λ n. n ≤ length bytes.now) }
        ensures added { IfOk result (λ n. desk_entry self.new name.now
            ≡ longer_entry (desk_entry self.old name.now) (take n bytes.now)) }
        ensures goes_on { IfOk result (λ n. n ≡ 0 → bytes.now ≡ []) }
        ensures others { (other : List ℕ) → other ≢ name.now →
            desk_entry self.new other ≡ desk_entry self.old other }
        ensures same { OnErr result (desk_entry self.new ≡ desk_entry self.old) }
        ensures failed { OnErr result
            (Rose (desk_write_faults self.old) (desk_write_faults self.new)) }
        ensures later { desk_write_faults self.old ≤ desk_write_faults self.new }
        ensures reads { desk_read_faults self.new ≡ desk_read_faults self.old }
        ensures calm { OnOk result (desk_write_faults self.new ≡ desk_write_faults self.old) }
        ensures along { Counts self.old self.new (Append name.now (length bytes.now) result ∷ []) }
    {
        if self.calls.count_call() {
            return Err(self.fail());
        }
        match self.add(name, bytes) {
            Ok(()) => Ok(bytes.len()),
            Err(_) => Err(self.refuse()),
        }
    }
}

/// Copies the bytes from a place on to the start of the buffer, as many as there are and the buffer
/// has room for. Returns how many.
fn copy_from(bytes: &[u8], from: u64, buf: &mut [u8]) -> usize
    ensures count { result ≡ min (length bytes.now - from) (length buf.old) }
    ensures copied { take result buf.new ≡ take result (drop from bytes.now) }
{
    if from >= bytes.len() as u64 {
        return 0;
    }
    let rest = &bytes[from as usize..];
    let count = rest.len().min(buf.len());
    buf[..count].copy_from_slice(&rest[..count]);
    count
}

/// A sink in memory. It fails at the calls of `Sink` whose numbers it was made with, and if an
/// allocation is refused. Such refusals have a count of their own.
#[derive(Drop)]
pub struct MemSink {
    bytes: Vec<u8>,
    calls: Calls,
    faults: u64,
    refused: u64,
}

impl MemSink {
    ghost use Rattle.xray_io.specs.Memory.{sink_bytes, sink_calls, sink_failing, sink_refused, sink_faults};

    /// A sink that nothing was written to. `failing` has the numbers, from 0, of the calls of
    /// `Sink` that are to fail.
    pub fn new(alloc: Global, failing: Vec<u64>) -> Self
        ensures empty { sink_bytes result ≡ [] }
        ensures failing { sink_failing result ≡ failing.items }
        ensures calls { sink_calls result ≡ 0 }
        ensures faults { sink_faults result ≡ 0 }
        ensures refused { sink_refused result ≡ 0 }
    {
        MemSink {
            bytes: Vec::new(alloc),
            calls: Calls { failing, made: 0 },
            faults: 0,
            refused: 0,
        }
    }

    /// All that was written.
    pub fn bytes(&self) -> &[u8]
        ensures { result.now ≡ sink_bytes self.now }
    {
        &self.bytes
    }

    /// How many writes failed because memory ran out.
    pub fn refused(&self) -> u64
        ensures { result ≡ sink_refused self.now }
    {
        self.refused
    }
}

impl Sink for MemSink {
    ghost use Rattle.xray_io.specs.Memory.{sink_bytes, sink_calls, sink_failing, sink_refused, sink_faults};

    ghost written = { λ sink. Some (sink_bytes sink) };

    ghost faults = { sink_faults };

    ghost along = { λ _ _ _. Unit {0} };

    /// Fails exactly when this call is to fail or an allocation is refused. Otherwise it takes all
    /// bytes. A call that is to fail counts no refusal.
    fn write(&mut self, bytes: &[u8]) -> Result<usize, Failed>
        ensures told { Contains (sink_failing self.old) (sink_calls self.old) → IsErr result }
        ensures not_asked { Contains (sink_failing self.old) (sink_calls self.old) →
            sink_refused self.new ≡ sink_refused self.old }
        ensures cause { OnErr result (Contains (sink_failing self.old) (sink_calls self.old)
            ⊎ (sink_refused self.new ≡ raised (sink_refused self.old))) }
        ensures not_refused { OnOk result (sink_refused self.new ≡ sink_refused self.old) }
        ensures all { OnOk result (sink_bytes self.new ≡ sink_bytes self.old ++ bytes.now) }
        ensures none { OnErr result (sink_bytes self.new ≡ sink_bytes self.old) }
        ensures counted { sink_calls self.new ≡ raised (sink_calls self.old) }
        ensures fault { OnErr result (
            sink_faults self.new ≡ raised (sink_faults self.old)) }
        ensures failing { sink_failing self.new ≡ sink_failing self.old }

        ensures within { IfOk result (λ n. n ≤ length bytes.now) }
        ensures taken { IfOk result (λ n.
            Adds (Some (sink_bytes self.old)) (Some (sink_bytes self.new)) (take n bytes.now)) }
        ensures goes_on { IfOk result (λ n. n ≡ 0 → bytes.now ≡ []) }
        ensures same { OnErr result (Some (sink_bytes self.new) ≡ Some (sink_bytes self.old)) }
        ensures failed { OnErr result (Rose (sink_faults self.old) (sink_faults self.new)) }
        ensures later { sink_faults self.old ≤ sink_faults self.new }
        ensures calm { OnOk result (sink_faults self.new ≡ sink_faults self.old) }
        ensures along { Unit {0} }
    {
        if self.calls.count_call() {
            self.faults = self.faults.saturating_add(1);
            return Err(Failed);
        }
        match self.bytes.extend_from_slice(bytes) {
            Ok(()) => Ok(bytes.len()),
            Err(_) => {
                self.refused = self.refused.saturating_add(1);
                self.faults = self.faults.saturating_add(1);
                Err(Failed)
            }
        }
    }

    ghost along_none = { λ _. tt };

    ghost along_both = { λ _ _ _ _ _ _ _. tt };
}
