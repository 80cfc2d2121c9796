//! The marks of a thread.

ghost use Rattle.std.specs.Prelude.{◌≡◌, ◌<◌, ◌≤◌, ◌↔◌, ℕ, ◌+◌, ◌-◌, ◌/◌, [], ◌∷◌, ◌++◌, drop, get_or, length, replicate, slice_get, vec_capacity, Some, IsTrue, IfOk};
ghost use Rattle.handler_word.specs.private.Bits.{mark_of, marks_from, IsFilledTo};
ghost use Rattle.handler_word.specs.private.Marks.{marks_in, IsPacked};
ghost use Rattle.handler_word.specs.MarkList.{MarkList, recorded_count};

use crate::Mark;
use std::alloc::Global;
use std::marker::Model;
use xray_io::NoMemory;

/// How many marks fit a byte.
pub(crate) const MARKS_IN_BYTE: u32 = 2;

/// How many bits a mark has.
const BITS_OF_MARK: u32 = 4;

/// The bits of the first mark of a byte.
const MARK_MASK: u8 = 0b1111;

/// What the bits of a mark are multiplied by for a byte whose two marks are this one.
const EACH_MARK: u8 = 0b0001_0001;

/// The marks of a thread's passings, in the order of the passings. There is room for a fixed number
/// of them.
#[derive(Drop)]
pub struct Marks {
    /// Two marks per byte. The first is in the low bits.
    bytes: Vec<u8>,
    /// How many marks there are.
    len: u32,
    /// How many of them are of passings that recorded an event.
    recorded: u32,
    /// The most marks that there may be.
    room: u32,
}

impl Model for Marks {
    ghost Value = { MarkList };

    ghost view = { marks_in };

    ghost invariant = { IsPacked };
}

impl Marks {
    /// No marks yet, with room for `room` of them. `NoMemory` means that an allocation was refused.
    pub fn new(alloc: Global, room: u32) -> Result<Marks, NoMemory>
        ensures { IfOk result (λ marks. marks ≡ record { items = []; room = room }) }
    {
        Ok(Marks {
            bytes: Vec::with_capacity(alloc, room.div_ceil(MARKS_IN_BYTE) as usize)?,
            len: 0,
            recorded: 0,
            room,
        })
    }

    /// Adds a mark after the others. There has to be room for it: `is_full` says whether there is
    /// none.
    pub fn add(&mut self, mark: Mark)
        requires { length self.old.items < self.old.room }
        ensures items { self.new.items ≡ self.old.items ++ mark ∷ [] }
        ensures room { self.new.room ≡ self.old.room }
    {
        put_bits(&mut self.bytes, self.len, mark.bits());
        self.len += 1;
        self.recorded += u32::from(mark.is_recorded());
    }

    /// How many marks there are.
    pub fn len(&self) -> u32
        ensures count { result ≡ length self.now.items }
        ensures within { result ≤ self.now.room }
    {
        self.len
    }

    /// Whether there are none.
    pub fn is_empty(&self) -> bool
        ensures { IsTrue result ↔ (self.now.items ≡ []) }
    {
        self.len == 0
    }

    /// Whether there is no room for another mark.
    pub fn is_full(&self) -> bool
        ensures { IsTrue result ↔ (self.now.room ≤ length self.now.items) }
    {
        self.len == self.room
    }

    /// The mark of this passing, counted from 0. There has to be one: `n` is below `len`.
    pub fn get(&self, n: u32) -> Mark
        requires { n < length self.now.items }
        ensures { slice_get self.now.items n ≡ Some result }
    {
        let byte = self.bytes[(n / MARKS_IN_BYTE) as usize];
        Mark::from_bits((byte >> (n % MARKS_IN_BYTE * BITS_OF_MARK)) & MARK_MASK)
    }

    /// How many marks from number `first` on are `mark`: at least 1, and perhaps not all of them. If
    /// `first` begins a byte of two such marks, all marks of that byte and of the equal bytes after
    /// it are counted.
    pub(crate) fn alike_from(&self, first: u32, mark: Mark) -> u32
        requires { slice_get self.now.items first ≡ Some mark }
        ensures some { 0 < result }
        ensures within { first + result ≤ length self.now.items }
        ensures same { drop first self.now.items
            ≡ replicate result mark ++ drop (first + result) self.now.items }
    {
        let end = self.end_of_bytes(first, mark);
        if end == first { 1 } else { end - first }
    }

    /// The number of the first mark from `first` on that isn't in a byte of two marks that are both
    /// `mark`. No byte is looked at unless `first` is the first mark of one.
    fn end_of_bytes(&self, first: u32, mark: Mark) -> u32
        requires { first ≤ length self.now.items }
        ensures from { first ≤ result }
        ensures within { result ≤ length self.now.items }
        ensures same { drop first self.now.items
            ≡ replicate (result - first) mark ++ drop result self.now.items }
    {
        if first % MARKS_IN_BYTE != 0 {
            return first;
        }
        let full = (self.len / MARKS_IN_BYTE) as usize;
        let alike = mark.bits() * EACH_MARK;
        let end = end_of_alike(&self.bytes[..full], (first / MARKS_IN_BYTE) as usize, alike);
        end as u32 * MARKS_IN_BYTE
    }

    /// How many of the marks are of passings that recorded an event: `Recorded` and `RecordedArg`.
    pub fn recorded(&self) -> u32
        ensures { result ≡ recorded_count self.now.items }
    {
        self.recorded
    }
}

/// The place of the first byte from `start` on that isn't `byte`.
fn end_of_alike(bytes: &[u8], start: usize, byte: u8) -> usize
    requires { start ≤ length bytes.now }
    ensures from { start ≤ result }
    ensures within { result ≤ length bytes.now }
    ensures alike { (i : ℕ) → start ≤ i → i < result → get_or bytes.now i 0 ≡ byte }
{
    let mut end = start;
    'alike: while end < bytes.len() && bytes[end] == byte {
        end += 1;
    }
    end
}

/// Puts the bits of a mark after those of `marks` marks.
fn put_bits(bytes: &mut Vec<u8>, marks: u32, bits: u8)
    requires filled { IsFilledTo bytes.old.items marks }
    requires room { marks / MARKS_IN_BYTE < vec_capacity bytes.old }
    requires small { bits < 16 }
    ensures marks { marks_from bytes.new.items 0 (marks + 1)
        ≡ marks_from bytes.old.items 0 marks ++ mark_of bits ∷ [] }
    ensures filled { IsFilledTo bytes.new.items (marks + 1) }
    ensures room { vec_capacity bytes.new ≡ vec_capacity bytes.old }
{
    let place = marks % MARKS_IN_BYTE;
    if place == 0 {
        bytes.push_reserved(bits);
    } else {
        bytes[(marks / MARKS_IN_BYTE) as usize] |= bits << (place * BITS_OF_MARK);
    }
}
