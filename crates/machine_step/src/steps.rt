//! All steps of an image.

ghost use Rattle.std.specs.Prelude.{◌≡◌, ◌<◌, ◌≤◌, ◌+◌, ◌^◌, ℕ, List, length, Some, IfOk};
ghost use Rattle.subset_decode.specs.Encoding.{spelling, IsNamed};
ghost use Rattle.xray_image.specs.Program.{IsAccepted};
ghost use Rattle.machine_step.specs.PlainStep.{branched};
ghost use Rattle.machine_step.specs.private.Steps.{IsPlaceOf, IsStepOfInstruction, step_of_sled, IsStepOf, IsStepAt, AreStepsOf};

use crate::step::Step;
use std::alloc::{AllocError, Global};
use std::marker::Model;
use subset_decode::{Instr, LONGEST, encode};
use xray_image::{Image, SledKind, Unit, What};
use xray_io::NoMemory;

/// An image as threads run it: a step for each unit. A step of a branch has the place that it goes
/// to.
///
/// It is made once, and all threads of the image borrow it. In contracts it is the image's program.
#[derive(Drop)]
pub struct Steps<'i> {
    image: &'i Image,
    /// The step at each place.
    all: Vec<Step>,
}

impl<'i> Model for Steps<'i> {
    ghost use Rattle.xray_image.specs.Program.{Program};

    ghost Value = { Program };

    ghost use Rattle.machine_step.specs.private.Inside.{program_run, IsTable};

    ghost view = { program_run };

    ghost invariant = { IsTable };
}

impl<'i> Steps<'i> {
    /// The steps of an image. `NoMemory` means that an allocation was refused.
    pub fn new(alloc: Global, image: &'i Image) -> Result<Steps<'i>, NoMemory>
        ensures program { IfOk result (λ steps. steps ≡ image.now) }
    {
        image.each_was_accepted();
        let all = all_steps(alloc, image)?;
        Ok(Steps { image, all })
    }

    /// The image whose steps they are.
    #[inline]
    pub fn image(&self) -> &'i Image
        ensures program { result.now ≡ self.now }
        // An image is what some accepted file holds.
        ensures accepted { (bytes : List ℕ) × IsAccepted bytes self.now }
    {
        self.image
    }

    /// The step at a place.
    #[inline]
    pub(crate) fn at(&self, place: usize) -> &Step
        requires { place ≤ length self.now.units }
        ensures step { IsStepAt self.now place result.now }
        ensures small { place + 1 < 2 ^ 64 }
    {
        &self.all[place]
    }

    /// The place of an address.
    #[inline]
    pub(crate) fn place_of(&self, address: u64) -> usize
        ensures { IsPlaceOf self.now.units address result }
    {
        place_of(self.image, address) as usize
    }

    /// The place where threads start.
    pub(crate) fn start(&self) -> usize
        ensures place { IsPlaceOf self.now.units self.now.entry result }
        ensures accepted { (bytes : List ℕ) × IsAccepted bytes self.now }
    {
        place_of(self.image, self.image.entry()) as usize
    }
}

/// A step for each unit, and at the end one that is no unit.
fn all_steps(alloc: Global, image: &Image) -> Result<Vec<Step>, AllocError>
    requires { (bytes : List ℕ) × IsAccepted bytes image.now }
    ensures { IfOk result (λ all. AreStepsOf image.now all.items) }
{
    let count = image.unit_count();
    let mut all = Vec::with_capacity(alloc, count as usize + 1)?;
    for place in 0..count {
        all.push_reserved(step_of(image, image.unit(place)));
    }
    all.push_reserved(Step::Nowhere);
    Ok(all)
}

/// The place of an address.
#[inline]
fn place_of(image: &Image, address: u64) -> u32
    ensures { IsPlaceOf image.now.units address result }
{
    match image.unit_at(address) {
        Some(place) => place,
        None => image.unit_count(),
    }
}

/// The place that a branch leads to. Its distance counts from the address `following`.
fn target_of(image: &Image, following: u64, distance: i32) -> u32
    ensures { IsPlaceOf image.now.units (branched following distance) result }
{
    place_of(image, following.wrapping_add_signed(i64::from(distance)))
}

/// The step of an instruction. `following` is the address after it.
fn step_of_instruction(image: &Image, following: u64, instr: Instr) -> Step
    requires { IsNamed instr }
    ensures { IsStepOfInstruction image.now.units following instr result }
{
    match instr {
        Instr::Mov { dst, imm } => Step::Mov { dst, imm },
        Instr::Add { dst, src } => Step::Add { dst, src },
        Instr::Sub { dst, src } => Step::Sub { dst, src },
        Instr::Push { reg } => Step::Push { reg },
        Instr::Pop { reg } => Step::Pop { reg },
        Instr::Call { rel } => Step::Call {
            target: target_of(image, following, rel),
            back: following,
        },
        Instr::Jmp { rel } => Step::Jmp {
            target: target_of(image, following, rel),
        },
        Instr::Jnz { rel } => Step::Jnz {
            target: target_of(image, following, rel),
        },
        Instr::Ret => Step::Ret,
        Instr::Out { .. } => Step::Out,
    }
}

/// The step of the sled with this number and of this kind.
fn step_of_sled(sled: u32, kind: SledKind) -> Step
    ensures { result ≡ step_of_sled sled kind }
{
    match kind {
        SledKind::Entry | SledKind::Tail | SledKind::Args => Step::Passing { sled },
        SledKind::Exit => Step::Leaving { sled },
    }
}

/// The length of an instruction in bytes.
fn length_of(instr: &Instr) -> u8
    ensures exact { result ≡ length (spelling instr.now) }
    ensures short { result ≤ LONGEST }
    ensures named { IsNamed instr.now }
{
    let code = encode(instr);
    code.len
}

/// The step of a unit.
fn step_of(image: &Image, unit: Unit) -> Step
    requires address { unit.address + LONGEST < 2 ^ 64 }
    requires sled { (k : ℕ) → unit.what ≡ What.Sled k → k < length image.now.sleds }
    ensures { IsStepOf image.now unit.address unit.what result }
{
    let Unit { address, what } = unit;
    match what {
        What::Plain(instr) => {
            let length = length_of(&instr);
            step_of_instruction(image, address + u64::from(length), instr)
        }
        What::Sled(k) => {
            let sled = image.sled(k);
            step_of_sled(k, sled.kind)
        }
        What::Pad => Step::Pad,
    }
}
