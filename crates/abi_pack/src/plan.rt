ghost use Rattle.std.specs.Prelude.{slice_index};
ghost use Rattle.abi_pack.specs.ByteMap.{AreBytes};

use crate::change::change;
use crate::counting::{MAX_VALUES, values};
use crate::edit_fault::edit_fault;
use crate::fits::fits;
use crate::image::Image;
use crate::read::read;
use crate::shown::is_shown;
use crate::sides::size;
use crate::step::Step;
use crate::value::{Bytes, Value};
use crate::write::{packed, write};
use abi_det::{Layout, Rules};
use abi_layout::{Desc, DescError, LaidOut, Part, PlacedList, lay_out};
use abi_num::{OutOfMemory, Target};
use std::alloc::Global;
use std::marker::Model;

/// Why bytes are not read.
#[derive(Debug, Clone, Copy, PartialEq, Eq)]
pub enum ReadError {
    /// There are not as many bytes as the description has.
    WrongLength,
    /// There are as many, and they show no value.
    IllegalBytes,
    /// There are as many, and memory was refused, or more than `MAX_VALUES` values are in the one that they show.
    OutOfMemory,
}

/// Why a value is not edited.
#[derive(Debug, Clone, Copy, PartialEq, Eq)]
pub enum EditError {
    /// The first step that fails names no part of the description.
    NoSuchPath,
    /// The first step that fails enters a variant in which the value is not.
    WrongVariant,
    /// The value to be put there is none of the part's.
    WrongPart,
}

/// What each byte of a description means, enough to pack its values and to read them back; its layout, and its
/// packed sums.
#[derive(Drop)]
pub struct Plan {
    part: Part,
    layout: Layout,
    placed: PlacedList,
}

impl Model for Plan {
    ghost use Rattle.abi_pack.specs.Packing.{Packing, packing};
    ghost use Rattle.abi_layout.specs.contracts.part.Part as e;
    ghost use Rattle.abi_bits.specs.ForbiddenCode.{forbidden_code};
    ghost use Rattle.std.specs.Coded.{codes};

    ghost Value = { Packing };

    ghost coded = { Prim.hlevel (codes, forbidden_code, e.the_row.coded) };

    ghost use Rattle.abi_pack.specs.PlanShape.{IsPlan};

    ghost view = { λ p. packing p.part p.layout p.placed };

    ghost invariant = { λ p. IsPlan p.part p.layout p.placed };
}

impl Plan {
    ghost use Rattle.std.specs.Prelude.{◌≡◌, IfOk, IfErr, OnOk, OnErr, length};
    ghost use Rattle.abi_layout.specs.Trees.{tree};
    ghost use Rattle.abi_layout.specs.Faults.{IsFault, desc_fault};
    ghost use Rattle.abi_pack.specs.Packing.{IsPlanOf, OfPlan};
    ghost use Rattle.abi_pack.specs.PlanCalls.{TellsFit, IsFit, AreBytesFor, packed_by, AreShownBy, TellsShown, TellsManyShown, IsEditBy, IsRefusedBy};
    ghost use Rattle.abi_pack.specs.Reading.{IsReading};

    /// The plan of a description on a target. Refused as `layout_of` is.
    pub fn of(alloc: Global, target: &Target, desc: &Desc) -> Result<Plan, DescError>
        ensures ok { IfOk result (λ p. IsPlanOf p Rules.One target.now (tree desc.now)) }
        ensures err { IfErr result (IsFault (desc_fault Rules.One target.now (tree desc.now))) }
    {
        let LaidOut {
            part,
            layout,
            placed,
        } = lay_out(alloc, Rules::One, target, desc)?;
        Ok(Plan {
            part,
            layout,
            placed,
        })
    }

    /// The layout of the description.
    pub fn layout(&self) -> &Layout
        ensures { result.now ≡ self.now.layout }
    {
        &self.layout
    }

    /// The packed sums of the description in pre-order.
    pub fn placed(&self) -> &PlacedList
        ensures { result.now ≡ self.now.sums }
    {
        &self.placed
    }

    /// Whether the value is one of the description. Takes no memory.
    pub fn fits(&self, value: &Value) -> bool
        ensures { TellsFit self.now value.now result }
    {
        fits(&self.part, value)
    }

    /// Writes the canonical bytes of the value, whatever stood there: they show the value, and every bit that it
    /// does not hold is 0. The value must fit, and `out` must be as long as the layout's size. Takes no memory.
    pub fn write(&self, value: &Value, out: &mut [u8])
        requires fits { IsFit self.now value.now }
        requires room { length out.old ≡ self.now.layout.size }
        ensures { AreBytesFor self.now value.now out.new }
    {
        write(&self.part, value, out);
    }

    /// The canonical bytes of the value, which must fit.
    pub(crate) fn packed(&self, alloc: Global, value: &Value) -> Result<Vec<u8>, OutOfMemory>
        requires fits { IsFit self.now value.now }
        ensures bytes { IfOk result (λ bytes. bytes.items ≡ packed_by self.now value.now) }
    {
        let bytes = packed(alloc, &self.part, value)?;
        Ok(bytes)
    }

    /// An image of these bytes, with the layout and the packed sums of the description.
    pub(crate) fn into_image(self, bytes: Bytes) -> Image
        ensures { result ≡ record { layout = self.layout; placed = self.sums; bytes = bytes } }
    {
        Image {
            layout: self.layout,
            placed: self.placed,
            bytes,
        }
    }

    /// Whether there are as many bytes as the layout's size, and they show a value. Takes no memory.
    pub fn shown(&self, bytes: &[u8]) -> bool
        ensures { TellsShown self.now bytes.now result }
    {
        if bytes.len() != size(&self.part) {
            return false;
        }
        is_shown(&self.part, bytes, 0)
    }

    /// Whether more than `MAX_VALUES` values are in the one that the bytes show, itself among them. Of bytes that show
    /// no value it tells nothing. Takes no memory, and ends where it has counted so many.
    pub fn shows_many(&self, bytes: &[u8]) -> bool
        ensures { TellsManyShown self.now bytes.now result }
    {
        if bytes.len() != size(&self.part) {
            return false;
        }
        MAX_VALUES < values(&self.part, bytes, 0, 0)
    }

    /// Puts the value in place of the part at the path, in bytes that show a value: they then show the edited value,
    /// with 0 at every bit of the part's bytes that it does not hold, and no byte beside these changes. Refused where
    /// the path leads nowhere or the value is none of the part's; the bytes are then as they were. Takes no memory.
    pub fn edit(&self, bytes: &mut [u8], path: &[Step], value: &Value) -> Result<(), EditError>
        requires shown { AreShownBy self.now bytes.old }
        ensures ok { OnOk result (IsEditBy self.now path.now value.now bytes.old bytes.new) }
        ensures err { IfErr result (IsRefusedBy self.now path.now value.now bytes.old) }
        ensures unchanged { OnErr result (bytes.new ≡ bytes.old) }
    {
        are_bytes(bytes);
        match edit_fault(&self.part, bytes, 0, path, value) {
            Some(error) => Err(error),
            None => {
                change(&self.part, bytes, path, value);
                Ok(())
            }
        }
    }

    /// The value that the bytes show. Values are counted first, so that no more than `MAX_VALUES` are ever looked at.
    pub fn read(&self, alloc: Global, bytes: &[u8]) -> Result<Value, ReadError>
        ensures { OfPlan self.now (λ rules target t. IsReading rules target t bytes.now result) }
    {
        if bytes.len() != size(&self.part) {
            return Err(ReadError::WrongLength);
        }
        if self.shows_many(bytes) {
            return Err(ReadError::OutOfMemory);
        }
        if !is_shown(&self.part, bytes, 0) {
            return Err(ReadError::IllegalBytes);
        }
        match read(alloc, &self.part, bytes, 0) {
            Ok(value) => Ok(value),
            Err(_) => Err(ReadError::OutOfMemory),
        }
    }
}

/// Each is a byte: of bytes that a later call changes this is said before it.
fn are_bytes(bytes: &[u8])
    ensures { AreBytes (slice_index bytes.now) }
{}
