//! The memory and its calls.

ghost use Rattle.std.specs.Prelude.{◌≡◌, ◌+◌, ◌-◌, ◌%◌, ◌^◌, ◌<◌, ◌≤◌, ◌++◌, Some, true, false};
ghost use Rattle.std.specs.Prelude.{MatchResult, IfOk, vec_len, vec_capacity};
ghost use Rattle.flat_model.specs.Access.{bytes_from};
ghost use Rattle.flat_model.specs.Permission.{Readable, may};
ghost use Rattle.guest_memory.specs.Memory.{MemoryState, IsOpening, IsLoad, IsStore, IsNoStore, IsReserved};
ghost use Rattle.guest_memory.specs.Memory.{IsConditional, spans_in, bytes_of, harts_of};

use crate::opening::{no_reservations, opening_regions};
use crate::regions::{Access, Near, append, load, permits, size, store, store_if};
use crate::reservations::{conclude, end_others, is_reserved};
use flat_model::{Image, NoMemory, Region};
use std::alloc::Global;
use std::marker::Model;

/// The access is not permitted.
#[derive(Clone, Copy, Debug, PartialEq, Eq)]
pub struct Denied;

/// The memory that the harts share: the image's regions and a stack for each hart, and each hart's reservation.
#[derive(Drop)]
pub struct Memory {
    regions: Vec<Region>,
    reservations: Vec<Option<u64>>,
}

impl Model for Memory {
    ghost use Rattle.guest_memory.specs.Memory.{MemoryState, IsLaidOut};

    ghost Value = { MemoryState };

    ghost view = { λ a. record { regions = a.regions.items; reservations = a.reservations.items } };

    ghost invariant = { λ a. IsLaidOut a.regions.items };
}

impl Memory {
    /// The memory that a run of the image on 1 to 32 harts starts with; a stack takes 65,536 bytes.
    pub fn new(alloc: Global, image: &Image, harts: u8) -> Result<Memory, NoMemory>
        requires some { 1 ≤ harts }
        requires most { harts ≤ 32 }
        ensures opening { IfOk result (λ memory. IsOpening image.now harts memory) }
    {
        let _regions = &image.regions;
        let regions = opening_regions(alloc, image, harts)?;
        let reservations = no_reservations(alloc, harts)?;
        Ok(Memory {
            regions,
            reservations,
        })
    }

    /// The little-endian number of the 2^shift bytes from `addr`.
    pub fn read(&self, addr: u64, shift: u8) -> Result<u64, Denied>
        requires size { shift ≤ 3 }
        ensures cases { MatchResult result (λ value. IsLoad (spans_in self.now) (bytes_of self.now) addr (2 ^ shift) value)
            (λ _. may (spans_in self.now) Readable addr (2 ^ shift) ≡ false) }
    {
        self.read_near(&mut Near::default(), addr, shift)
    }

    /// `read`, which looks first where the hart's last access lay.
    #[inline(always)]
    pub fn read_near(&self, near: &mut Near, addr: u64, shift: u8) -> Result<u64, Denied>
        requires size { shift ≤ 3 }
        ensures cases { MatchResult result (λ value. IsLoad (spans_in self.now) (bytes_of self.now) addr (2 ^ shift) value)
            (λ _. may (spans_in self.now) Readable addr (2 ^ shift) ≡ false) }
    {
        match load(&self.regions, near, addr, shift) {
            Some(value) => Ok(value),
            None => Err(Denied),
        }
    }

    /// Stores the 2^shift low bytes of `value` from `addr` on, little-endian, and ends the reservations of
    /// other harts that share a byte with them.
    pub fn write(&mut self, hart: u8, addr: u64, shift: u8, value: u64) -> Result<(), Denied>
        requires hart { hart < harts_of self.old }
        requires size { shift ≤ 3 }
        ensures cases { MatchResult result (λ _. IsStore self.old self.new hart addr (2 ^ shift) value)
            (λ _. IsNoStore self.old self.new addr (2 ^ shift)) }
    {
        self.write_near(&mut Near::default(), hart, addr, shift, value)
    }

    /// `write`, which looks first where the hart's last access lay.
    #[inline(always)]
    pub fn write_near(
        &mut self,
        near: &mut Near,
        hart: u8,
        addr: u64,
        shift: u8,
        value: u64,
    ) -> Result<(), Denied>
        requires hart { hart < harts_of self.old }
        requires size { shift ≤ 3 }
        ensures cases { MatchResult result (λ _. IsStore self.old self.new hart addr (2 ^ shift) value)
            (λ _. IsNoStore self.old self.new addr (2 ^ shift)) }
    {
        if !store(&mut self.regions, near, addr, shift, value) {
            return Err(Denied);
        }
        end_others(&mut self.reservations, hart as usize, addr, size(shift));
        Ok(())
    }

    /// Gives the hart a reservation of the aligned 8 bytes that hold `addr`, in place of an earlier one.
    pub fn reserve(&mut self, hart: u8, addr: u64)
        requires hart { hart < harts_of self.old }
        ensures reserved { IsReserved self.old self.new hart (Some (addr - addr % 8)) }
    {
        self.reservations[hart as usize] = Some(addr - addr % 8);
    }

    /// The store of SC: it stores exactly where the hart's reservation holds all 2^shift bytes from `addr`, and
    /// answers whether it did. At `Ok` the hart's reservation has ended.
    pub fn store_conditional(
        &mut self,
        hart: u8,
        addr: u64,
        shift: u8,
        value: u64,
    ) -> Result<bool, Denied>
        requires hart { hart < harts_of self.old }
        requires size { shift ≤ 3 }
        requires aligned { addr % 2 ^ shift ≡ 0 }
        ensures cases { MatchResult result (λ done. IsConditional self.old self.new hart addr (2 ^ shift) value done)
            (λ _. IsNoStore self.old self.new addr (2 ^ shift)) }
    {
        let reserved = is_reserved(addr, size(shift), self.reservations[hart as usize]);
        if !store_if(&mut self.regions, reserved, addr, shift, value) {
            return Err(Denied);
        }
        conclude(
            &mut self.reservations,
            hart as usize,
            reserved,
            addr,
            size(shift),
        );
        Ok(reserved)
    }

    /// Whether all `n` bytes from `addr` may be read.
    pub fn readable(&self, addr: u64, n: u64) -> bool
        ensures permitted { result ≡ may (spans_in self.now) Readable addr n }
    {
        permits(&self.regions, Access::Read, addr, n)
    }

    /// Appends the `n` bytes from `addr` to bytes that have room for them.
    pub fn append_to(&self, addr: u64, n: u64, out: &mut Vec<u8>)
        requires permitted { may (spans_in self.now) Readable addr n ≡ true }
        requires room { vec_len out.old + n ≤ vec_capacity out.old }
        ensures bytes { out.new.items ≡ out.old.items ++ bytes_from (bytes_of self.now) addr n }
        ensures len { vec_len out.new ≡ vec_len out.old + n }
        ensures capacity { vec_capacity out.old ≤ vec_capacity out.new }
    {
        append(&self.regions, addr, n, out);
    }
}
