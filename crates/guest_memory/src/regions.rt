//! Accesses of the regions.

ghost use Rattle.std.specs.Prelude.{◌≡◌, ℕ, ◌+◌, ◌-◌, ◌^◌, ◌<◌, ◌≤◌, ◌&&◌, ◌++◌, true, false, take};
ghost use Rattle.std.specs.Prelude.{drop, length, map};
ghost use Rattle.std.specs.Prelude.{position, slice_index, slice_set, MatchOption, MatchBool, IfSome, IfNone, vec_len};
ghost use Rattle.std.specs.Prelude.{vec_capacity};
ghost use Rattle.std.specs.List.{list_any};
ghost use Rattle.flat_model.specs.Image.{Segment, end_of, holds};
ghost use Rattle.flat_model.specs.Permission.{Permission, Readable, Writable, grants, span_of, may, may_byte};
ghost use Rattle.flat_model.specs.World.{opening_bytes};
ghost use Rattle.flat_model.specs.Access.{loaded, bytes_from, bytes_of_number};
ghost use Rattle.guest_memory.specs.Memory.{IsLaidOut, IsWritten, IsLoad, permission_of, admits, IsPlace};

use crate::bytes::{bytes_of_number, number, number_at, put_number};
use flat_model::Region;
use flat_model::limits::STACK_STRIDE;

/// What a load and a store ask for.
#[derive(Clone, Copy)]
pub enum Access {
    Read,
    Write,
}

/// The number of bytes of an access.
#[inline(always)]
pub fn size(shift: u8) -> u64
    requires { shift ≤ 3 }
    ensures size { result ≡ 2 ^ shift }
    ensures small { result ≤ 8 }
    ensures some { 1 ≤ result }
{
    match shift {
        0 => 1,
        1 => 2,
        2 => 4,
        _ => 8,
    }
}

/// Whether the `n` bytes from `addr` lie in the region.
#[inline(always)]
fn has(region: &Region, addr: u64, n: u64) -> bool
    ensures { result ≡ holds addr n region.now }
{
    let len = region.bytes.len() as u64;
    region.base <= addr && n <= len && addr - region.base <= len - n
}

#[inline(always)]
fn grants(region: &Region, access: Access) -> bool
    ensures { result ≡ grants (permission_of access) (span_of region.now) }
{
    match access {
        Access::Read => region.r,
        Access::Write => region.w,
    }
}

/// Whether the region grants the access to all `n` bytes from `addr`.
#[inline(always)]
fn admits(region: &Region, access: Access, addr: u64, n: u64) -> bool
    ensures { result ≡ admits access addr n region.now }
{
    grants(region, access) && has(region, addr, n)
}

/// Where a hart's last access lay: the place of a region to look at first. It is a guess, which is checked at each
/// access.
#[derive(Clone, Copy, Debug, Default, PartialEq, Eq)]
pub struct Near {
    place: usize,
}

/// The place to look at first, which may be a wrong one: that of the stack which the address tells, or else of
/// the last region that begins by the address, as in an image whose regions ascend.
#[inline(always)]
fn likely(regions: &[Region], addr: u64) -> usize {
    match regions.last() {
        Some(last) if last.base <= addr => {
            let later = (addr - last.base) / STACK_STRIDE;
            regions.len().saturating_sub(later as usize + 1)
        }
        _ => regions
            .partition_point(|region| region.base <= addr)
            .saturating_sub(1),
    }
}

/// The first place of a region that grants the access to all `n` bytes from `addr`.
#[inline(never)]
fn search(regions: &[Region], access: Access, addr: u64, n: u64) -> Option<usize>
    ensures first { result ≡ position (admits access addr n) regions.now }
{
    regions
        .iter()
        .position(|region| admits(region, access, addr, n))
}

/// The place of a region that grants the access to all `n` bytes from `addr`, from the likely one on.
#[inline(never)]
fn far(regions: &[Region], access: Access, addr: u64, n: u64) -> Option<usize>
    ensures place { MatchOption result (list_any (admits access addr n) regions.now ≡ false) (λ i. IsPlace access addr n regions.now i) }
{
    let guess = likely(regions, addr);
    if guess < regions.len() && admits(&regions[guess], access, addr, n) {
        return Some(guess);
    }
    search(regions, access, addr, n)
}

/// The place of a region that grants the access to all `n` bytes from `addr`: the near one where it does.
#[inline(always)]
fn place(regions: &[Region], near: &mut Near, access: Access, addr: u64, n: u64) -> Option<usize>
    ensures place { MatchOption result (list_any (admits access addr n) regions.now ≡ false) (λ i. IsPlace access addr n regions.now i) }
{
    let last = near.place;
    if last < regions.len() && admits(&regions[last], access, addr, n) {
        return Some(last);
    }
    let found = far(regions, access, addr, n)?;
    near.place = found;
    Some(found)
}

/// The number of the region's bytes from `addr` on.
fn run(region: &Region, addr: u64) -> u64
    requires { holds addr 1 region.now ≡ true }
    ensures { addr + result ≡ end_of region.now }
{
    region.bytes.len() as u64 - (addr - region.base)
}

/// Whether the access to all `n` bytes from `addr` is permitted.
pub fn permits(regions: &[Region], access: Access, addr: u64, n: u64) -> bool
    requires { IsLaidOut regions.now }
    ensures { result ≡ may (map span_of regions.now) (permission_of access) addr n }
{
    let mut at = addr;
    let mut left = n;
    while left > 0 {
        let Some(place) = far(regions, access, at, 1) else {
            return false;
        };
        let run = run(&regions[place], at);
        if left <= run {
            return true;
        }
        at += run;
        left -= run;
    }
    true
}

/// The number that the region holds at `addr`.
#[inline(always)]
fn number_in(region: &Region, addr: u64, shift: u8) -> u64
    requires size { shift ≤ 3 }
    requires inside { holds addr (2 ^ shift) region.now ≡ true }
    ensures { result ≡ loaded (λ at. slice_index region.now.bytes (at - region.now.base)) addr (2 ^ shift) }
{
    number_at(&region.bytes, (addr - region.base) as usize, shift)
}

/// The load in one region.
#[inline(always)]
fn load_within(regions: &[Region], near: &mut Near, addr: u64, shift: u8) -> Option<u64>
    requires size { shift ≤ 3 }
    requires laid_out { IsLaidOut regions.now }
    ensures none { IfNone result (list_any (admits Access.Read addr (2 ^ shift)) regions.now ≡ false) }
    ensures load { IfSome result (λ v. IsLoad (map span_of regions.now) (opening_bytes regions.now) addr (2 ^ shift) v) }
{
    let place = place(regions, near, Access::Read, addr, size(shift))?;
    Some(number_in(&regions[place], addr, shift))
}

/// The byte of the region at `addr`.
fn byte_in(region: &Region, addr: u64) -> u8
    requires { holds addr 1 region.now ≡ true }
    ensures { result ≡ slice_index region.now.bytes (addr - region.now.base) }
{
    region.bytes[(addr - region.base) as usize]
}

/// The byte at `addr`, where it may be read.
fn byte_at(regions: &[Region], addr: u64) -> Option<u8>
    requires { IsLaidOut regions.now }
    ensures { MatchOption result (may_byte (map span_of regions.now) Readable addr ≡ false)
        (λ b. (may_byte (map span_of regions.now) Readable addr ≡ true) × (b ≡ opening_bytes regions.now addr)) }
{
    let place = far(regions, Access::Read, addr, 1)?;
    Some(byte_in(&regions[place], addr))
}

/// The load of bytes that lie in more than one region.
#[inline(never)]
fn load_across(regions: &[Region], addr: u64, shift: u8) -> Option<u64>
    requires size { shift ≤ 3 }
    requires laid_out { IsLaidOut regions.now }
    ensures { MatchOption result (may (map span_of regions.now) Readable addr (2 ^ shift) ≡ false)
        (λ v. IsLoad (map span_of regions.now) (opening_bytes regions.now) addr (2 ^ shift) v) }
{
    let mut raw = [0u8; 8];
    let size = size(shift) as usize;
    for k in 0..size {
        let at = addr.checked_add(k as u64)?;
        raw[k] = byte_at(regions, at)?;
    }
    Some(number(&raw[..size]))
}

/// The little-endian number of the 2^shift bytes from `addr`, where they may be read.
#[inline(always)]
pub fn load(regions: &[Region], near: &mut Near, addr: u64, shift: u8) -> Option<u64>
    requires size { shift ≤ 3 }
    requires laid_out { IsLaidOut regions.now }
    ensures { MatchOption result (may (map span_of regions.now) Readable addr (2 ^ shift) ≡ false)
        (λ v. IsLoad (map span_of regions.now) (opening_bytes regions.now) addr (2 ^ shift) v) }
{
    match load_within(regions, near, addr, shift) {
        Some(value) => Some(value),
        None => load_across(regions, addr, shift),
    }
}

/// Puts a number into the region at `addr`.
#[inline(always)]
fn put_in(region: &mut Region, addr: u64, shift: u8, value: u64)
    requires size { shift ≤ 3 }
    requires inside { holds addr (2 ^ shift) region.old ≡ true }
    ensures { let i = addr - region.old.base in region.new ≡ record region.old {
      bytes = take i region.old.bytes ++
          (take (2 ^ shift) (bytes_of_number value) ++ drop (i + 2 ^ shift) region.old.bytes);
    } }
{
    let place = (addr - region.base) as usize;
    put_number(&mut region.bytes, place, shift, value);
}

/// The store in one region, and whether there is one.
#[inline(always)]
fn store_within(regions: &mut [Region], near: &mut Near, addr: u64, shift: u8, value: u64) -> bool
    requires size { shift ≤ 3 }
    requires laid_out { IsLaidOut regions.old }
    ensures permitted { result ≡ true → may (map span_of regions.old) Writable addr (2 ^ shift) ≡ true }
    ensures written { result ≡ true → IsWritten regions.old regions.new addr (2 ^ shift) value }
    ensures none { result ≡ false → list_any (admits Access.Write addr (2 ^ shift)) regions.old ≡ false }
    ensures unchanged { result ≡ false → regions.new ≡ regions.old }
{
    let Some(place) = place(regions, near, Access::Write, addr, size(shift)) else {
        return false;
    };
    put_in(&mut regions[place], addr, shift, value);
    true
}

/// The permitted store of bytes that lie in more than one region.
#[inline(never)]
fn store_across(regions: &mut [Region], addr: u64, shift: u8, value: u64)
    requires size { shift ≤ 3 }
    requires laid_out { IsLaidOut regions.old }
    requires permitted { may (map span_of regions.old) Writable addr (2 ^ shift) ≡ true }
    ensures { IsWritten regions.old regions.new addr (2 ^ shift) value }
{
    let mut near = Near::default();
    let raw = bytes_of_number(value);
    for k in 0..size(shift) {
        store_within(regions, &mut near, addr + k, 0, raw[k as usize] as u64);
    }
}

/// Stores the 2^shift low bytes of a number at `addr`, and answers whether that is permitted.
#[inline(always)]
pub fn store(regions: &mut [Region], near: &mut Near, addr: u64, shift: u8, value: u64) -> bool
    requires size { shift ≤ 3 }
    requires laid_out { IsLaidOut regions.old }
    ensures permitted { result ≡ may (map span_of regions.old) Writable addr (2 ^ shift) }
    ensures written { result ≡ true → IsWritten regions.old regions.new addr (2 ^ shift) value }
    ensures unchanged { result ≡ false → regions.new ≡ regions.old }
{
    if store_within(regions, near, addr, shift, value) {
        return true;
    }
    if !permits(regions, Access::Write, addr, size(shift)) {
        return false;
    }
    store_across(regions, addr, shift, value);
    true
}

/// The store of SC, which stores only where the reservation holds; answers whether it is permitted.
#[inline(always)]
pub fn store_if(regions: &mut [Region], reserved: bool, addr: u64, shift: u8, value: u64) -> bool
    requires size { shift ≤ 3 }
    requires laid_out { IsLaidOut regions.old }
    ensures permitted { result ≡ may (map span_of regions.old) Writable addr (2 ^ shift) }
    ensures written { result ≡ true → reserved ≡ true → IsWritten regions.old regions.new addr (2 ^ shift) value }
    ensures not_reserved { reserved ≡ false → regions.new ≡ regions.old }
    ensures unchanged { result ≡ false → regions.new ≡ regions.old }
{
    if reserved {
        store(regions, &mut Near::default(), addr, shift, value)
    } else {
        permits(regions, Access::Write, addr, size(shift))
    }
}

/// Appends the region's `n` bytes from `addr`.
fn append_run(region: &Region, addr: u64, n: u64, out: &mut Vec<u8>)
    requires inside { holds addr n region.now ≡ true }
    requires room { vec_len out.old + n ≤ vec_capacity out.old }
    ensures bytes { out.new.items ≡ out.old.items ++ bytes_from (λ at. slice_index region.now.bytes (at - region.now.base)) addr n }
    ensures len { vec_len out.new ≡ vec_len out.old + n }
    ensures capacity { vec_capacity out.old ≤ vec_capacity out.new }
{
    let from = (addr - region.base) as usize;
    let _appended = out.extend_from_slice(&region.bytes[from..from + n as usize]);
}

/// Appends the `n` bytes from `addr`, region by region.
pub fn append(regions: &[Region], addr: u64, n: u64, out: &mut Vec<u8>)
    requires laid_out { IsLaidOut regions.now }
    requires permitted { may (map span_of regions.now) Readable addr n ≡ true }
    requires room { vec_len out.old + n ≤ vec_capacity out.old }
    ensures bytes { out.new.items ≡ out.old.items ++ bytes_from (opening_bytes regions.now) addr n }
    ensures len { vec_len out.new ≡ vec_len out.old + n }
    ensures capacity { vec_capacity out.old ≤ vec_capacity out.new }
{
    let mut at = addr;
    let mut left = n;
    while left > 0 {
        let Some(place) = far(regions, Access::Read, at, 1) else {
            return;
        };
        let region = &regions[place];
        let count = left.min(run(region, at));
        append_run(region, at, count, out);
        at += count;
        left -= count;
    }
}
