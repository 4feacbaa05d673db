//! Bit strings of at most 128 bits, written and read field by field, the most significant bit first.
//!
//! Where fields of an element aren't whole octets, the standard's tables give each field's width in bits, in their order.
//! [`BitWriter`] puts fields behind each other and appends the octets that they fill; [`BitReader`] takes fields from the front
//! of octets. What octets are, given widths and the fields' numbers, is `Fields` in `specs/`; nothing here knows an element.
ghost use Rattle.std.specs.Prelude.{◌≡◌, ◌≢◌, [], ◌+◌, ◌-◌, ◌*◌, ◌%◌, ◌/◌, ◌^◌, ◌<◌, ◌≤◌, ◌++◌, length, take, drop, IfSome, IfNone, OnSome};
ghost use Rattle.octet_elements.specs.Bits.{bits, bits_of, number_of, octets_of};
ghost use Rattle.octet_elements.specs.Writing.{Appends};

use crate::write::{append_octets, make_room};
use std::alloc::{AllocError, Allocator};
use std::marker::Model;

/// A bit string of 0 to 128 bits that grows at its end.
#[derive(Drop)]
pub struct BitWriter {
    number: u128,
    len: u32,
}

impl Model for BitWriter {
    ghost use Rattle.std.specs.Prelude.{List, ℕ, ◌≤◌, ◌<◌, ◌^◌};
    ghost use Rattle.octet_elements.specs.Bits.{bits};

    ghost Value = { List ℕ };

    ghost view = { λ a. bits a.len a.number };

    ghost invariant = { λ a. (a.len ≤ 128) × (a.number < 2 ^ a.len) };
}

impl BitWriter {
    /// No bits.
    #[inline]
    pub fn new() -> Self
        ensures { result ≡ [] }
    {
        BitWriter { number: 0, len: 0 }
    }

    /// Puts a number at the end as so many bits, at most eight. The number has no more bits than these, and the string
    /// has room for them within its 128.
    #[inline]
    pub fn put(&mut self, width: u32, value: u8)
        requires narrow { width ≤ 8 }
        requires fits { value < 2 ^ width }
        requires room { length self.old + width ≤ 128 }
        ensures bits { self.new ≡ self.old ++ bits width value }
        ensures len { length self.new ≡ length self.old + width }
    {
        self.number = (self.number << width) | u128::from(value);
        self.len += width;
    }

    /// Puts zeros at the end, until there are `len` bits, at most 128. At least one bit stands there before, and no more
    /// than `len`.
    #[inline]
    pub fn pad_to(&mut self, len: u32)
        requires some { 0 < length self.old }
        requires room { (length self.old ≤ len) × (len ≤ 128) }
        ensures bits { self.new ≡ self.old ++ bits (len - length self.old) 0 }
        ensures len { length self.new ≡ len }
    {
        self.number = self.number << (len - self.len);
        self.len = len;
    }

    /// Appends the octets of the bit string, whose length is a multiple of eight: all of them, or none if memory is refused,
    /// which comes only where the list has no room for them. A list that has room keeps its capacity. The first bit is the
    /// first octet's highest.
    #[inline]
    pub fn append_to<A: Allocator + Copy>(self, out: &mut Vec<u8, A>) -> Result<(), AllocError>
        requires whole { length self % 8 ≡ 0 }
        ensures written { Appends (octets_of self) out.old out.new result }
    {
        let octets = self.number.to_be_bytes();
        let count = (self.len / 8) as usize;
        make_room(out, count)?;
        append_octets(out, &octets[16 - count..]);
        Ok(())
    }
}

/// The bits that are left of a bit string, 0 to 128, which is read from its front.
#[derive(Drop)]
pub struct BitReader {
    // The bits that are left stand at the top.
    number: u128,
    len: u32,
}

impl Model for BitReader {
    ghost use Rattle.std.specs.Prelude.{List, ℕ, ◌≤◌, take};
    ghost use Rattle.octet_elements.specs.Bits.{bits};

    ghost Value = { List ℕ };

    ghost view = { λ a. take a.len (bits 128 a.number) };

    ghost invariant = { λ a. a.len ≤ 128 };
}

impl BitReader {
    /// All bits of so many octets, one to sixteen; `None` if there are fewer or more.
    #[inline]
    pub fn new(octets: &[u8], count: usize) -> Option<Self>
        requires some { 0 < count }
        requires few { count ≤ 16 }
        ensures bits { IfSome result (λ reader. reader ≡ bits_of octets.now) }
        ensures len { IfSome result (λ reader. length reader ≡ 8 * count) }
        ensures count { OnSome result (length octets.now ≡ count) }
        ensures none { IfNone result (length octets.now ≢ count) }
    {
        if octets.len() != count {
            return None;
        }
        let mut bits = BitWriter::new();
        for octet in octets {
            bits.put(8, *octet);
        }
        Some(BitReader {
            number: bits.number << (128 - bits.len),
            len: bits.len,
        })
    }

    /// All bits of sixteen octets, which are read as two words; `None` if there are fewer or more.
    #[inline]
    pub fn sixteen(octets: &[u8]) -> Option<Self>
        ensures bits { IfSome result (λ reader. reader ≡ bits_of octets.now) }
        ensures len { IfSome result (λ reader. length reader ≡ 128) }
        ensures count { OnSome result (length octets.now ≡ 16) }
        ensures none { IfNone result (length octets.now ≢ 16) }
    {
        let (high, low) = octets.split_first_chunk::<8>()?;
        let low = low.as_array::<8>()?;
        let high = u64::from_be_bytes(*high);
        let low = u64::from_be_bytes(*low);
        Some(BitReader {
            number: (u128::from(high) << 64) | u128::from(low),
            len: 128,
        })
    }

    /// The number of the next bits, one to eight, which are then read; at least so many are left before.
    #[inline]
    pub fn take(&mut self, width: u32) -> u8
        requires some { 0 < width }
        requires narrow { width ≤ 8 }
        requires enough { width ≤ length self.old }
        ensures number { result ≡ number_of (take width self.old) }
        ensures range { result < 2 ^ width }
        ensures rest { self.new ≡ drop width self.old }
        ensures left { length self.new + width ≡ length self.old }
    {
        let number = (self.number >> (128 - width)) as u8;
        self.number = self.number << width;
        self.len -= width;
        number
    }
}
