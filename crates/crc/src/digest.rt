//! A checksum that is computed as its message comes in.

ghost use Rattle.std.specs.Prelude.{◌≡◌, ◌<◌, ◌≤◌, ◌*◌, ◌-◌, ◌^◌, ◌++◌, ℕ, List, []};
ghost use Rattle.crc.specs.{IsCrc, Parameters, Progress, Took, read};

use crate::crc::Crc;
use crate::implementation::{Implementation, Table};
use crate::register;
use crate::width::Width;
use std::marker::Model;

/// The checksum of a message that comes in pieces. A contract sees it as [`Progress`]: `Took` says
/// what it has taken.
#[derive(Drop)]
pub struct Digest<'a, W: Width, I: Implementation<W> = Table<W>> {
    crc: &'a Crc<W, I>,
    register: W,
}

impl<'a, W: Width, I: Implementation<W>> Model for Digest<'a, W, I> {
    ghost Value = { Progress };

    ghost view = { λ d. record {
      algorithm = d.crc.now;
      bits = 8 * W.size;
      register = W.number d.register;
    } };
}

impl<'a, W: Width, I: Implementation<W>> Digest<'a, W, I> {
    pub(crate) fn new(crc: &'a Crc<W, I>, initial: W) -> Digest<'a, W, I>
        requires { W.number initial < 2 ^ crc.now.width }
        ensures { Took result (record crc.now { init = W.number initial }) [] }
    {
        let bits = W::bits();
        let gap = bits - u32::from(crc.algorithm.width);
        let lifted = register::raised(initial.to_u128(), gap, bits);
        let register = W::from_u128(register::in_order(crc.algorithm.refin, bits, lifted));
        Digest { crc, register }
    }

    /// Takes more bytes of the message.
    pub fn update(&mut self, bytes: &[u8])
        ensures { (a : Parameters) (m : List ℕ)
            → Took self.old a m → Took self.new a (m ++ bytes.now) }
    {
        let crc = self.crc;
        self.register = crc.tables.update(&crc.algorithm, self.register, bytes);
    }

    /// Returns the checksum of the bytes taken.
    pub fn finalize(self) -> W
        ensures { (a : Parameters) (m : List ℕ)
            → Took self.entry a m → IsCrc a m (W.number result) }
    {
        let crc = self.crc;
        let algorithm = &crc.algorithm;
        let bits = W::bits();
        let gap = bits - u32::from(algorithm.width);
        let register = self.register.to_u128();
        let remainder = read(algorithm.refin, algorithm.refout, bits, gap, register);
        W::from_u128(remainder ^ algorithm.xorout.to_u128())
    }
}

/// Returns the remainder, reversed if `refout`, of a register that has it reversed if `refin`, or
/// else above `gap` bits.
fn read(refin: bool, refout: bool, bits: u32, gap: u32, register: u128) -> u128
    requires some { 1 ≤ bits }
    requires few { bits ≤ 128 }
    requires narrow { gap < bits }
    requires fits { register < 2 ^ bits }
    ensures { result ≡ read refin refout bits gap register }
{
    match (refin, refout) {
        (true, true) => register,
        (false, false) => register >> gap,
        (true, false) => register::in_order(true, bits, register) >> gap,
        (false, true) => register::in_order(true, bits, register),
    }
}
