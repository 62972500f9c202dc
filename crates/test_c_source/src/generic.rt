//! Type parameters, traits with types and constants of their own, closures, and arrays of a length
//! that is a parameter.

ghost use Rattle.std.specs.Prelude.{◌≤◌};

/// A rule by which numbers are joined.
trait Join {
    /// The type of the parts that are joined.
    type Part: Copy;
    /// Returns a part of a number.
    fn part(&self, n: u64) -> Self::Part;
    /// Joins a part to a number.
    fn join(&self, sum: u64, part: Self::Part) -> u64;
    /// Joins two numbers.
    fn both(&self, a: u64, b: u64) -> u64 {
        self.join(a, self.part(b))
    }
}

#[derive(Drop)]
struct Bytes;

#[derive(Drop)]
struct Words {
    salt: u32,
}

#[derive(Drop)]
struct Twice<T> {
    inner: T,
}

impl Join for Bytes {
    type Part = u8;

    fn part(&self, n: u64) -> u8 {
        (n & 0xff) as u8
    }

    fn join(&self, sum: u64, part: u8) -> u64 {
        sum.wrapping_mul(257).wrapping_add(u64::from(part))
    }
}

impl Join for Words {
    type Part = (u32, bool);

    fn part(&self, n: u64) -> (u32, bool) {
        ((n >> 32) as u32 ^ self.salt, n > 1000)
    }

    fn join(&self, sum: u64, part: (u32, bool)) -> u64 {
        if part.1 {
            sum ^ u64::from(part.0)
        } else {
            sum.wrapping_sub(u64::from(part.0))
        }
    }
}

impl<T: Join> Join for Twice<T> {
    type Part = (T::Part, T::Part);

    fn part(&self, n: u64) -> (T::Part, T::Part) {
        (self.inner.part(n), self.inner.part(!n))
    }

    fn join(&self, sum: u64, part: (T::Part, T::Part)) -> u64 {
        self.inner.join(self.inner.join(sum, part.0), part.1)
    }
}

fn fold<T: Join>(rule: &T, a: u64, b: u64, count: u8) -> u64 {
    let mut sum = a;
    for i in 0..count {
        sum = rule.both(sum, b.wrapping_add(u64::from(i)));
    }
    sum
}

/// Returns what a rule, and rules made of rules, make of numbers.
#[unsafe(no_mangle)]
pub extern "C" fn rules(kind: u32, a: u64, b: u64, count: u8) -> u64 {
    match kind % 4 {
        0 => fold(&Bytes, a, b, count),
        1 => fold(&Words { salt: kind }, a, b, count),
        2 => fold(&Twice { inner: Bytes }, a, b, count),
        _ => fold(
            &Twice {
                inner: Twice {
                    inner: Words { salt: 77 },
                },
            },
            a,
            b,
            count,
        ),
    }
}

fn apply<F: Fn(u64) -> u64>(f: F, n: u64) -> u64
    requires { (x : _) → F.pre f x }
{
    f(f(n))
}

/// Returns what closures that take in their surroundings make of a number.
#[unsafe(no_mangle)]
pub extern "C" fn closures(kind: u32, a: u64, b: u64) -> u64 {
    let salt = a ^ 0x5555;
    if kind % 2 == 0 {
        apply(|n| n.wrapping_mul(salt) ^ b, a)
    } else {
        apply(|n| n.wrapping_add(b), salt)
    }
}

fn mixed<const N: usize>(n: u64) -> u64
    requires { N ≤ 64 }
{
    let mut row = [0; N];
    for i in 0..N {
        row[i] = n.wrapping_mul((i as u64).wrapping_add(3));
    }
    let copied = row;
    let mut sum = N as u64;
    for i in 0..N {
        row[i] = 1;
        sum = sum.wrapping_mul(5) ^ copied[i] ^ row[i];
    }
    sum
}

/// Returns numbers made of arrays of several lengths, which are copied before they change.
#[unsafe(no_mangle)]
pub extern "C" fn lengths(n: u64) -> u64 {
    mixed::<1>(n) ^ mixed::<2>(n).wrapping_mul(3) ^ mixed::<7>(n).wrapping_mul(5) ^ mixed::<0>(n)
}
