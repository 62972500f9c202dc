//! The requests of a client and the replies of a device.

ghost use Rattle.example_call.specs.declared.message.Refusal.{Refusal};
ghost use Rattle.example_call.specs.declared.message.Reply.{Reply};
ghost use Rattle.example_call.specs.declared.message.Request.{Request};

use postcard::ser_flavors::Flavor;
use postcard::{
    Case, FromRepr, NoCase, Repr, Result, SerializeRepr, Serializer, serialize_variant,
};

/// A request to a device.
#[derive(Debug, Drop, PartialEq)]
pub enum Request<'a> {
    /// Asks whether the device answers.
    Ping,
    /// Asks for the sum of two numbers.
    Add {
        /// The first number.
        left: u32,
        /// The second number.
        right: u32,
    },
    /// Asks for the same string back.
    Echo(&'a str),
}

impl<'a> Repr for Request<'a> {
    ghost use Rattle.postcard_shape.specs.declared.cases.Case.TheVariants.{This, Next};

    type As = Case<(), Case<(u32, u32), Case<&'a str, NoCase>>>;

    ghost repr = { elim [
      | Request.Ping ↦ This tt
      | Request.Add left right ↦ Next (This (left, right))
      | Request.Echo text ↦ Next (Next (This text))
    ] };
}

impl FromRepr for Request<'_> {
    fn from_repr(repr: Self::As) -> Self {
        match repr {
            Case::This(()) => Request::Ping,
            Case::Next(Case::This((left, right))) => Request::Add { left, right },
            Case::Next(Case::Next(Case::This(text))) => Request::Echo(text),
            Case::Next(Case::Next(Case::Next(never))) => match never {},
        }
    }
}

impl SerializeRepr for Request<'_> {
    fn serialize_repr<F: Flavor>(&self, serializer: &mut Serializer<F>) -> Result<()> {
        match self {
            Request::Ping => serialize_variant(0, &(), serializer),
            Request::Add { left, right } => serialize_variant(1, &(left, right), serializer),
            Request::Echo(text) => serialize_variant(2, text, serializer),
        }
    }
}

/// The reason for which a device refuses a request.
#[derive(Debug, Drop, PartialEq)]
pub enum Refusal {
    /// The sum is 2^32 or more.
    TooLarge,
    /// The bytes are not the frame of a request.
    NotUnderstood,
}

impl Repr for Refusal {
    ghost use Rattle.postcard_shape.specs.declared.cases.Case.TheVariants.{This, Next};

    type As = Case<(), Case<(), NoCase>>;

    ghost repr = { elim [
      | Refusal.TooLarge ↦ This tt
      | Refusal.NotUnderstood ↦ Next (This tt)
    ] };
}

impl FromRepr for Refusal {
    fn from_repr(repr: Self::As) -> Self {
        match repr {
            Case::This(()) => Refusal::TooLarge,
            Case::Next(Case::This(())) => Refusal::NotUnderstood,
            Case::Next(Case::Next(never)) => match never {},
        }
    }
}

impl SerializeRepr for Refusal {
    fn serialize_repr<F: Flavor>(&self, serializer: &mut Serializer<F>) -> Result<()> {
        match self {
            Refusal::TooLarge => serialize_variant(0, &(), serializer),
            Refusal::NotUnderstood => serialize_variant(1, &(), serializer),
        }
    }
}

/// A reply of a device.
#[derive(Debug, Drop, PartialEq)]
pub enum Reply<'a> {
    /// The reply to `Ping`.
    Pong,
    /// The reply to `Add`: the sum of the two numbers.
    Sum(u32),
    /// The reply to `Echo`: the string of the request.
    Text(&'a str),
    /// The request is refused, for this reason.
    Refused(Refusal),
}

impl<'a> Repr for Reply<'a> {
    ghost use Rattle.postcard_shape.specs.declared.cases.Case.TheVariants.{This, Next};

    type As = Case<(), Case<u32, Case<&'a str, Case<Refusal, NoCase>>>>;

    ghost repr = { elim [
      | Reply.Pong ↦ This tt
      | Reply.Sum sum ↦ Next (This sum)
      | Reply.Text text ↦ Next (Next (This text))
      | Reply.Refused refusal ↦ Next (Next (Next (This refusal)))
    ] };
}

impl FromRepr for Reply<'_> {
    fn from_repr(repr: Self::As) -> Self {
        match repr {
            Case::This(()) => Reply::Pong,
            Case::Next(Case::This(sum)) => Reply::Sum(sum),
            Case::Next(Case::Next(Case::This(text))) => Reply::Text(text),
            Case::Next(Case::Next(Case::Next(Case::This(refusal)))) => Reply::Refused(refusal),
            Case::Next(Case::Next(Case::Next(Case::Next(never)))) => match never {},
        }
    }
}

impl SerializeRepr for Reply<'_> {
    fn serialize_repr<F: Flavor>(&self, serializer: &mut Serializer<F>) -> Result<()> {
        match self {
            Reply::Pong => serialize_variant(0, &(), serializer),
            Reply::Sum(sum) => serialize_variant(1, sum, serializer),
            Reply::Text(text) => serialize_variant(2, text, serializer),
            Reply::Refused(refusal) => serialize_variant(3, refusal, serializer),
        }
    }
}
