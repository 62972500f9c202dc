//! Tests of the impls that are written for the types of a file, and of the files that are refused.

use crate::failing::Failing;
use crate::helpers::{same, text_with};
use pcard_impl::command::answer;
use pcard_impl::marks::{BEGIN, END};
use pcard_impl::{Home, impl_file};
use std::process::Abort;

/// A file with a type of each kind, and with other items.
const FILE: &str = "//! Types.
use std::collections::BTreeMap;

/// A number.
#[derive(Clone, Copy)]
pub(crate) struct Number(pub u8);

#[derive(Debug, Drop)]
pub struct Reading<'a, T: Debug> {
    /// The sensor. /* no comment
    #[allow(dead_code)]
    pub id: u16, // id: u32
    pub(crate) label: &'a str,
    value: T,
}

#[derive(Drop)]
enum Event {
    Boot = 1,
    Moved { from: (i16, i16), d: BTreeMap<u8, Vec<Number>> },
    Texts(String, [u8; 4],),
}

#[derive(Drop)]
struct Depth(Option<Metres>);

type Metres = Steps;
type Steps = i16;

/// \u{3bb}
fn other() -> char {
    '\u{3bb}'
}
";

/// A file, and its error as it is printed.
type Row<'a> = (&'a str, &'a str);

/// Files that are refused.
const REFUSED: [Row; 34] = [
    (
        "#[derive(Drop)]\nstruct A {\n    b: RefCell<u8>,\n}",
        "line 3, column 5: `b`: values of this type aren't written and read",
    ),
    (
        "#[derive(Drop)] struct A(u8, [u16]);",
        "line 1, column 30: `[u16]`: values of this type aren't written and read",
    ),
    (
        "#[derive(Drop)] struct A(str);",
        "line 1, column 26: `str`: values of this type aren't written and read",
    ),
    (
        "#[derive(Drop)] struct A<'a>(&'a mut u8);",
        "line 1, column 30: `&'a mut u8`: values of this type aren't written and read",
    ),
    (
        "#[derive(Drop)] struct A<'a>(&'a u8);",
        "line 1, column 30: `&'a u8`: only `&str` and `&[u8]` are read",
    ),
    (
        "#[derive(Drop)] struct A(&'static str);",
        "line 1, column 26: `&'static str`: it borrows for no lifetime of its type",
    ),
    (
        "#[derive(Drop)] struct A { b: Option<*const u8> }",
        "line 1, column 28: `b`: values of this type aren't written and read",
    ),
    (
        "#[derive(Drop)] struct A { b: Box<dyn C> }",
        "line 1, column 28: `b`: values of this type aren't written and read",
    ),
    (
        "#[derive(Drop)] struct A { b: u8 /* c */ , d: [u8; /* e */ 2] }",
        "line 1, column 44: `d`: a comment inside a type",
    ),
    (
        "#[derive(Drop)] struct A { ghost b: { c }, d: u8 }",
        "line 1, column 28: `ghost`: a type with a rule of its own",
    ),
    (
        "#[derive(Drop)] struct A { b: Option<A> }",
        "line 1, column 38: `A`: this type has itself in it",
    ),
    (
        "#[derive(Drop)] struct A(Vec<B>); #[derive(Drop)] enum B { C(A), D }",
        "line 1, column 30: `B`: this type has itself in it",
    ),
    (
        "#[derive(Drop)] struct A(B); #[derive(Drop)] struct B(Vec<B>);",
        "line 1, column 59: `B`: this type has itself in it",
    ),
    (
        "struct A(u8);",
        "line 1, column 8: `A`: derive `Drop`, or `Copy`",
    ),
    (
        "#[derive(Drop, Serialize)] struct A(u8);",
        "line 1, column 16: `Serialize`: derive neither `Serialize` nor `Deserialize`",
    ),
    (
        "#[derive(Drop)] #[serde(untagged)] enum A { B }",
        "line 1, column 19: `serde`: an attribute of serde may change what is written",
    ),
    (
        "#[derive(Drop)] struct A { #[serde(skip)] b: u8 }",
        "line 1, column 30: `serde`: an attribute of serde may change what is written",
    ),
    (
        "#[derive(Drop)] enum A {}",
        "line 1, column 24: `{`: an enum without variants has no values",
    ),
    (
        "#[derive(Drop)] struct A<const N: usize>([u8; N]);",
        "line 1, column 26: `const N: usize`: a parameter can't be a number",
    ),
    (
        "#[derive(Drop)] struct A<T = u8>(T);",
        "line 1, column 26: `T = u8`: a parameter can't have a default",
    ),
    (
        "#[derive(Drop)] struct A<T: 'static>(T);",
        "line 1, column 26: `T:`: a bound can't have a lifetime",
    ),
    (
        "#[derive(Drop)] struct A<T> where T: B { b: T }",
        "line 1, column 29: `where`: write each bound at its parameter, without `where`",
    ),
    (
        "#[derive(Drop)] struct A { b u8 }",
        "line 1, column 30: `u8`: expected `:`",
    ),
    (
        "#[derive(Drop)] struct A { b: u8 c: u8 }",
        "line 1, column 28: `b`: expected `,`",
    ),
    (
        "#[derive(Drop)] enum A { B C }",
        "line 1, column 28: `C`: expected `,`",
    ),
    (
        "#[derive(Drop)] struct A { b: , c: u8 }",
        "line 1, column 28: `b`: expected a type",
    ),
    (
        "#[derive(Drop)] struct A { : u8 }",
        "line 1, column 28: `:`: expected a name",
    ),
    (
        "#[derive(Drop)] struct A u8;",
        "line 1, column 26: `u8`: expected `{`, `(` or `;`",
    ),
    (
        "#[derive(Drop)] enum A;",
        "line 1, column 23: `;`: expected `{`",
    ),
    (
        "#[derive(Drop)] struct A(u8); type A = u8;",
        "line 1, column 36: this name was declared before",
    ),
    (
        "#[derive(Drop)] struct A(u8",
        "line 1, column 25: this bracket isn't closed",
    ),
    (
        "#[derive(Drop)] struct A<'a, T>(&'a str, T);
         #[derive(Drop)] struct B<'a>(A<'a, Vec<u8>>);",
        "line 2, column 39: `A<'a, Vec<u8>>`: \
         a type with a parameter and a lifetime holds memory here",
    ),
    (
        "// pcard impl: the end of the impls.\n",
        "line 2, column 1: the first mark isn't before this one",
    ),
    (
        "\n// pcard impl: the impls of the types of this file. Don't edit them: run it again.\nA",
        "line 3, column 1: the second mark doesn't follow",
    ),
];

/// Returns the file with the impls of its types, or the error as it is printed.
fn printed(rt: &(impl Abort + AllocGlobal), file: &str) -> String {
    printed_at(rt, "crates/weather/src/net/types.rt", file)
}

/// Does what [`printed`] does, for a file with this path.
fn printed_at(rt: &(impl Abort + AllocGlobal), path: &str, file: &str) -> String {
    let home = Home::of_path(path).expect(rt, "home");
    match impl_file(rt.alloc(), home, file) {
        Ok(written) => written,
        Err(error) => format!(in rt.alloc(); "{error}").expect(rt, "memory"),
    }
}

#[test]
fn names_what_is_wrong(rt: HostRuntime) {
    for (file, wanted) in &REFUSED {
        assert_eq!(&rt; printed(&rt, file).as_str(), *wanted, "{file}");
    }
}

/// Types whose values aren't written and read.
const NOT_SERVED: [&str; 27] = [
    "*const u8",
    "Box<?Sized>",
    "!",
    "Box<dyn C>",
    "impl C",
    "fn(u8) -> u8",
    "Box<mut>",
    "Cell<u8>",
    "RefCell<u8>",
    "UnsafeCell<u8>",
    "OnceCell<u8>",
    "LazyCell<u8>",
    "Mutex<u8>",
    "RwLock<u8>",
    "OnceLock<u8>",
    "LazyLock<u8>",
    "Weak<u8>",
    "NonNull<u8>",
    "Instant",
    "Box<OsStr>",
    "OsString",
    "Box<CStr>",
    "Box<Self>",
    "f16",
    "f128",
    "Vec<_>",
    "File",
];

#[test]
fn refuses_each_type_that_is_not_served(rt: HostRuntime) {
    let wanted = "line 1, column 28: `b`: values of this type aren't written and read";
    for kind in &NOT_SERVED {
        let file = format!(in rt.alloc(); "#[derive(Drop)] struct A {{ b: {kind} }}");
        let file = file.expect(&rt, "memory");
        assert_eq!(&rt; printed(&rt, file.as_str()).as_str(), wanted, "{kind}");
    }
}

#[test]
fn takes_sixty_fields(rt: HostRuntime) {
    let sixty = text_with(&rt, "#[derive(Drop)] struct A(", "u8,", 60, ");");
    assert!(&rt; printed(&rt, sixty.as_str()).contains("for A {"));
    let more = text_with(&rt, "#[derive(Drop)] struct A(", "u8,", 61, ");");
    let wanted = "line 1, column 206: `u8`: more than 60 fields";
    assert_eq!(&rt; printed(&rt, more.as_str()).as_str(), wanted);
}

/// The call flushes its error message, and fails if the flush fails.
#[test]
fn flushes_a_refusal(rt: HostRuntime) {
    for (flushes, status) in &[(true, 2), (false, 3)] {
        let mut errors = Failing {
            writes_left: 1_000,
            flushes: *flushes,
            finished: false,
        };
        let mut output = Vec::<u8>::new(rt.alloc());
        let found = answer(rt.alloc(), "types.rt", b"", &mut output, &mut errors);
        same(&rt, found, *status, "status");
        same(&rt, errors.finished, *flushes, "flushed");
    }
}

/// The types of a crate's root are in no module.
#[test]
fn names_an_enum_by_crate_and_module(rt: HostRuntime) {
    for (path, line) in &[
        (
            "weather/src/lib.rt",
            "ghost use Rattle.weather.specs.declared.Event.{Event};\n",
        ),
        (
            "a/weather/src/main.rt",
            "ghost use Rattle.weather.specs.declared.Event.{Event};\n",
        ),
        (
            "weather/src/net.rt",
            "ghost use Rattle.weather.specs.declared.net.Event.{Event};\n",
        ),
    ] {
        assert!(&rt; printed_at(&rt, *path, FILE).contains(*line), "{path}");
    }
}

/// The impls are written between the marks. Written again, they are the same.
#[test]
fn writes_the_same_again(rt: HostRuntime) {
    let once = printed(&rt, FILE);
    assert_eq!(&rt; printed(&rt, once.as_str()).as_str(), once.as_str());
    let (before, rest) = once.as_str().split_once(BEGIN).expect(&rt, "first mark");
    assert_eq!(&rt; before, FILE);
    let (impls, after) = rest.split_once(END).expect(&rt, "second mark");
    assert_eq!(&rt; after, "");
    for part in &PARTS {
        assert!(&rt; impls.contains(*part), "{part}");
    }
    assert!(&rt; !impls.contains("postcard::FromParts for Number"));
}

/// Parts of the impls of `FILE`.
const PARTS: [&str; 15] = [
    "\nimpl postcard::Shaped for Number {\n",
    "ghost shape = { via (λ v. v.0)\n        ⟦<u8 as postcard::Shaped>⟧.shape };",
    "\nimpl<'a, T: Debug + postcard::Shaped> postcard::Repr for Reading<'a, T> {\n",
    "    type As = (u16, &'a str, T);\n",
    "\nimpl<T: Debug + postcard::Serialize> postcard::SerializeRepr for Reading<'_, T> {\n",
    "    ghost use Rattle.weather.specs.declared.net.types.Event.{Event};\n",
    "      | Event.Moved x0 x1 ↦ Next (This (x0, x1))\n",
    "Event::Moved { from, d: x1 } => postcard::write_variant(self, 1, &(from, x1), serializer),\n",
    "postcard::Case<(String, [u8; 4]), postcard::NoCase>>>;\n",
    "Next(Next(This((x0, x1)))) => Event::Texts(x0, x1),\n",
    "\nimpl<'de> postcard::Deserialize<'de> for Event {\n",
    "\nimpl postcard::DeserializeOwned for Event {\n",
    "ghost shape = { via ⟦<Event as postcard::FromParts>⟧.seen ⟦<EventRow as postcard::Shaped>⟧",
    "\nimpl postcard::FromParts for Depth {\n    type Parts = Option<Metres>;\n",
    "ghost shape = { via ⟦<Depth as postcard::FromParts>⟧.seen\n",
];
