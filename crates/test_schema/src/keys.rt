//! Types, with their keys without and with names.

use postcard_described::{HasSchema, key_of};
use postcard_fixint::{BE, LE};
use postcard_key::{key, named_key};
use postcard_schema::Schema;
use postcard_schema_text::parse;
use std::collections::BTreeMap;
use std::num::NonZeroU8;
use std::process::Abort;

const KEYS: [(&str, u64, u64); 22] = [
    ("u8", 0x4754_7a32_104c_c0ec, 0x4754_7a32_104c_c0ec),
    ("i128", 0x5696_4566_8df8_7819, 0x5696_4566_8df8_7819),
    ("f64", 0xd494_41ee_4d63_e5fe, 0xd494_41ee_4d63_e5fe),
    ("bytes", 0xab11_4150_b111_9336, 0xab11_4150_b111_9336),
    ("LE<u16>", 0x7fc2_9798_3cac_d0e8, 0x7fc2_9798_3cac_d0e8),
    ("BE<i64>", 0xf41f_593d_d5db_dadb, 0xf41f_593d_d5db_dadb),
    ("u8?", 0x45b9_550f_96ce_386c, 0x45b9_550f_96ce_386c),
    ("str??", 0xa014_a012_085a_62ad, 0xa014_a012_085a_62ad),
    ("[char]", 0xb38b_83ce_e982_a702, 0xb38b_83ce_e982_a702),
    ("[bool; 0]", 0x1f90_9cd7_5a81_e789, 0x1f90_9cd7_5a81_e789),
    ("[u16; 10]", 0x13f8_8823_96e1_4d6b, 0x13f8_8823_96e1_4d6b),
    (
        "[[u8; 32]; 18446744073709551615]",
        0x85eb_58ea_83c3_df86,
        0x85eb_58ea_83c3_df86,
    ),
    ("()", 0xad02_0e06_4656_7167, 0xad02_0e06_4656_7167),
    ("(u8,)", 0xe20a_f9a8_afb3_d706, 0xe20a_f9a8_afb3_d706),
    ("(u8, u16)", 0x21d6_334b_a0cd_ca7f, 0x21d6_334b_a0cd_ca7f),
    (
        "((u8, u16), str)",
        0x13e5_aacb_bcdd_d072,
        0x13e5_aacb_bcdd_d072,
    ),
    (
        "{id: u16, label: str}",
        0xae2d_84c0_648f_9f89,
        0xeed6_474a_4a6b_eb7b,
    ),
    (
        "{label: u16, id: str}",
        0xae2d_84c0_648f_9f89,
        0xf82e_74ce_bf24_d0e8,
    ),
    (
        "{u8 => [i32]}",
        0xc9c6_9e32_7bfe_d785,
        0xa668_4bcb_be33_a6f2,
    ),
    ("| Boot", 0x5f83_a50d_effe_a871, 0xdfa4_5bfd_2a1e_8423),
    (
        "Boot | Reading(u16, i32) | Text(str)",
        0xd30a_618e_1758_447c,
        0x348f_bcfd_304a_7fea,
    ),
    (
        "Result<u8, {code: i16}>",
        0x5a43_556d_c242_c3a2,
        0x5b22_cd20_0ef4_f24f,
    ),
];

/// Asserts that a type has these keys. A failure prints its expression.
fn has_keys(rt: &impl Abort, schema: &Schema, shape: u64, names: u64, text: &str) {
    assert_eq!(rt; key(schema), shape, "{text}");
    assert_eq!(rt; named_key(schema), names, "{text}");
}

#[test]
fn keys_of_types(rt: HostRuntime) {
    for (text, shape, names) in &KEYS {
        let schema = parse(rt.alloc(), text).expect(&rt, text);
        has_keys(&rt, &schema, *shape, *names, text);
    }
}

/// Tests an enum without variants, which no expression denotes.
#[test]
fn keys_of_no_variants(rt: HostRuntime) {
    let never = Schema::Enum(Vec::new(rt.alloc()));
    has_keys(
        &rt,
        &never,
        0x0dda_24ed_b06b_3b56,
        0x3782_5e31_3228_8fcd,
        "no variants",
    );
}

/// Asserts that a static type has this key.
fn type_has_key<T: HasSchema>(rt: &(impl Abort + AllocGlobal), wanted: u64, name: &str) {
    let found = key_of::<T>(rt.alloc()).expect(rt, name);
    assert_eq!(rt; found, wanted, "{name}");
}

#[test]
fn keys_of_static_types(rt: HostRuntime) {
    type_has_key::<LE<u16>>(&rt, 0x7fc2_9798_3cac_d0e8, "LE<u16>");
    type_has_key::<BE<i64>>(&rt, 0xf41f_593d_d5db_dadb, "BE<i64>");
    type_has_key::<NonZeroU8>(&rt, 0x4754_7a32_104c_c0ec, "u8");
    type_has_key::<(u8, u16)>(&rt, 0x21d6_334b_a0cd_ca7f, "(u8, u16)");
    type_has_key::<[u16; 10]>(&rt, 0x13f8_8823_96e1_4d6b, "[u16; 10]");
    type_has_key::<BTreeMap<u8, Vec<i32>>>(&rt, 0xc9c6_9e32_7bfe_d785, "{u8 => [i32]}");
}
